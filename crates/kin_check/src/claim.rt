//! What is left of a claimed text.

ghost use Rattle.std.specs.Prelude.{◌≡◌, ◌↔◌, [], IsTrue};
ghost use Rattle.kin_check.specs.Matches.{IsMatch};

use std::marker::Model;

/// What is left of a claimed text, when what was printed so far has been taken away.
#[derive(Drop)]
pub struct Claim<'a> {
    left: &'a [u8],
}

impl<'a> Model for Claim<'a> {
    ghost use Rattle.std.specs.Prelude.{ℕ, List};

    ghost Value = { List ℕ };

    ghost view = { λ c. c.left.now };
}

impl<'a> Claim<'a> {
    /// All of a claimed text.
    pub fn of(text: &'a [u8]) -> Claim<'a>
        ensures { result ≡ text.now }
    {
        Claim { left: text }
    }

    /// Takes a text away, if what is left begins with it.
    pub fn take(&mut self, text: &[u8]) -> bool
        ensures { IsMatch text.now result self.old self.new }
    {
        match self.left.strip_prefix(text) {
            Some(left) => {
                self.left = left;
                true
            }
            None => false,
        }
    }

    /// Whether this is all that is left.
    pub fn is(&self, text: &[u8]) -> bool
        ensures { IsTrue result ↔ (self.now ≡ text.now) }
    {
        self.left == text
    }
}
