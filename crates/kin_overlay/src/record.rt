//! What is remembered at a breakpoint.

ghost use Rattle.std.specs.Prelude.{◌≡◌, ◌↔◌, IsTrue, IsFalse, false, Contains, option_to_list};
ghost use Rattle.kin_motion.specs.declared.fact.Fact.{Fact as Claim};
ghost use Rattle.kin_motion.specs.Forms.{names};
ghost use Rattle.kin_overlay.specs.Remembered.{turn_fact, slope_facts};

use crate::breakpoint::Breakpoint;
use kin_motion::fact::Fact;
use kin_num::Sign;

/// The next breakpoint in the list, which is of the other half, with the sign of the slope form of
/// both.
#[derive(Clone, Copy, Debug, PartialEq, Eq)]
pub struct Next {
    pub at: Breakpoint,
    pub slope: Sign,
}

/// A breakpoint in the list, with what is remembered at it.
#[derive(Clone, Copy, Debug, PartialEq, Eq)]
pub struct Record {
    pub at: Breakpoint,
    /// The current point of the other half.
    pub across: u32,
    /// The sign of the turn to that point.
    pub turn: Sign,
    /// The next breakpoint, where it is of the other half.
    pub next: Option<Next>,
}

impl Record {
    /// Whether it is the same record.
    #[inline(always)]
    pub fn is(&self, other: &Record) -> bool
        ensures { IsTrue result ↔ (self.now ≡ other.now) }
    {
        self.at.is(other.at)
            && self.across == other.across
            && self.turn == other.turn
            && are_same(self.next, other.next)
    }

    /// Whether the fact of the turn names this number.
    #[inline(always)]
    pub fn turn_names(&self, no: u32) -> bool
        ensures { result ≡ names (turn_fact self.now).form no }
    {
        no == self.at.left || no == self.at.right || no == self.across
    }

    /// Whether the fact of the slope, if there is one, names this number.
    #[inline(always)]
    pub fn slope_names(&self, no: u32) -> bool
        ensures { IsFalse result → (f : Claim) → Contains (slope_facts self.now) f → names f.form no ≡ false }
    {
        match self.next {
            Some(next) => self.at.names(no) || next.at.names(no),
            None => false,
        }
    }

    /// The fact of the turn.
    pub fn turn_fact(&self) -> Fact
        ensures { result ≡ turn_fact self.now }
    {
        Fact {
            form: self.at.turn(self.across),
            sign: self.turn,
        }
    }

    /// The fact of the slope, if there is one.
    pub fn slope_fact(&self) -> Option<Fact>
        ensures { option_to_list result ≡ slope_facts self.now }
    {
        let next = self.next?;
        Some(Fact {
            form: self.at.slope(next.at),
            sign: next.slope,
        })
    }
}

/// Whether nothing is next of either, or they are the same.
#[inline(always)]
fn are_same(one: Option<Next>, other: Option<Next>) -> bool
    ensures { IsTrue result ↔ (one ≡ other) }
{
    match (one, other) {
        (Some(one), Some(other)) => one.at.is(other.at) && one.slope == other.slope,
        (None, None) => true,
        _ => false,
    }
}
