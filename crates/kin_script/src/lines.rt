//! The lines of a script that have words, from the first to the last.

ghost use Rattle.std.specs.Prelude.{◌≡◌, ◌<◌, ◌≤◌, ◌^◌, ◌+◌, ◌∷◌, [], length, MatchOption, IfNone, IfSome};
ghost use Rattle.kin_script.specs.Lines.{lines_of};
ghost use Rattle.kin_script.specs.Left.{with_words, after};

use crate::words::{Words, place};
use std::marker::Model;

/// The lines that are left to read.
#[derive(Drop)]
pub struct Lines<'a> {
    rest: &'a [u8],
    /// The number of the next line.
    number: u32,
}

impl<'a> Model for Lines<'a> {
    ghost use Rattle.std.specs.Prelude.{◌≤◌, ◌^◌, ◌+◌, length};
    ghost use Rattle.kin_script.specs.Lines.{lines_of};
    ghost use Rattle.kin_script.specs.Left.{Left};

    ghost Value = { Left };

    ghost view = { λ l. record { number = l.number; lines = lines_of l.rest.now } };

    ghost invariant = { λ l. l.number + length l.rest.now ≤ 2 ^ 21 };
}

/// A line with words.
#[derive(Drop)]
pub struct Line<'a> {
    /// Counted from 1.
    pub number: u32,
    pub words: Words<'a>,
}

impl<'a> Lines<'a> {
    /// The lines of these bytes, from the first on.
    pub fn of(bytes: &'a [u8]) -> Lines<'a>
        requires { length bytes.now ≤ 2 ^ 20 }
        ensures { result ≡ record { number = 1; lines = lines_of bytes.now } }
    {
        Lines {
            rest: bytes,
            number: 1,
        }
    }

    /// The next line that has words.
    pub fn next(&mut self) -> Option<Line<'a>>
        ensures none { IfNone result ((with_words self.old ≡ []) × (self.new.number ≡ after self.old)) }
        ensures some { IfSome result (λ l. with_words self.old ≡ (l.number, l.words) ∷ with_words self.new) }
    {
        while let Some((line, rest)) = first_line(self.rest) {
            let number = self.number;
            self.rest = rest;
            self.number += 1;
            let words = Words::of(line);
            if !words.is_empty() {
                return Some(Line { number, words });
            }
        }
        None
    }

    /// The number of the next line.
    pub fn number(&self) -> u32
        ensures { result ≡ self.now.number }
    {
        self.number
    }
}

/// The first line, and the bytes after it.
fn first_line(bytes: &[u8]) -> Option<(&[u8], &[u8])>
    ensures line { MatchOption result (lines_of bytes.now ≡ []) (λ r. lines_of bytes.now ≡ r.0.now ∷ lines_of r.1.now) }
    ensures shorter { MatchOption result (bytes.now ≡ []) (λ r. length r.1.now < length bytes.now) }
{
    if bytes.is_empty() {
        return None;
    }
    match place(bytes, b'\n') {
        Some(at) => Some((&bytes[..at], &bytes[at + 1..])),
        None => Some((bytes, &[])),
    }
}
