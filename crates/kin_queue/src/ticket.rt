//! Entries of the heap.

use crate::instants::Instants;
use kin_instant::key::{Key, key_of};
use kin_num::{Moment, Phase};

/// An id with the key of its moment, in 16 bytes.
#[derive(Clone, Copy)]
pub struct Ticket {
    pub span: u64,
    pub id: u32,
    pub phase: Phase,
    pub is_vague: bool,
}

impl Ticket {
    ghost use Rattle.std.specs.Prelude.{◌≡◌};
    ghost use Rattle.kin_num.specs.Canonical.{IsCanonical};
    ghost use Rattle.kin_instant.specs.Keys.{IsKeyOf};
    ghost use Rattle.kin_queue.specs.Tickets.{key_in, moment_in, IsStamped};

    /// The ticket of an id at a moment.
    #[inline(always)]
    pub fn new(id: u32, at: &Moment) -> Ticket
        ensures id { result.id ≡ id }
        ensures key { IsKeyOf (key_in result) at.now }
        ensures canonical { IsCanonical at.now.at }
    {
        let key = key_of(at);
        Ticket {
            span: key.span,
            id,
            phase: key.phase,
            is_vague: key.is_vague,
        }
    }

    /// The key of its moment.
    pub fn key(&self) -> Key
        ensures { result ≡ key_in self.now }
    {
        Key {
            span: self.span,
            phase: self.phase,
            is_vague: self.is_vague,
        }
    }

    /// Its moment.
    pub fn moment(&self, instants: &Instants) -> Moment
        requires { IsStamped instants.now self.now }
        ensures { result ≡ moment_in instants.now self.now }
    {
        Moment {
            at: instants.at(self.id as usize),
            phase: self.phase,
        }
    }
}
