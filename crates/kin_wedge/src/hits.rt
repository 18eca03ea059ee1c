//! The apexes that a number is the candidate of.

ghost use Rattle.std.specs.Prelude.{◌≡◌, ◌/◌, map};
ghost use Rattle.std.specs.Iterator.{YieldsFirst, item_count};

use crate::walk::Walk;
use std::marker::Model;

/// The apexes whose candidate in an octant a number is, each once.
#[derive(Drop)]
pub struct Hits<'a> {
    slots: Walk<'a>,
}

impl<'a> Model for Hits<'a> {
    ghost use Rattle.std.specs.Prelude.{List, ℕ, ◌/◌, map};

    ghost Value = { List ℕ };

    ghost view = { λ h. map (λ slot. slot / 8) h.slots };
}

impl<'a> Hits<'a> {
    /// The apexes of these slots.
    #[inline(always)]
    pub(crate) fn new(slots: Walk<'a>) -> Hits<'a>
        ensures { result ≡ map (λ slot. slot / 8) slots.entry }
    {
        Hits { slots }
    }
}

impl Iterator for Hits<'_> {
    type Item = u32;

    ghost next_gives = { YieldsFirst (λ rest. rest) };

    ghost remaining = { item_count (λ rest. rest) };

    #[inline(always)]
    fn next(&mut self) -> Option<u32> {
        let Some(slot) = self.slots.next() else {
            return None;
        };
        Some(slot / 8)
    }
}
