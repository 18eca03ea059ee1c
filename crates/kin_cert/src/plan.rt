//! A plan of seats.

ghost use Rattle.std.specs.Prelude.{◌≡◌, ◌+◌, ◌*◌, ◌/◌, ◌<◌, ℕ, Some, IsTrue, slice_get};
ghost use Rattle.kin_cert.specs.Keys.{row_of, list_seat, merge_seat, seat_in, seat_at, seat_of, key_at};

use crate::bucket::{KIND, Label, bucket_number};
use kin_motion::form::Form;
use kin_num::NoMemory;
use std::alloc::Global;

/// What a structure has of the seats, from the base on: for each list as many as there are numbers, and after them one
/// for each node of its tournament; or for each pair of parts as many as there are numbers; or for each row of its merges
/// three times as many.
#[derive(Clone, Copy)]
pub(crate) struct Section {
    base: u32,
    lists: u32,
    nodes: u32,
    pairs: u32,
    rows: u32,
}

/// The seats of facts, each of which is a place in a vector.
///
/// The first parts of a structure are lists, of which each usually has one live fact of a first number. The parts after
/// those are nodes of a tournament, of which each has one live fact at a time.
///
/// Or the parts 2k and 2k + 1 are one list, whose seats facts of both share.
///
/// Or the parts are merges, those of node v of two trees the parts 2v and 2v + 1. The nodes of one level of a tree have no
/// number in common, so they share a row of seats: one for each number as the first of a line, of a turn and of a slope.
/// Other facts have no seat.
#[derive(Drop)]
pub struct Plan {
    /// Numbers from this one on have no seat in a list.
    numbers: u32,
    sections: Vec<Section>,
    /// How many seats there are.
    count: u32,
}

impl Plan {
    /// A plan without structures, for lists of the numbers below `2^size`, or below `2^31` where that is less.
    pub fn new(alloc: Global, size: u32) -> Plan {
        Plan {
            numbers: 1 << size.min(31),
            sections: Vec::new(alloc),
            count: 0,
        }
    }

    /// Gives seats to the next structure, which has so many lists and nodes. It gets none if there would be `2^32` seats or
    /// more.
    pub fn add(&mut self, lists: u32, nodes: u32) -> Result<(), NoMemory> {
        let mut section = self.no_section();
        if let Some(end) = end_of(self.count, lists, self.numbers, nodes) {
            section.lists = lists;
            section.nodes = nodes;
            self.count = end;
        }
        self.sections.push(section).map_err(|_| NoMemory)
    }

    /// Gives seats to the next structure, which has so many lists, each of two parts next to each other. It gets none if
    /// there would be `2^32` seats or more.
    pub fn add_pairs(&mut self, lists: u32) -> Result<(), NoMemory> {
        let mut section = self.no_section();
        if let Some(end) = end_of(self.count, lists, self.numbers, 0) {
            section.pairs = lists;
            self.count = end;
        }
        self.sections.push(section).map_err(|_| NoMemory)
    }

    /// Gives seats to the next structure, which has merges in so many rows: each tree has one for each level. It gets none
    /// if there would be `2^32` seats or more.
    pub fn add_merges(&mut self, rows: u32) -> Result<(), NoMemory> {
        let mut section = self.no_section();
        if let Some(end) = end_of(self.count, rows.saturating_mul(3), self.numbers, 0) {
            section.rows = rows;
            self.count = end;
        }
        self.sections.push(section).map_err(|_| NoMemory)
    }

    // A section without seats.
    fn no_section(&self) -> Section {
        Section {
            base: self.count,
            lists: 0,
            nodes: 0,
            pairs: 0,
            rows: 0,
        }
    }

    /// How many seats there are.
    pub(crate) fn count(&self) -> usize {
        self.count as usize
    }

    /// The seat of a form of an owner, if it has one.
    #[inline(always)]
    pub(crate) fn seat_of(&self, structure: u32, part: u32, form: &Form) -> Option<usize>
        ensures { result ≡ seat_of self.now structure part form.now }
    {
        self.seat_at(structure, part, bucket_number(form))
    }

    /// The seat of a fact that is known by a number in its part, if it has one.
    #[inline(always)]
    pub(crate) fn seat_at(&self, structure: u32, part: u32, number: u32) -> Option<usize>
        ensures { result ≡ seat_at self.now.numbers (slice_get self.now.sections.items structure) part number }
    {
        let section = self.section_of(structure)?;
        section.seat_in(self.numbers, part, number)
    }

    /// Whether a part of a structure is a node of a tournament, whose facts all have one seat.
    #[inline(always)]
    pub(crate) fn is_node(&self, structure: u32, part: u32) -> bool
        ensures { IsTrue result → (m n : ℕ) → key_at self.now structure (record { part = part; number = m }) ≡ key_at self.now structure (record { part = part; number = n }) }
    {
        match self.section_of(structure) {
            Some(section) => section.has_node(part),
            None => false,
        }
    }

    /// Whether a fact has the seat that a fact of its number has in the part that makes a list with its own.
    #[inline(always)]
    pub(crate) fn has_pair_seat(&self, structure: u32, label: Label) -> bool
        ensures { IsTrue result → (part : ℕ) → part / 2 ≡ label.part / 2 → key_at self.now structure (record { part = part; number = label.number }) ≡ key_at self.now structure label }
    {
        match self.section_of(structure) {
            Some(section) => section.has_pair_seat(self.numbers, label.part, label.number),
            None => false,
        }
    }

    // The seats of a structure, if it has any.
    #[inline(always)]
    fn section_of(&self, structure: u32) -> Option<Section>
        ensures { result ≡ slice_get self.now.sections.items structure }
    {
        self.sections.get(structure as usize).copied()
    }
}

impl Section {
    // The seat of a fact in a part, which is known by a number.
    #[inline(always)]
    fn seat_in(&self, numbers: u32, part: u32, number: u32) -> Option<usize>
        ensures { result ≡ seat_in numbers self.now part number }
    {
        if part < self.lists {
            return self.list_seat(numbers, part, number);
        }
        let node = part - self.lists;
        if node < self.nodes {
            return Some(seat(self.base, self.lists, numbers, node));
        }
        if part / 2 < self.pairs {
            return self.list_seat(numbers, part / 2, number);
        }
        self.merge_seat(numbers, part, number)
    }

    // The seat of a fact of a list, by the number that its form names first.
    #[inline(always)]
    fn list_seat(&self, numbers: u32, list: u32, number: u32) -> Option<usize>
        ensures { result ≡ list_seat numbers self.now list number }
    {
        let first = number % KIND;
        if first < numbers {
            return Some(seat(self.base, list, numbers, first));
        }
        None
    }

    // The seat of a fact of a merge, by the kind of its form and the number that it names first.
    #[inline(always)]
    fn merge_seat(&self, numbers: u32, part: u32, number: u32) -> Option<usize>
        ensures { result ≡ merge_seat numbers self.now part number }
    {
        let row = row_of(part);
        if row >= self.rows {
            return None;
        }
        self.list_seat(numbers, 3 * row + number / KIND, number)
    }

    // Whether a part is a node.
    #[inline(always)]
    fn has_node(&self, part: u32) -> bool
        ensures { IsTrue result → (numbers m n : ℕ) → (seat : ℕ) × (seat_in numbers self.now part m ≡ Some seat) × (seat_in numbers self.now part n ≡ Some seat) }
    {
        part >= self.lists && part - self.lists < self.nodes
    }

    // Whether a number has one seat in a part and in the part that makes a list with it.
    #[inline(always)]
    fn has_pair_seat(&self, numbers: u32, part: u32, number: u32) -> bool
        ensures { IsTrue result → (other : ℕ) → other / 2 ≡ part / 2 → (seat : ℕ) × (seat_in numbers self.now other number ≡ Some seat) × (seat_in numbers self.now part number ≡ Some seat) }
    {
        if part / 2 >= self.pairs || number % KIND >= numbers {
            return false;
        }
        self.lists == 0 && self.nodes == 0
    }
}

// The row of the merges of a part.
fn row_of(part: u32) -> u32
    ensures value { result ≡ row_of part }
    ensures small { result < 64 }
{
    2 * 30_u32.saturating_sub(part.leading_zeros()) + part % 2
}

// So many places after the rows, each of which has as many places as there are numbers.
#[inline(always)]
fn seat(base: u32, rows: u32, numbers: u32, place: u32) -> usize
    ensures { result ≡ base + rows * numbers + place }
{
    base as usize + rows as usize * numbers as usize + place as usize
}

// How many seats there are after those of a structure, if that is below `2^32`.
fn end_of(base: u32, lists: u32, numbers: u32, nodes: u32) -> Option<u32> {
    base.checked_add(lists.checked_mul(numbers)?)?
        .checked_add(nodes)
}
