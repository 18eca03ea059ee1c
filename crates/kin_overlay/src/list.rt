//! The list of breakpoints with what is remembered.

ghost use Rattle.std.specs.Prelude.{◌≡◌, ◌⊎◌, ◌+◌, ◌<◌, ◌≤◌, ◌↔◌, false, [], ◌∷◌, ◌++◌, Some, None, Contains, MatchOption, length, slice_get, IsTrue, OnOk, IfOk};
ghost use Rattle.kin_motion.specs.Numbers.{is_in, IsOnce};
ghost use Rattle.kin_overlay.specs.declared.record.Record.{Record as Noted};
ghost use Rattle.kin_overlay.specs.Reading.{AreSameEnds};
ghost use Rattle.kin_overlay.specs.Remembered.{facts_of, left_points, end_facts};
ghost use Rattle.kin_overlay.specs.Reports.{IsLeftBetween, IsBetween};
ghost use Rattle.kin_overlay.specs.Turned.{with_turn};

use crate::end::End;
use crate::record::Record;
use crate::shared::Shared;
use kin_motion::fact::Fact;
use kin_motion::form::Form;
use kin_num::Sign;
use kin_num::memory::NoMemory;
use std::alloc::Global;
use std::marker::Model;

/// The breakpoints of both chains by falling slope, those of A first where slopes are equal, with
/// the signs that are remembered at each and at both outer ends.
#[derive(Drop)]
pub struct BreakpointList {
    /// In the order of the list. No two have the same left point.
    records: Vec<Record>,
    left: Option<End>,
    /// None where both ends are one, as each chain has one point.
    right: Option<End>,
}

impl Model for BreakpointList {
    ghost use Rattle.kin_motion.specs.Numbers.{IsOnce};
    ghost use Rattle.kin_overlay.specs.Remembered.{Remembered, left_points};

    ghost Value = { Remembered };

    ghost view = { λ l. record { records = l.records.items; left = l.left; right = l.right } };

    ghost invariant = { λ l. IsOnce (left_points l.records.items) };
}

impl BreakpointList {
    /// Nothing is remembered.
    pub fn new(alloc: Global) -> BreakpointList
        ensures { result ≡ record { records = []; left = None; right = None } }
    {
        BreakpointList {
            records: Vec::new(alloc),
            left: None,
            right: None,
        }
    }

    /// Nothing is remembered, with room for so many breakpoints.
    pub fn with_room(alloc: Global, count: usize) -> Result<BreakpointList, NoMemory>
        ensures { IfOk result (λ l. l ≡ record { records = []; left = None; right = None }) }
    {
        Ok(BreakpointList {
            records: Vec::with_capacity(alloc, count)?,
            left: None,
            right: None,
        })
    }

    /// Forgets everything. The memory is kept.
    pub fn clear(&mut self)
        ensures { self.new ≡ record { records = []; left = None; right = None } }
    {
        self.records.clear();
        self.left = None;
        self.right = None;
    }

    /// Takes over what another list remembers.
    pub fn copy(&mut self, other: &BreakpointList) -> Result<(), NoMemory>
        ensures { OnOk result (self.new ≡ other.now) }
    {
        self.records.clear();
        self.records.extend_from_slice(&other.records)?;
        self.left = other.left;
        self.right = other.right;
        Ok(())
    }

    /// How many breakpoints there are.
    pub fn len(&self) -> usize
        ensures { result ≡ length self.now.records }
    {
        self.records.len()
    }

    /// The breakpoint at a place of the list.
    pub fn at(&self, place: usize) -> &Record
        requires { place < length self.now.records }
        ensures { slice_get self.now.records place ≡ Some result.now }
    {
        &self.records[place]
    }

    /// All of them, in the order of the list.
    pub fn records(&self) -> &[Record]
        ensures value { result.now ≡ self.now.records }
        ensures once { IsOnce (left_points result.now) }
    {
        &self.records
    }

    /// Puts these breakpoints at the end of the list. Often there are none.
    #[inline(always)]
    pub fn take(&mut self, noted: &[Record]) -> Result<(), NoMemory>
        requires new { IsOnce (left_points (self.old.records ++ noted.now)) }
        ensures taken { OnOk result (self.new ≡ record self.old { records = self.old.records ++ noted.now }) }
    {
        if noted.is_empty() {
            return Ok(());
        }
        self.records.extend_from_slice(noted)?;
        Ok(())
    }

    /// Puts a breakpoint at the end of the list.
    pub fn push(&mut self, noted: Record) -> Result<(), NoMemory>
        requires new { is_in noted.at.left (left_points self.old.records) ≡ false }
        ensures pushed { OnOk result (self.new ≡ record self.old { records = self.old.records ++ noted ∷ [] }) }
    {
        let Ok(()) = self.records.push(noted) else {
            return Err(NoMemory);
        };
        Ok(())
    }

    /// Remembers another sign of the turn at a place.
    pub fn set_turn(&mut self, place: usize, sign: Sign)
        requires { place < length self.old.records }
        ensures { (r : Noted) → slice_get self.old.records place ≡ Some r → self.new ≡ with_turn self.old place r sign }
    {
        self.records[place].turn = sign;
    }

    /// Puts both outer ends in.
    pub fn set_ends(&mut self, left: End, right: Option<End>)
        ensures { self.new ≡ record self.old { left = Some left; right = right } }
    {
        self.left = Some(left);
        self.right = right;
    }

    pub fn left(&self) -> Option<End>
        ensures { result ≡ self.now.left }
    {
        self.left
    }

    pub fn right(&self) -> Option<End>
        ensures { result ≡ self.now.right }
    {
        self.right
    }

    /// True only if one of the outer ends is this one, with the same signs. It only saves work.
    pub fn has_end(&self, end: End) -> bool
        ensures { IsTrue result → (self.now.left ≡ Some end) ⊎ (self.now.right ≡ Some end) }
    {
        is_end(self.left, end) || is_end(self.right, end)
    }

    /// True only if both outer ends are those of another list, with the same signs.
    pub fn has_same_ends(&self, other: &BreakpointList) -> bool
        ensures left { IsTrue result → self.now.left ≡ other.now.left }
        ensures right { IsTrue result → self.now.right ≡ other.now.right }
    {
        are_same(self.left, other.left) && are_same(self.right, other.right)
    }

    /// True only if the left outer end is that of another list, with the same signs.
    pub fn has_same_left(&self, other: &BreakpointList) -> bool
        ensures { IsTrue result → self.now.left ≡ other.now.left }
    {
        are_same(self.left, other.left)
    }

    /// True only if there is a right outer end, and it is that of another list, with the same signs.
    pub fn has_same_right(&self, other: &BreakpointList) -> bool
        ensures { IsTrue result → AreSameEnds self.now.right other.now.right }
    {
        match (self.right, other.right) {
            (Some(one), Some(other)) => one.is(other),
            _ => false,
        }
    }

    /// Whether the fact is remembered, which isn't at one of these records at both ends. The search
    /// begins at this place.
    #[inline(always)]
    pub fn has(&self, fact: Fact, ends: Shared, place: usize) -> bool
        requires within { ends.front + ends.back ≤ length self.now.records }
        requires outside { IsBetween ends self.now.records fact.form }
        ensures { IsTrue result ↔ Contains (facts_of self.now) fact }
    {
        match fact.form {
            Form::Turn { i, .. } => match find(&self.records, i, ends, place) {
                Some(record) => record.turn_fact().is(fact),
                None => false,
            },
            Form::Slope { i, .. } => match find(&self.records, i, ends, place) {
                Some(record) => is_the(record.slope_fact(), fact),
                None => false,
            },
            Form::Line { .. } => is_of_end(self.left, fact) || is_of_end(self.right, fact),
            Form::Dist { .. } => false,
        }
    }
}

/// The breakpoint with this left point, if there is one. It isn't one of these at both ends. The search
/// begins at this place.
#[inline(always)]
fn find(records: &[Record], left: u32, ends: Shared, place: usize) -> Option<&Record>
    requires within { ends.front + ends.back ≤ length records.now }
    requires outside { IsLeftBetween ends records.now left }
    ensures { MatchOption result
        (is_in left (left_points records.now) ≡ false)
        (λ found. Contains records.now found.now × (found.now.at.left ≡ left)) }
{
    if place < records.len() && records[place].at.left == left {
        return Some(&records[place]);
    }
    let until = records.split_at(records.len() - ends.back).0;
    match first_with(until.split_at(ends.front).1, left) {
        Some(record) => Some(record),
        None => None,
    }
}

/// The first breakpoint with this left point, if there is one.
fn first_with(records: &[Record], left: u32) -> Option<&Record>
    ensures { MatchOption result
        (is_in left (left_points records.now) ≡ false)
        (λ found. Contains records.now found.now × (found.now.at.left ≡ left)) }
{
    for record in records {
        if record.at.left == left {
            return Some(record);
        }
    }
    None
}

/// Whether it is this fact.
fn is_the(known: Option<Fact>, fact: Fact) -> bool
    ensures { IsTrue result ↔ (known ≡ Some fact) }
{
    match known {
        Some(known) => known.is(fact),
        None => false,
    }
}

/// Whether it is this end.
fn is_end(known: Option<End>, end: End) -> bool
    ensures { IsTrue result ↔ (known ≡ Some end) }
{
    match known {
        Some(known) => known.is(end),
        None => false,
    }
}

/// Whether there is no end, or both are the same.
fn are_same(one: Option<End>, other: Option<End>) -> bool
    ensures { IsTrue result → one ≡ other }
{
    match (one, other) {
        (Some(one), Some(other)) => one.is(other),
        (None, None) => true,
        _ => false,
    }
}

/// Whether the fact is remembered at an end.
fn is_of_end(end: Option<End>, fact: Fact) -> bool
    ensures { IsTrue result ↔ Contains (end_facts end) fact }
{
    match end {
        Some(end) => end.x_fact().is(fact) || is_the(end.y_fact(), fact),
        None => false,
    }
}
