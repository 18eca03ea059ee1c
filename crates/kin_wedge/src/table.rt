//! The candidates, and the apexes that each number is the candidate of.

ghost use Rattle.std.specs.Prelude.{◌≡◌, ℕ, ◌+◌, ◌*◌, ◌^◌, ◌<◌, ◌≤◌, Option, Some, None, true, length, replicate, slice_get, slice_set, IfOk, MatchOption};
ghost use Rattle.kin_motion.specs.Sets.{ListsExactly};

use crate::hits::Hits;
use crate::threads::Threads;
use kin_num::memory::NoMemory;
use std::alloc::Global;
use std::marker::Model;

/// The candidate of each slot, and for each number and octant the apexes whose candidate it is.
#[derive(Drop)]
pub struct Table {
    /// A slot points at the slot of its octant that its candidate has.
    threads: Threads,
}

impl Model for Table {
    ghost use Rattle.std.specs.Prelude.{List, Option, ℕ};
    ghost use Rattle.kin_wedge.specs.Tables.{AreSlots, candidates_of};

    ghost Value = { List (Option ℕ) };

    ghost view = { λ t. candidates_of t.threads };

    ghost invariant = { λ t. AreSlots t.threads };
}

impl Table {
    /// The candidate of a slot.
    #[inline(always)]
    pub fn candidate(&self, slot: u32) -> Option<u32>
        requires { slot < length self.now }
        ensures value { slice_get self.now slot ≡ Some result }
        ensures within { MatchOption result (Unit {0}) (λ c. 8 * c < length self.now) }
    {
        match self.threads.target(slot) {
            Some(target) => Some(target / 8),
            None => None,
        }
    }

    /// Whether a number is the candidate of a slot. A true answer promises nothing: a false one only
    /// saves work.
    #[inline(always)]
    pub fn holds(&self, slot: u32, no: u32) -> bool
        requires { slot < length self.now }
        ensures { slice_get self.now slot ≡ Some (Some no) → result ≡ true }
    {
        // The word of no slot needs no test: it is that of a number which is too great.
        u32::from(self.threads.word(slot) / 8) == no
    }

    /// Takes the candidate of a slot away.
    #[inline(always)]
    fn clear(&mut self, slot: u32)
        requires { slot < length self.old }
        ensures { self.new ≡ slice_set self.old slot None }
    {
        self.threads.release(slot);
    }

    /// Gives a slot that has none a candidate.
    #[inline(always)]
    fn fill(&mut self, slot: u32, candidate: u32)
        requires slot { slice_get self.old slot ≡ Some None }
        requires candidate { 8 * candidate < length self.old }
        ensures { self.new ≡ slice_set self.old slot (Some candidate) }
    {
        self.threads.point(slot, 8 * candidate + slot % 8);
    }

    /// Gives a slot a candidate, or none.
    pub fn put(&mut self, slot: u32, candidate: Option<u32>)
        requires slot { slot < length self.old }
        requires candidate { (c : ℕ) → candidate ≡ Some c → 8 * c < length self.old }
        ensures { self.new ≡ slice_set self.old slot candidate }
    {
        self.clear(slot);
        if let Some(candidate) = candidate {
            self.fill(slot, candidate);
        }
    }

    /// The apexes whose candidate in an octant a number is, each once.
    #[inline(always)]
    pub fn hits(&self, no: u32, octant: u32) -> Hits<'_>
        requires { octant < 8 }
        ensures { ListsExactly result (λ apex. slice_get self.now (8 * apex + octant) ≡ Some (Some no)) }
    {
        Hits::new(self.threads.pointing(8 * no as usize + octant as usize))
    }
}

/// How many numbers have this size.
fn numbers_of(size: u32) -> usize
    requires { size ≤ 12 }
    ensures value { result ≡ 2 ^ size }
    ensures small { result ≤ 2 ^ 12 }
{
    1 << size
}

/// No candidates, with eight slots for each number below `2^size`.
pub fn new_table(alloc: Global, size: u32) -> Result<Table, NoMemory>
    requires { size ≤ 12 }
    ensures { IfOk result (λ t. t ≡ replicate (8 * 2 ^ size) None) }
{
    let threads = Threads::new(alloc, 8 * numbers_of(size))?;
    Ok(Table { threads })
}
