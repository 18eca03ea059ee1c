//! The tournament of the cells.

ghost use Rattle.std.specs.Prelude.{◌≡◌, ◌≤◌, [], false, map, replicate, reverse, IfOk, OnOk, None, ◌^◌};
ghost use Rattle.kin_motion.specs.Merges.{Half.{A, B}, own_of, breakpoints_of};
ghost use Rattle.kin_motion.specs.Sweeps.{breakpoints_back, cell_pairs};
ghost use Rattle.kin_motion.specs.Tournaments.{item_in};
ghost use Rattle.kin_motion.specs.Scene.{Scene};
ghost use Rattle.kin_motion.specs.Farthest.{farness_key};
ghost use Rattle.kin_tourney.specs.Tournament.{IsAtRest, IsSettled};
ghost use Rattle.kin_pairs.specs.PairKeys.{pair_names};
ghost use Rattle.kin_diameter.specs.Seats.{AreSeated, AreTold, HaveSlots};
ghost use Rattle.kin_diameter.specs.Seen.{seen};

use crate::between::between;
use crate::breakpoint::Breakpoint;
use crate::cells::list_cells;
use crate::places::{free_all, lay_out};
use crate::told::tell_each;
use kin_num::memory::NoMemory;
use kin_pairs::{Farness, Pair};
use kin_tourney::Tourney;
use std::alloc::Global;
use std::mem::swap;

/// The tournament of the cells of a sweep, each in its slot.
#[derive(Drop)]
pub(crate) struct Seats {
    pub tourney: Tourney<Farness>,
    /// The cells of the last sweep.
    pub cells: Vec<Pair>,
    /// Those of the sweep before. Its memory is used by the next one.
    before: Vec<Pair>,
    /// A place for each slot, free between two calls.
    pub places: Vec<Option<Pair>>,
}

impl Seats {
    /// `2^size` slots without cells.
    pub fn new(alloc: Global, size: u32) -> Result<Seats, NoMemory>
        requires low { 1 ≤ size }
        requires high { size ≤ 13 }
        ensures size { IfOk result (λ k. k.tourney.size ≡ size) }
        ensures slots { IfOk result (λ k. k.tourney.slots ≡ replicate (2 ^ size) None) }
        ensures facts { IfOk result (λ k. k.tourney.facts ≡ []) }
        ensures rest { IfOk result (λ k. IsAtRest k.tourney) }
        ensures settled { IfOk result (λ k. (s : Scene) → IsSettled pair_names farness_key k.tourney s) }
        ensures seated { IfOk result (λ k. AreSeated k.tourney k.cells.items k.places.items) }
    {
        Ok(Seats {
            tourney: Tourney::new(alloc, Farness, size)?,
            cells: Vec::new(alloc),
            before: Vec::new(alloc),
            places: Vec::from_elem(alloc, None, 1usize << size)?,
        })
    }

    /// Gives each slot the pair of its cell in this sweep, and marks those that have another one than before. The slots of
    /// cells that both sweeps have at their front or at their end aren't looked at.
    pub fn fill(
        &mut self,
        upper: &[u32],
        lower: &[u32],
        breakpoints: &[Breakpoint],
    ) -> Result<(), NoMemory>
        requires seated { AreSeated self.old.tourney self.old.cells.items self.old.places.items }
        requires small { self.old.tourney.size ≤ 13 }
        requires upper { HaveSlots self.old.tourney.size upper.now }
        requires lower { HaveSlots self.old.tourney.size lower.now }
        requires of_upper { own_of A (map seen breakpoints.now) ≡ breakpoints_of A upper.now }
        requires of_lower { own_of B (map seen breakpoints.now) ≡ breakpoints_back (reverse lower.now) }
        ensures told { OnOk result (AreTold (item_in self.new.tourney.slots) self.old.tourney self.new.tourney) }
        ensures cells { OnOk result (self.new.cells.items ≡ cell_pairs upper.now (reverse lower.now) (map seen breakpoints.now)) }
        ensures seated { OnOk result (AreSeated self.new.tourney self.new.cells.items self.new.places.items) }
    {
        swap(&mut self.cells, &mut self.before);
        list_cells(upper, lower, breakpoints, &mut self.cells)?;
        lay_out(&mut self.places, &self.cells);
        let (gone, new) = between(&self.before, &self.cells);
        tell_each(&mut self.tourney, gone, &self.places);
        tell_each(&mut self.tourney, new, &self.places);
        free_all(&mut self.places, &self.cells);
        Ok(())
    }
}
