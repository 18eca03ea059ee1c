//! A tournament of points along x, with the motions that it follows.

ghost use Rattle.std.specs.Prelude.{◌≡◌, ◌≢◌, ◌+◌, ◌^◌, ◌<◌, ◌≤◌, ℕ, false, true, Some, None, length, replicate, slice_get, slice_set, IfOk, IsTrue};
ghost use Rattle.kin_motion.specs.Tournaments.{item_in};

use crate::ask::is_live;
use crate::driver::Driver;
use crate::fault::Fault;
use crate::spares::SparesAbove;
use crate::watch::{Tally, Watch};
use kin_fail::Now;
use kin_motion::{Motions, Placed};
use kin_num::{Moment, Steps};
use kin_tourney::{Along, Tourney};
use std::alloc::Global;
use std::marker::Model;
use std::sync::ledger::Ledger;

impl Driver<Tourney<Along>> {
    fn set(&mut self, slot: u32, item: u32)
        requires { slot < 2 ^ self.old.size }
        ensures { self.new ≡ record self.old { slots = slice_set self.old.slots slot (Some item); marked = slice_set self.old.marked slot true; winners = self.new.winners } }
    {
        self.structure.set(slot, item);
    }

    fn clear(&mut self, slot: u32)
        requires { slot < 2 ^ self.old.size }
        ensures { self.new ≡ record self.old { slots = slice_set self.old.slots slot None; marked = slice_set self.old.marked slot true; winners = self.new.winners } }
    {
        self.structure.clear(slot);
    }
}

/// Whether another slot holds the item.
fn holds_elsewhere(slots: &[Option<u32>], slot: u32, item: u32) -> bool
    ensures { result ≡ false → (i : ℕ) → i ≢ slot → item_in slots.now i ≢ Some item }
{
    for other in 0..slots.len() {
        if other != slot as usize && slots[other] == Some(item) {
            return true;
        }
    }
    false
}

fn no_items(alloc: Global, size: u32) -> Result<Vec<Option<u32>>, Fault>
    requires { size ≤ 15 }
    ensures { IfOk result (λ v. v.items ≡ replicate (2 ^ size) None) }
{
    Ok(Vec::from_elem(alloc, None, 1 << size)?)
}

fn no_marks(alloc: Global, size: u32) -> Result<Vec<bool>, Fault>
    requires { size ≤ 15 }
    ensures { IfOk result (λ v. v.items ≡ replicate (2 ^ size) false) }
{
    Ok(Vec::from_elem(alloc, false, 1 << size)?)
}

/// A tournament along x of points that have motions.
#[derive(Drop)]
pub struct Contest {
    alloc: Global,
    size: u32,
    motions: Motions,
    tourney: Driver<Tourney<Along>>,
    /// What each slot holds.
    slots: Vec<Option<u32>>,
    /// Whether each slot is marked.
    marks: Vec<bool>,
    is_settled: bool,
}

impl Model for Contest {
    ghost use Rattle.std.specs.Prelude.{ℕ};
    ghost use Rattle.kin_tourney.specs.declared.along.Along.{Along as AlongValue};
    ghost use Rattle.kin_tourney.specs.Tournament.{Tournament};
    ghost use Rattle.kin_cases.specs.Contests.{IsHeld};

    ghost Value = { Tournament AlongValue ℕ };

    ghost view = { λ c. c.tourney };

    ghost invariant = { λ c. IsHeld c.size c.motions c.slots.items c.marks.items c.is_settled c.tourney };
}

impl Contest {
    /// A tournament of `2^size` empty slots.
    pub fn new(alloc: Global, motions: Motions, size: u32) -> Result<Contest, Fault>
        requires low { 1 ≤ size }
        requires high { size ≤ 15 }
    {
        let tourney = Driver::new(alloc, Tourney::new(alloc, Along { dx: 1, dy: 0 }, size)?);
        let slots = no_items(alloc, size)?;
        let marks = no_marks(alloc, size)?;
        Ok(Contest {
            alloc,
            size,
            motions,
            tourney,
            slots,
            marks,
            is_settled: true,
        })
    }

    /// Puts a point into a slot. No other slot may hold it.
    pub fn set(mut self, slot: u32, item: u32) -> Result<Contest, Fault> {
        if !is_live(&self.motions, item) {
            return Err(Fault::NotAskable);
        }
        if slot >= 1 << self.size || holds_elsewhere(&self.slots, slot, item) {
            return Err(Fault::NotNew);
        }
        self.tourney.set(slot, item);
        self.slots[slot as usize] = Some(item);
        self.marks[slot as usize] = true;
        self.is_settled = false;
        Ok(self)
    }

    /// Empties a slot.
    pub fn clear(mut self, slot: u32) -> Result<Contest, Fault> {
        if slot >= 1 << self.size {
            return Err(Fault::NotNew);
        }
        self.tourney.clear(slot);
        self.slots[slot as usize] = None;
        self.marks[slot as usize] = true;
        self.is_settled = false;
        Ok(self)
    }

    /// Goes on to a moment.
    pub fn go<L: Ledger>(
        self,
        moment: &Moment,
        tally: &Tally,
        steps: &mut Steps<L>,
    ) -> Result<Contest, Fault> {
        let Contest {
            alloc,
            size,
            motions,
            tourney,
            slots,
            marks,
            is_settled: _,
        } = self;
        let spares = SparesAbove {
            size,
            marks: &marks,
        };
        let now = Watch {
            motions: &motions,
            moment,
            tally,
        };
        let tourney = tourney.settle(&now, &spares, steps)?;
        let marks = no_marks(alloc, size)?;
        Ok(Contest {
            alloc,
            size,
            motions,
            tourney,
            slots,
            marks,
            is_settled: true,
        })
    }

    /// The live facts, in any order.
    pub fn facts(&self) -> &[Placed] {
        self.tourney.facts()
    }

    /// The motions at a moment.
    pub fn at<'a>(&'a self, moment: &'a Moment) -> Now<'a> {
        Now {
            motions: &self.motions,
            moment,
        }
    }

    /// The winner of a node, or `None` where it has none, or where a mark waits.
    pub fn winner(&self, node: u32) -> Option<u32> {
        if !self.is_settled || node == 0 || node >= 2 << self.size {
            return None;
        }
        self.tourney.structure.winner(node)
    }
}
