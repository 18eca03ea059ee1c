//! A structure that a world keeps, with the motions that it follows.

ghost use Rattle.std.specs.Prelude.{◌≡◌, ◌≤◌, ◌<◌, ◌^◌, ℕ, List, [], IfOk};
ghost use Rattle.kin_motion.specs.declared.keep.Keep.{Keep as Kind};
ghost use Rattle.kin_motion.specs.Course.{live_of};
ghost use Rattle.kin_motion.specs.Live.{IsSmallKeep};
ghost use Rattle.kin_motion.specs.Numbers.{HasEntered};
ghost use Rattle.kin_motion.specs.Scene.{Scene, scene_at};

use crate::answer::Answer;
use crate::ask::is_live;
use crate::driver::Driver;
use crate::failing::{after, failing_at};
use crate::fault::Fault;
use crate::spares::{SparesNone, SparesOne};
use crate::watch::{Tally, Watch};
use kin_fail::Now;
use kin_motion::keep::Keep;
use kin_motion::kept::{Kept, enter, leave};
use kin_motion::{Delta, Motion, Motions, Placed};
use kin_nearest::KinNearest;
use kin_num::{Moment, Steps};
use std::alloc::Global;
use std::marker::Model;
use std::sync::ledger::Ledger;

impl<K: Kept> Driver<K> {
    /// The structure of a keep, without members.
    fn vacant(alloc: Global, keep: &Keep, size: u32) -> Result<Driver<K>, Fault>
        requires low { 1 ≤ size }
        requires high { size ≤ 12 }
        requires small { IsSmallKeep keep.now }
        requires serves { K.serves keep.now }
        ensures kind { IfOk result (λ k. K.is_for k size keep.now) }
        ensures rest { IfOk result (λ k. K.at_rest k) }
        ensures members { IfOk result (λ k. K.has_members k []) }
        ensures settled { IfOk result (λ k. (s : Scene) → s.live ≡ [] → K.settled k s) }
    {
        let structure = K::vacant(alloc, keep, size)?;
        Ok(Driver::new(alloc, structure))
    }

    /// Takes in a number that has become live. There is none of its facts that fails.
    fn take_in<L: Ledger>(
        self,
        no: u32,
        now: &Watch<'_>,
        steps: &mut Steps<L>,
    ) -> Result<Driver<K>, Fault>
        requires rest { K.at_rest self }
        requires room { (size : ℕ) × (keep : Kind) × K.is_for self size keep × (no < 2 ^ size) }
        requires entered { (before : List ℕ) × K.has_members self before × HasEntered no before (live_of now.now.motions.now) }
        ensures kind { IfOk result (λ k. (size : ℕ) (keep : Kind) → K.is_for self size keep → K.is_for k size keep) }
        ensures rest { IfOk result (λ k. K.at_rest k) }
        ensures members { IfOk result (λ k. K.has_members k (live_of now.now.motions.now)) }
        ensures settled { IfOk result (λ k. K.settled k (scene_at now.now.motions.now now.now.moment.now)) }
    {
        let Driver {
            alloc,
            mut structure,
            facts,
            report: _,
        } = self;
        let failed = failing_at(alloc, &facts, now, &SparesNone)?;
        if !failed.is_empty() {
            return Err(Fault::NotReady);
        }
        let mut out = Delta::new(alloc);
        enter(&mut structure, no, now, &mut out, steps)?;
        let facts = after(alloc, &facts, &out)?;
        Ok(Driver {
            alloc,
            structure,
            facts,
            report: out,
        })
    }

    /// Lets go of a number that isn't live any more. There is none of its facts that fails and doesn't name it.
    fn let_go<L: Ledger>(
        self,
        no: u32,
        now: &Watch<'_>,
        steps: &mut Steps<L>,
    ) -> Result<Driver<K>, Fault>
        requires rest { K.at_rest self }
        requires room { (size : ℕ) × (keep : Kind) × K.is_for self size keep × (no < 2 ^ size) }
        requires left { (before : Scene) × K.has_members self before.live × K.settled self before × HasEntered no (live_of now.now.motions.now) before.live }
        ensures kind { IfOk result (λ k. (size : ℕ) (keep : Kind) → K.is_for self size keep → K.is_for k size keep) }
        ensures rest { IfOk result (λ k. K.at_rest k) }
        ensures members { IfOk result (λ k. K.has_members k (live_of now.now.motions.now)) }
        ensures settled { IfOk result (λ k. K.settled k (scene_at now.now.motions.now now.now.moment.now)) }
    {
        let Driver {
            alloc,
            mut structure,
            facts,
            report: _,
        } = self;
        let failed = failing_at(alloc, &facts, now, &SparesOne { no: Some(no) })?;
        if !failed.is_empty() {
            return Err(Fault::NotReady);
        }
        let mut out = Delta::new(alloc);
        leave(&mut structure, no, now, &mut out, steps)?;
        let facts = after(alloc, &facts, &out)?;
        Ok(Driver {
            alloc,
            structure,
            facts,
            report: out,
        })
    }
}

/// A structure over all live points, settled at a moment.
#[derive(Drop)]
pub struct Keeping<K: Kept> {
    pub(crate) size: u32,
    pub(crate) motions: Motions,
    pub(crate) moment: Moment,
    pub(crate) kept: Driver<K>,
}

impl<K: Kept> Model for Keeping<K> {
    ghost use Rattle.kin_cases.specs.Keepings.{IsKept};

    ghost Value = { K };

    ghost view = { λ k. k.kept };

    ghost invariant = { λ k. IsKept K.is_for K.at_rest K.has_members K.settled k.size k.motions k.moment k.kept };
}

impl<K: Kept> Keeping<K> {
    /// No points at a moment, and room for the numbers below `2^size`.
    pub fn new(alloc: Global, keep: &Keep, size: u32, moment: &Moment) -> Result<Keeping<K>, Fault>
        requires low { 1 ≤ size }
        requires high { size ≤ 12 }
        requires small { IsSmallKeep keep.now }
        requires serves { K.serves keep.now }
    {
        let motions = Motions::new(alloc, size)?;
        let kept = Driver::vacant(alloc, keep, size)?;
        Ok(Keeping {
            size,
            motions,
            moment: *moment,
            kept,
        })
    }

    /// A new point enters at the moment of the last call.
    pub fn enter<L: Ledger>(
        self,
        no: u32,
        motion: Motion,
        tally: &Tally,
        steps: &mut Steps<L>,
    ) -> Result<Keeping<K>, Fault> {
        let Keeping {
            size,
            mut motions,
            moment,
            kept,
        } = self;
        if no >= 1 << size || motions.get(no).is_some() {
            return Err(Fault::NotNew);
        }
        motions.set(no, motion);
        let now = Watch {
            motions: &motions,
            moment: &moment,
            tally,
        };
        let kept = kept.take_in(no, &now, steps)?;
        Ok(Keeping {
            size,
            motions,
            moment,
            kept,
        })
    }

    /// A point leaves at the moment of the last call.
    pub fn leave<L: Ledger>(
        self,
        no: u32,
        tally: &Tally,
        steps: &mut Steps<L>,
    ) -> Result<Keeping<K>, Fault> {
        let Keeping {
            size,
            mut motions,
            moment,
            kept,
        } = self;
        if no >= 1 << size || !is_live(&motions, no) {
            return Err(Fault::NotLive);
        }
        motions.clear(no);
        let now = Watch {
            motions: &motions,
            moment: &moment,
            tally,
        };
        let kept = kept.let_go(no, &now, steps)?;
        Ok(Keeping {
            size,
            motions,
            moment,
            kept,
        })
    }

    /// Goes on to a moment.
    pub fn go<L: Ledger>(
        self,
        moment: &Moment,
        tally: &Tally,
        steps: &mut Steps<L>,
    ) -> Result<Keeping<K>, Fault> {
        let Keeping {
            size,
            motions,
            moment: _,
            kept,
        } = self;
        let now = Watch {
            motions: &motions,
            moment,
            tally,
        };
        let kept = kept.settle(&now, &SparesNone, steps)?;
        Ok(Keeping {
            size,
            motions,
            moment: *moment,
            kept,
        })
    }

    /// The live facts, in any order.
    pub fn facts(&self) -> &[Placed] {
        self.kept.facts()
    }

    /// The motions at the moment of the last call.
    pub fn now(&self) -> Now<'_> {
        Now {
            motions: &self.motions,
            moment: &self.moment,
        }
    }
}

impl<K: Answer> Keeping<K> {
    /// The numbers of the structure's answer.
    pub fn answer(&self) -> Result<Vec<u32>, Fault> {
        self.kept
            .structure
            .answer(self.kept.alloc, &self.motions, &self.moment)
    }
}

impl Keeping<KinNearest> {
    /// The nearest other point of a live point, if there is another.
    pub fn nearest<L: Ledger>(
        &self,
        no: u32,
        tally: &Tally,
        steps: &mut Steps<L>,
    ) -> Result<Option<u32>, Fault> {
        if !is_live(&self.motions, no) {
            return Err(Fault::NotLive);
        }
        self.moment.at.recall_canonical();
        let now = Watch {
            motions: &self.motions,
            moment: &self.moment,
            tally,
        };
        Ok(self.kept.structure.nearest(&now, no, steps))
    }
}
