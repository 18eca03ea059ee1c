//! How a world goes on in time.

ghost use Rattle.std.specs.Prelude.{◌≡◌, ◌<◌, ◌↔◌, false, Option, IsTrue, IfOk, OnErr, IfSome, IsSome, IsNone};
ghost use Rattle.kin_num.specs.Grains.{moments_left};
ghost use Rattle.kin_num.specs.Order.{IsEarlier};
ghost use Rattle.kin_motion.specs.Journal.{Block as Listed};
ghost use Rattle.kin_legs.specs.Nexts.{IsAtRest};
ghost use Rattle.kin_world.specs.Costs.{IsStepCost};
ghost use Rattle.kin_world.specs.Worlds.{HasLeapt, HasStepped, IsBusyWithin, IsNextMoment, IsWhole, failure_count, world_view};

use crate::crossing::{begin_due, beginning, cross, next_stop};
use crate::planning::first_of;
use crate::world::World;
use kin_fail::Block;
use kin_num::{Moment, NoMemory, Steps};
use std::sync::ledger::Ledger;

impl World {
    /// Moves to the first moment, not after the limit, at which live facts fail, and repairs all structures there. `None`
    /// exactly where no live fact fails at or before the limit: then the moment is the limit. The legs that begin up to
    /// the new moment are begun. Where no live fact fails and no leg begins up to the limit, the call doesn't answer want
    /// of memory (`cause`). A loop over steps ends, since fewer moments are left after each block. No clause says that
    /// structures without a failed fact are skipped. After want of memory the world isn't whole.
    pub fn step<L: Ledger>(
        &mut self,
        limit: &Moment,
        steps: &mut Steps<L>,
    ) -> Result<Option<Block>, NoMemory>
        requires whole { IsTrue self.old.whole }
        requires later { ¬ (IsEarlier limit.now self.old.moment) }
        ensures stepped { IfOk result (λ block. HasStepped limit.now block self.old self.new) }
        ensures fewer { IfOk result (λ block. IsSome block → moments_left self.new.moment < moments_left self.old.moment) }
        ensures broken { OnErr result (self.new.whole ≡ false) }
        ensures cost { IfOk result (λ block. IsStepCost self.old self.new (failure_count block) steps.old steps.new) }
        ensures keeps { OnErr result (self.new.keeps ≡ self.old.keeps) }
        ensures cause { OnErr result (IsBusyWithin limit.now self.old) }
    {
        limit.at.recall_canonical();
        self.whole = false;
        let Some(due) = cross(&mut self.upkeep, &mut self.legs, limit, steps)? else {
            self.whole = true;
            return Ok(None);
        };
        let block = self.upkeep.step(self.alloc, &due, steps)?;
        begin_due(&mut self.upkeep, &mut self.legs, steps)?;
        self.whole = true;
        Ok(Some(block))
    }

    /// Moves as `step` does (`stepped`), but lists no failures: answers how many there were, or `None`
    /// exactly where `step` would.
    pub fn pass<L: Ledger>(
        &mut self,
        limit: &Moment,
        steps: &mut Steps<L>,
    ) -> Result<Option<usize>, NoMemory>
        requires whole { IsTrue self.old.whole }
        requires later { ¬ (IsEarlier limit.now self.old.moment) }
        ensures stepped { IfOk result (λ count. (block : Option Listed) × HasStepped limit.now block self.old self.new × (count ≡ failure_count block)) }
        ensures fewer { IfOk result (λ count. IsSome count → moments_left self.new.moment < moments_left self.old.moment) }
        ensures broken { OnErr result (self.new.whole ≡ false) }
        ensures cost { IfOk result (λ count. IsStepCost self.old self.new count steps.old steps.new) }
        ensures keeps { OnErr result (self.new.keeps ≡ self.old.keeps) }
        ensures cause { OnErr result (IsBusyWithin limit.now self.old) }
    {
        limit.at.recall_canonical();
        self.whole = false;
        let Some(due) = cross(&mut self.upkeep, &mut self.legs, limit, steps)? else {
            self.whole = true;
            return Ok(None);
        };
        let count = self.upkeep.pass(&due, steps)?;
        begin_due(&mut self.upkeep, &mut self.legs, steps)?;
        self.whole = true;
        Ok(Some(count))
    }

    /// Moves to a moment up to the limit by which a live fact has failed, or to the limit where none
    /// fails up to it; answers whether a live fact has failed. The legs that begin up to the new moment are begun. It may
    /// go from before an instant to just after it, but never over the beginning of a leg. No clause says where it lands,
    /// but `fewer` says that it is later; none bounds its steps. After want of memory the world isn't whole.
    pub fn leap<L: Ledger>(
        &mut self,
        limit: &Moment,
        steps: &mut Steps<L>,
    ) -> Result<bool, NoMemory>
        requires whole { IsTrue self.old.whole }
        requires later { ¬ (IsEarlier limit.now self.old.moment) }
        ensures leapt { IfOk result (λ some. HasLeapt limit.now some self.old self.new) }
        ensures fewer { IfOk result (λ some. IsTrue some → moments_left self.new.moment < moments_left self.old.moment) }
        ensures broken { OnErr result (self.new.whole ≡ false) }
        ensures keeps { OnErr result (self.new.keeps ≡ self.old.keeps) }
        ensures cause { OnErr result (IsBusyWithin limit.now self.old) }
    {
        limit.at.recall_canonical();
        self.whole = false;
        let Some(due) = cross(&mut self.upkeep, &mut self.legs, limit, steps)? else {
            self.whole = true;
            return Ok(false);
        };
        let stop = next_stop(&self.legs, limit, steps);
        self.upkeep.leap(self.alloc, &due, &stop, steps)?;
        begin_due(&mut self.upkeep, &mut self.legs, steps)?;
        self.whole = true;
        Ok(true)
    }

    /// The moment now.
    pub fn now(&self) -> &Moment
        requires { IsTrue self.now.whole }
        ensures value { result.now ≡ self.now.moment }
        ensures whole { IsWhole self.now }
    {
        &self.upkeep.moment
    }

    /// The moment of the next block or at which the first leg begins, whichever is earlier, or `None` exactly where no
    /// leg is still to come and no live fact ever fails.
    pub fn next(&self) -> Option<Moment>
        requires { IsTrue self.now.whole }
        ensures some { IfSome result (IsNextMoment (world_view self.now)) }
        ensures none { IsNone result ↔ IsAtRest (world_view self.now) }
    {
        let failing = self.upkeep.table.failing();
        let Some(leg) = self.legs.first() else {
            return failing;
        };
        Some(first_of(beginning(&leg), failing))
    }
}
