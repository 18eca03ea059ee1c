//! A repair where one turn has failed, and nothing else has changed.

ghost use Rattle.std.specs.Prelude.{◌≡◌, ℕ, ◌+◌, ◌-◌, ◌<◌, length, slice_get, Some, IfSome, OnOk, IfOk};
ghost use Rattle.kin_motion.specs.Forms.{IsAskable};
ghost use Rattle.kin_motion.specs.Numbers.{IsOnce};
ghost use Rattle.kin_motion.specs.Scene.{IsReal};
ghost use Rattle.kin_overlay.specs.declared.record.Record.{Record as Noted};
ghost use Rattle.kin_overlay.specs.Fingers.{IsMerged, AreLive, AreLess};
ghost use Rattle.kin_overlay.specs.Passing.{IsLinkedAt};
ghost use Rattle.kin_overlay.specs.Remembered.{turn_fact};
ghost use Rattle.kin_overlay.specs.Repairing.{Past, IsPast, IsPaidWhereKnown};
ghost use Rattle.kin_overlay.specs.Reports.{AreShared};
ghost use Rattle.kin_overlay.specs.Standings.{StandIn};
ghost use Rattle.kin_overlay.specs.Turned.{IsLoneTurn, IsTurned};

use crate::list::BreakpointList;
use crate::merge::Drawing;
use crate::shared::Shared;
use crate::sketch::Puts;
use crate::standing::Standing;
use kin_motion::fact::Fact;
use kin_motion::signs::Signs;
use kin_num::memory::NoMemory;
use kin_num::steps::Steps;
use std::sync::ledger::Ledger;

impl Standing<'_> {
    /// The place of the breakpoint whose turn has failed, where nothing else has changed.
    #[inline(always)]
    fn lone_turn(&self, puts: Puts) -> Option<usize>
        ensures { IfSome result (IsLoneTurn self.now puts.entry) }
    {
        if !puts.a.is_empty() || !puts.b.is_empty() || !self.gone.is_empty() {
            return None;
        }
        let (failed, others) = self.failed.split_first()?;
        if !others.is_empty() {
            return None;
        }
        self.list.place_of_turn(failed.fact)
    }
}

impl BreakpointList {
    /// The place of the breakpoint with this turn, if there is one.
    fn place_of_turn(&self, turn: Fact) -> Option<usize>
        ensures { IfSome result (λ k. (r : Noted) × (slice_get self.now.records k ≡ Some r) × (turn_fact r ≡ turn)) }
    {
        for place in 0..self.len() {
            if self.at(place).turn_fact().is(turn) {
                return Some(place);
            }
        }
        None
    }

    /// Takes over a list of which one turn is asked again. The result is what both share.
    fn take_turned<O: Signs, L: Ledger>(
        &mut self,
        old: &BreakpointList,
        place: usize,
        now: &O,
        steps: &mut Steps<L>,
    ) -> Result<Shared, NoMemory>
        requires within { place < length old.now.records }
        requires askable { (r : Noted) → slice_get old.now.records place ≡ Some r → IsAskable (O.scene now.now).live (turn_fact r).form }
        ensures turned { OnOk result (IsTurned (O.scene now.now) old.now place self.new) }
        ensures count { steps.new ≡ steps.old + 1 }
        ensures shared { IfOk result (λ w. w ≡ record { front = place; back = length old.now.records - (place + 1) }) }
    {
        let sign = now.sign(&old.at(place).turn_fact().form, steps);
        self.copy(old)?;
        self.set_turn(place, sign);
        Ok(Shared {
            front: place,
            back: old.len() - (place + 1),
        })
    }

    /// Makes the list of two chains, as `merge` does. Where one turn alone has failed, only its sign is
    /// asked, and all else is taken over.
    pub fn repair<O: Signs, L: Ledger>(
        &mut self,
        a: &[u32],
        b: &[u32],
        puts: Puts,
        standing: &Standing,
        drawing: &mut Drawing,
        now: &O,
        steps: &mut Steps<L>,
    ) -> Result<Shared, NoMemory>
        requires real { IsReal (O.scene now.now) }
        requires a_some { 0 < length a.now }
        requires b_some { 0 < length b.now }
        requires a_live { AreLive (O.scene now.now).live a.now }
        requires b_live { AreLive (O.scene now.now).live b.now }
        requires a_once { IsOnce a.now }
        requires b_once { IsOnce b.now }
        requires less { AreLess a.now b.now }
        requires standing { StandIn (O.scene now.now) standing.now }
        requires linked { (k : ℕ) → IsLinkedAt standing.now.list.now.records k }
        requires past { (p : Past) × IsPast p standing.now.list.now puts.a.now puts.b.now standing.now.gone.now a.now b.now }
        ensures merged { OnOk result (IsMerged (O.scene now.now) a.now b.now self.new) }
        ensures tests { OnOk result (IsPaidWhereKnown (O.scene now.now) standing.now puts.entry a.now b.now self.new steps.old steps.new) }

        // The records that are taken over.
        ensures shared { IfOk result (λ w. AreShared w standing.now.list.now.records self.new.records) }
    {
        match standing.lone_turn(puts) {
            Some(place) => self.take_turned(standing.list, place, now, steps),
            None => self.merge(a, b, puts, standing, drawing, now, steps),
        }
    }
}
