//! The list of breakpoints is made: a sketch is drawn, put in order and filled in.

ghost use Rattle.std.specs.Prelude.{◌≡◌, ℕ, ◌+◌, ◌*◌, ◌<◌, ◌≤◌, length, OnOk, IfOk};
ghost use Rattle.kin_motion.specs.Numbers.{IsOnce};
ghost use Rattle.kin_motion.specs.Scene.{IsReal};
ghost use Rattle.kin_overlay.specs.Fingers.{IsMerged, AreLive, AreLess};
ghost use Rattle.kin_overlay.specs.Passing.{IsLinkedAt};
ghost use Rattle.kin_overlay.specs.Remembered.{facts_of};
ghost use Rattle.kin_overlay.specs.Repairing.{IsPaidWhereKnown};
ghost use Rattle.kin_overlay.specs.Reports.{AreShared};
ghost use Rattle.kin_overlay.specs.Standings.{StandIn};

use crate::draft::Draft;
use crate::ends::{end_of, right_end};
use crate::list::BreakpointList;
use crate::resort::resort;
use crate::shared::Shared;
use crate::sketch::{Puts, sketch};
use crate::standing::Standing;
use crate::window::Buffers;
use kin_motion::signs::Signs;
use kin_num::memory::NoMemory;
use kin_num::steps::Steps;
use std::alloc::Global;
use std::sync::ledger::Ledger;

/// A sketch, and the buffers of the window that puts it in order.
#[derive(Drop)]
pub struct Drawing {
    sketch: Vec<Draft>,
    buffers: Buffers,
}

impl Drawing {
    pub fn new(alloc: Global) -> Drawing {
        Drawing {
            sketch: Vec::new(alloc),
            buffers: Buffers::new(alloc),
        }
    }
}

impl BreakpointList {
    /// Makes the list of two chains. A sign that is remembered and unfailed isn't asked again; the
    /// clauses bound how many are asked. The result is what the list before shares with it, as far as
    /// that is known: it may be more.
    pub fn merge<O: Signs, L: Ledger>(
        &mut self,
        a: &[u32],
        b: &[u32],
        puts: Puts,
        standing: &Standing,
        drawing: &mut Drawing,
        now: &O,
        steps: &mut Steps<L>,
    ) -> Result<Shared, NoMemory>
        requires real { IsReal (O.scene now.now) }
        requires a_some { 0 < length a.now }
        requires b_some { 0 < length b.now }
        requires a_live { AreLive (O.scene now.now).live a.now }
        requires b_live { AreLive (O.scene now.now).live b.now }
        requires a_once { IsOnce a.now }
        requires b_once { IsOnce b.now }
        requires less { AreLess a.now b.now }
        requires standing { StandIn (O.scene now.now) standing.now }
        requires linked { (k : ℕ) → IsLinkedAt standing.now.list.now.records k }
        ensures merged { OnOk result (IsMerged (O.scene now.now) a.now b.now self.new) }
        ensures few { OnOk result (steps.new ≤ steps.old + 5 * length (facts_of self.new)) }

        // Where no half puts a number that it drops, and no failed fact holds, at most five signs are
        // asked for each fact that is born and at most one for each that is dropped.
        ensures tests { OnOk result (IsPaidWhereKnown (O.scene now.now) standing.now puts.entry a.now b.now self.new steps.old steps.new) }

        // The records that are taken over.
        ensures shared { IfOk result (λ w. AreShared w standing.now.list.now.records self.new.records) }
    {
        let old = standing.list.records();
        let clean = sketch(a, b, puts, standing, &mut drawing.sketch)?;
        let kept = resort(
            old,
            clean,
            &drawing.sketch,
            &mut drawing.buffers,
            now,
            steps,
        )?;
        self.clear();
        self.fill(old, kept, drawing.buffers.done(), a, b, now, steps)?;
        let left = end_of(a[0], b[0], standing, now, steps);
        let right = right_end(a, b, standing, now, steps);
        self.set_ends(left, right);
        Ok(Shared {
            front: kept.front.saturating_sub(1),
            back: kept.back,
        })
    }
}
