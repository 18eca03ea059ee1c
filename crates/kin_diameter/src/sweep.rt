//! The sweep of an upper and a lower chain.

ghost use Rattle.std.specs.Prelude.{◌≡◌, ◌+◌, ◌≤◌, [], map, reverse, length, OnOk};
ghost use Rattle.kin_motion.specs.Agreements.{FitsSize};
ghost use Rattle.kin_motion.specs.Kinetics.{HasChanged};
ghost use Rattle.kin_motion.specs.Merges.{slopes_from};
ghost use Rattle.kin_motion.specs.Scene.{IsReal, placed_at};
ghost use Rattle.kin_motion.specs.Sweeps.{AreChains, IsSweep};
ghost use Rattle.kin_diameter.specs.Seen.{seen};

use crate::breakpoint::Breakpoint;
use crate::changes::tell_changes;
use crate::merge::Merged;
use kin_motion::fact::Delta;
use kin_motion::signs::Signs;
use kin_num::memory::NoMemory;
use kin_num::steps::Steps;
use std::alloc::Global;
use std::marker::Model;
use std::mem::swap;
use std::sync::ledger::Ledger;

/// The breakpoints of both chains in one list, and the slopes of neighbours of different chains with their signs.
///
/// The upper chain is swept from left to right and the lower one from right to left, by falling slope.
#[derive(Drop)]
pub(crate) struct Sweep {
    list: Merged,
    /// What was there before the last `renew` that answered `Ok`. Its memory is used by the next one.
    before: Merged,
}

impl Model for Sweep {
    ghost use Rattle.kin_motion.specs.Sets.{AreDistinct};
    ghost use Rattle.kin_diameter.specs.Sweeping.{Sweeping, sweeping};

    ghost Value = { Sweeping };

    ghost view = { λ s. sweeping s.list.breakpoints.items s.list.slopes.items };

    ghost invariant = { λ s. AreDistinct s.list.slopes.items };
}

impl Sweep {
    /// No breakpoints and no facts.
    pub(crate) fn new(alloc: Global) -> Sweep
        ensures { result ≡ record { breakpoints = []; facts = [] } }
    {
        Sweep {
            list: Merged::new(alloc),
            before: Merged::new(alloc),
        }
    }

    /// Merges the breakpoints of these chains, both given from left to right, and reports which slopes have gone and which
    /// are new. At most one sign is asked for each breakpoint. The old and the new slopes are compared from both ends; the
    /// time beside that is the product of the lengths of what is between.
    pub(crate) fn renew<O: Signs, L: Ledger>(
        &mut self,
        now: &O,
        upper: &[u32],
        lower: &[u32],
        out: &mut Delta,
        steps: &mut Steps<L>,
    ) -> Result<(), NoMemory>
        requires real { IsReal (O.scene now.now) }
        requires fits { FitsSize 12 (O.scene now.now) }
        requires chains { AreChains (O.scene now.now) upper.now lower.now }
        ensures sweep { OnOk result (IsSweep (O.scene now.now) upper.now (reverse lower.now) self.new.breakpoints) }
        ensures facts { OnOk result (self.new.facts ≡ map (placed_at (O.scene now.now) 0) (slopes_from self.new.breakpoints)) }
        ensures delta { OnOk result (HasChanged self.old.facts self.new.facts out.old out.new) }
        ensures cost { OnOk result (steps.new ≤ steps.old + length self.new.breakpoints) }
    {
        self.before.merge(now, upper, lower, steps)?;
        tell_changes(&self.list.slopes, &self.before.slopes, out)?;
        swap(&mut self.list, &mut self.before);
        Ok(())
    }

    /// The breakpoints, in the order of the sweep.
    pub(crate) fn breakpoints(&self) -> &[Breakpoint]
        ensures { map seen result.now ≡ self.now.breakpoints }
    {
        &self.list.breakpoints
    }
}
