//! Structures with clauses on what a settle leaves as it is and on what it spends.

ghost use Rattle.std.specs.Prelude.{ℕ, List, OnOk};
ghost use Rattle.kin_motion.specs.declared.fact.Placed.{Placed as Put};
ghost use Rattle.kin_motion.specs.Deltas.{Change};
ghost use Rattle.kin_motion.specs.Kinetics.{ListsFailing, HasChanged};
ghost use Rattle.kin_motion.specs.Scene.{IsReal};

use crate::fact::{Delta, Placed};
use crate::kinetic::Kinetic;
use crate::signs::Signs;
use kin_num::memory::NoMemory;
use kin_num::steps::Steps;
use std::sync::ledger::Ledger;

/// A kinetic structure that says what a settle leaves as it is, such as its size or its direction, and
/// what it spends.
pub trait Steady: Kinetic + Drop {
    /// What a settle leaves as it is.
    ghost stays: { Self → Self → Type 0 };

    /// What a settle of these failed facts may spend, in the structure's own terms: by the states, the
    /// reports and the counts before and after it. No law requires anything of it here; `frugal` of
    /// `Kept` does.
    ghost spends: { Self → Self → List Put → Change → Change → ℕ → ℕ → Type 0 };

    /// `settle`, with clauses on what it leaves as it is and on what it spends.
    fn settle_steadily<O: Signs, L: Ledger>(
        &mut self,
        now: &O,
        failed: &[Placed],
        out: &mut Delta,
        steps: &mut Steps<L>,
    ) -> Result<(), NoMemory>
        requires real { IsReal (O.scene now.now) }
        requires ready { Self.ready self.old (O.scene now.now) }
        requires failing { ListsFailing (Self.facts self.old) (Self.is_spared self.old) (O.scene now.now) failed.now }
        ensures rest { OnOk result (Self.at_rest self.new) }
        ensures settled { OnOk result (Self.settled self.new (O.scene now.now)) }
        ensures delta { OnOk result (HasChanged (Self.facts self.old) (Self.facts self.new) out.old out.new) }
        ensures stays { OnOk result (stays self.old self.new) }
        ensures spent { OnOk result (spends self.old self.new failed.now out.old out.new steps.old steps.new) };
}
