//! Kinetic structures and their two laws.

ghost use Rattle.std.specs.Prelude.{◌≡◌, Bool, List, OnOk};
ghost use Rattle.kin_motion.specs.declared.fact.Placed.{Placed};
ghost use Rattle.kin_motion.specs.Scene.{Scene, IsReal};
ghost use Rattle.kin_motion.specs.Kinetics.{HaveSameLive, AllHold, ListsFailing, HasChanged};

use crate::fact::{Delta, Placed};
use crate::signs::Signs;
use kin_num::memory::NoMemory;
use kin_num::steps::Steps;
use std::sync::ledger::Ledger;

/// A structure that keeps an attribute of moving points, and the facts that prove it. While the same
/// numbers are live and all its facts hold, the attribute doesn't change.
pub trait Kinetic {
    /// Its live facts, each in its part.
    ghost facts: { Self → List Placed };

    /// The facts that the caller leaves out of `failed`, such as those that name a number that is
    /// marked as leaving.
    ghost is_spared: { Self → Placed → Bool };

    /// What `settle` requires of the scene: of most structures that the members, with the entering
    /// numbers and without the leaving ones, are exactly the live numbers, and of all that want of memory
    /// hasn't broken them.
    ghost ready: { Self → Scene → Type 0 };

    /// No mark and no edit waits.
    ghost at_rest: { Self → Type 0 };

    /// The content and the facts are those of the definition in this scene.
    ghost settled: { Self → Scene → Type 0 };

    /// What the determination law requires of a scene besides the facts: nothing, but for a merge
    /// that both given chains are upper chains there.
    ghost grounded: { Self → Scene → Type 0 };

    /// The settling law: repairs everything that has failed at one moment together. Of the facts
    /// that aren't spared, `failed` lists exactly those that don't hold now. The content and the
    /// moment before may be any. After want of memory the structure may not be used again.
    fn settle<O: Signs, L: Ledger>(
        &mut self,
        now: &O,
        failed: &[Placed],
        out: &mut Delta,
        steps: &mut Steps<L>,
    ) -> Result<(), NoMemory>
        requires real { IsReal (O.scene now.now) }
        requires ready { ready self.old (O.scene now.now) }
        requires failing { ListsFailing (facts self.old) (is_spared self.old) (O.scene now.now) failed.now }
        ensures rest { OnOk result (at_rest self.new) }
        ensures settled { OnOk result (settled self.new (O.scene now.now)) }
        ensures delta { OnOk result (HasChanged (facts self.old) (facts self.new) out.old out.new) };

    /// The determination law: where the same numbers are live, the facts alone determine the content
    /// and the facts. So a structure at rest of which no fact fails needs no `settle`.
    ghost determined: { (k : Self) (v w : Scene) → at_rest k → IsReal v → settled k v → HaveSameLive v w → IsReal w → grounded k w → AllHold w (facts k) → settled k w };
}
