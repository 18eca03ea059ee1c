//! A structure changes after those before it.

ghost use Rattle.std.specs.Prelude.{◌≡◌, ◌<◌, Some, slice_get, take, length, OnOk};
ghost use Rattle.kin_motion.specs.Scene.{IsReal};
ghost use Rattle.kin_world.specs.declared.structure.Structure.{Structure as Kept};
ghost use Rattle.kin_world.specs.Structures.{AreLiveAfter, HasChangedAt, MayCarryOut, MaySettle};

use crate::structure::{Mark, Structure};
use kin_motion::{Delta, Placed, Signs};
use kin_num::{NoMemory, Steps};
use std::sync::ledger::Ledger;

/// Repairs the structure at a place. Those before it are repaired. `failed` lists exactly its facts that don't hold now, and
/// `out` gains what changed.
pub fn settle_at<O: Signs, L: Ledger>(
    structures: &mut [Structure],
    place: usize,
    now: &O,
    failed: &[Placed],
    out: &mut Delta,
    steps: &mut Steps<L>,
) -> Result<(), NoMemory>
    requires real { IsReal (O.scene now.now) }
    requires within { place < length structures.old }
    requires may { (st : Kept) → slice_get structures.old place ≡ Some st → MaySettle (O.scene now.now) (take place structures.old) st failed.now }
    ensures { OnOk result (HasChangedAt place (λ live. live ≡ (O.scene now.now).live) (O.scene now.now)
        structures.old structures.new out.old out.new steps.old steps.new) }
{
    let (before, rest) = structures.split_at_mut(place);
    rest[0].settle(before, now, failed, out, steps)
}

/// Lets the structure at a place take in a number that has become live, or let go of one. Those before it have done so. `out`
/// gains what changed.
pub fn carry_out_at<O: Signs, L: Ledger>(
    structures: &mut [Structure],
    place: usize,
    mark: Mark,
    now: &O,
    out: &mut Delta,
    steps: &mut Steps<L>,
) -> Result<(), NoMemory>
    requires real { IsReal (O.scene now.now) }
    requires within { place < length structures.old }
    requires may { (st : Kept) → slice_get structures.old place ≡ Some st → MayCarryOut mark (O.scene now.now) (take place structures.old) st }
    ensures { OnOk result (HasChangedAt place (λ live. AreLiveAfter mark live (O.scene now.now).live) (O.scene now.now)
        structures.old structures.new out.old out.new steps.old steps.new) }
{
    let (before, rest) = structures.split_at_mut(place);
    rest[0].carry_out(mark, before, now, out, steps)
}
