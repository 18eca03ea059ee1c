//! A farthest pair is made of the chains of a hull. The hull is repaired first.

ghost use Rattle.std.specs.Prelude.{◌≡◌, ℕ, Contains, OnOk, Some, slice_get};
ghost use Rattle.kin_motion.specs.Agreements.{FitsSize};
ghost use Rattle.kin_motion.specs.Kinetics.{HasChanged, HaveSameLive};
ghost use Rattle.kin_motion.specs.Scene.{Scene, IsReal, Holds};
ghost use Rattle.kin_motion.specs.Sets.{ListsExactly};
ghost use Rattle.kin_motion.specs.Spending.{HasRisenWithin, MayDiameterAsk};
ghost use Rattle.kin_diameter.specs.Diameter.{IsDiameterAtRest, IsSettledKinDiameter, facts_of};
ghost use Rattle.kin_hull.specs.Hulls.{Hull};
ghost use Rattle.kin_world.specs.declared.structure.Structure.TheVariants.{Hull as HullOf};
ghost use Rattle.kin_world.specs.Structures.{AreLiveAfter, HasHull, HoldFor};

use crate::structure::{Mark, Structure};
use kin_diameter::KinDiameter;
use kin_hull::KinHull;
use kin_motion::kinetic::Kinetic;
use kin_motion::{Delta, Placed, Signs};
use kin_num::{NoMemory, Steps};
use std::sync::ledger::Ledger;

// The hull that is among these.
fn hull_among(structures: &[Structure]) -> &KinHull
    requires { (n : ℕ) × (hull : Hull) × (slice_get structures.now n ≡ Some (HullOf hull)) }
    ensures { (n : ℕ) × (slice_get structures.now n ≡ Some (HullOf result.now)) }
{
    for structure in structures {
        if let Structure::Hull(hull) = structure {
            return hull;
        }
    }
    unreachable!()
}

/// Repairs a farthest pair, where one of its facts has failed or its hull has another chain than it was given last.
pub(crate) fn repair_pair<O: Signs, L: Ledger>(
    pair: &mut KinDiameter,
    before: &[Structure],
    now: &O,
    failed: &[Placed],
    out: &mut Delta,
    steps: &mut Steps<L>,
) -> Result<(), NoMemory>
    requires real { IsReal (O.scene now.now) }
    requires hull { HasHull (O.scene now.now) before.now }
    requires rest { IsDiameterAtRest pair.old }
    requires was { (v : Scene) × IsReal v × IsSettledKinDiameter pair.old v × HaveSameLive v (O.scene now.now) }
    requires failing { ListsExactly failed.now (λ p. Contains (facts_of pair.old) p × ¬ (Holds (O.scene now.now) p.fact)) }
    ensures rest { OnOk result (IsDiameterAtRest pair.new) }
    ensures settled { OnOk result (IsSettledKinDiameter pair.new (O.scene now.now)) }
    ensures size { OnOk result (pair.new.size ≡ pair.old.size) }
    ensures delta { OnOk result (HasChanged (facts_of pair.old) (facts_of pair.new) out.old out.new) }
    ensures within { OnOk result ((v : Scene) → IsReal v → IsSettledKinDiameter pair.old v → HaveSameLive v (O.scene now.now)
        → HasRisenWithin (MayDiameterAsk pair.old.size v (O.scene now.now)) steps.old steps.new) }
{
    let hull = hull_among(before);
    let (upper, lower) = (hull.upper(), hull.lower());
    if failed.is_empty() && pair.has_chains(upper, lower) {
        return Ok(());
    }
    pair.chains(upper, lower)?;
    pair.settle(now, failed, out, steps)
}

/// Repairs a farthest pair after a number has entered or left. Its hull has taken it in or let it go.
pub(crate) fn follow_hull<O: Signs, L: Ledger>(
    pair: &mut KinDiameter,
    before: &[Structure],
    mark: Mark,
    now: &O,
    out: &mut Delta,
    steps: &mut Steps<L>,
) -> Result<(), NoMemory>
    requires real { IsReal (O.scene now.now) }
    requires hull { HasHull (O.scene now.now) before.now }
    requires rest { IsDiameterAtRest pair.old }
    requires fits { FitsSize pair.old.size (O.scene now.now) }
    requires was { (v : Scene) × AreLiveAfter mark v.live (O.scene now.now).live }
    requires hold { HoldFor mark (facts_of pair.old) (O.scene now.now) }
    ensures rest { OnOk result (IsDiameterAtRest pair.new) }
    ensures settled { OnOk result (IsSettledKinDiameter pair.new (O.scene now.now)) }
    ensures size { OnOk result (pair.new.size ≡ pair.old.size) }
    ensures delta { OnOk result (HasChanged (facts_of pair.old) (facts_of pair.new) out.old out.new) }
    ensures within { OnOk result ((v : Scene) → IsSettledKinDiameter pair.old v → AreLiveAfter mark v.live (O.scene now.now).live
        → HasRisenWithin (MayDiameterAsk pair.old.size v (O.scene now.now)) steps.old steps.new) }
{
    let hull = hull_among(before);
    pair.chains(hull.upper(), hull.lower())?;
    match mark {
        Mark::Enters(_) => {}
        Mark::Leaves(no) => pair.remove(no),
    }
    pair.settle(now, &[], out, steps)
}
