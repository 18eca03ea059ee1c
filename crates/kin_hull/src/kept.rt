//! The hull as a structure that a world keeps.

ghost use Rattle.std.specs.Prelude.{◌≡◌, ◌≤◌, ◌<◌, ◌^◌, ℕ, List, [], false, IfOk, OnOk};
ghost use Rattle.kin_motion.specs.declared.keep.Keep.{Keep as Kind};
ghost use Rattle.kin_motion.specs.Kinetics.{ListsFailing, HasChanged};
ghost use Rattle.kin_motion.specs.Numbers.{is_in, HasEntered};
ghost use Rattle.kin_motion.specs.Scene.{Scene, IsReal};

use crate::hull::KinHull;
use kin_motion::fact::{Delta, Placed};
use kin_motion::keep::Keep;
use kin_motion::kept::Kept;
use kin_motion::kinetic::Kinetic;
use kin_motion::signs::Signs;
use kin_motion::steady::Steady;
use kin_num::memory::NoMemory;
use kin_num::steps::Steps;
use std::alloc::Global;
use std::sync::ledger::Ledger;

impl Steady for KinHull {
    ghost use Rattle.kin_hull.specs.Hulls.{StaysHull, SpendsHull};

    ghost stays = { StaysHull };

    ghost spends = { SpendsHull };

    fn settle_steadily<O: Signs, L: Ledger>(
        &mut self,
        now: &O,
        failed: &[Placed],
        out: &mut Delta,
        steps: &mut Steps<L>,
    ) -> Result<(), NoMemory> {
        self.settle(now, failed, out, steps)
    }
}

impl Kept for KinHull {
    ghost use Rattle.kin_hull.specs.Hulls.{IsHullFor, IsHullKeep, HasMembers, FollowsHull};
    ghost use Rattle.kin_hull.specs.HullLaws.{hull_spares_none, hull_kind_stays, hull_members_stay, hull_exact};
    ghost use Rattle.kin_hull.specs.FrugalLaws.{hull_follows_scene, hull_frugal};

    ghost is_for = { IsHullFor };

    ghost serves = { IsHullKeep };

    ghost has_members = { HasMembers };

    ghost follows = { FollowsHull };

    ghost ready_over = { λ k s members. members };

    ghost spares_none = { hull_spares_none };

    ghost kind_stays = { hull_kind_stays };

    ghost members_stay = { hull_members_stay };

    ghost exact = { hull_exact };

    ghost follows_scene = { hull_follows_scene };

    ghost frugal = { hull_frugal };

    ghost stands_alone = { λ k s. tt };

    fn vacant(alloc: Global, keep: &Keep, size: u32) -> Result<KinHull, NoMemory> {
        let Keep::Hull = *keep else { unreachable!() };
        KinHull::new(alloc, size)
    }

    fn mark_entering(&mut self, no: u32) -> Result<(), NoMemory> {
        self.insert(no)
    }

    fn mark_leaving(&mut self, no: u32) {
        self.remove(no);
    }
}
