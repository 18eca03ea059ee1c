//! Nearest neighbours as a structure that a world keeps.

ghost use Rattle.std.specs.Prelude.{◌≡◌, ◌≤◌, ◌<◌, ◌^◌, ℕ, List, [], false, IfOk, OnOk};
ghost use Rattle.kin_motion.specs.declared.keep.Keep.{Keep as Kind};
ghost use Rattle.kin_motion.specs.Kinetics.{ListsFailing, HasChanged};
ghost use Rattle.kin_motion.specs.Numbers.{is_in, HasEntered};
ghost use Rattle.kin_motion.specs.Scene.{Scene, IsReal};

use crate::nearest::KinNearest;
use kin_motion::fact::{Delta, Placed};
use kin_motion::keep::Keep;
use kin_motion::kept::Kept;
use kin_motion::kinetic::Kinetic;
use kin_motion::signs::Signs;
use kin_motion::steady::Steady;
use kin_num::memory::NoMemory;
use kin_num::steps::Steps;
use std::alloc::Global;
use std::sync::ledger::Ledger;

impl Steady for KinNearest {
    ghost use Rattle.kin_wedge.specs.Costs.{AreFewBelow};
    ghost use Rattle.kin_nearest.specs.Nearing.{StaysNearing};

    ghost stays = { StaysNearing };

    ghost spends = { λ old new failed out out' before after. AreFewBelow 8 old.mark old.orders new.orders out out' before after };

    fn settle_steadily<O: Signs, L: Ledger>(
        &mut self,
        now: &O,
        failed: &[Placed],
        out: &mut Delta,
        steps: &mut Steps<L>,
    ) -> Result<(), NoMemory> {
        self.settle(now, failed, out, steps)
    }
}

impl Kept for KinNearest {
    ghost use Rattle.kin_nearest.specs.Nearing.{IsNearingFor, IsNearestKeep, HasMembers, FollowsNearing};
    ghost use Rattle.kin_nearest.specs.NearingLaws.{nearing_spares_none, nearing_kind_stays, nearing_members_stay, nearing_exact, nearing_follows_scene, nearing_frugal};

    ghost is_for = { IsNearingFor };

    ghost serves = { IsNearestKeep };

    ghost has_members = { HasMembers };

    ghost follows = { FollowsNearing };

    ghost ready_over = { λ k s members. members };

    ghost spares_none = { nearing_spares_none };

    ghost kind_stays = { nearing_kind_stays };

    ghost members_stay = { nearing_members_stay };

    ghost exact = { nearing_exact };

    ghost follows_scene = { nearing_follows_scene };

    ghost frugal = { nearing_frugal };

    ghost stands_alone = { λ k s. tt };

    fn vacant(alloc: Global, keep: &Keep, size: u32) -> Result<KinNearest, NoMemory> {
        let Keep::Nearest = *keep else { unreachable!() };
        KinNearest::new(alloc, size)
    }

    fn mark_entering(&mut self, no: u32) -> Result<(), NoMemory> {
        self.insert(no)
    }

    fn mark_leaving(&mut self, no: u32) {
        self.remove(no);
    }
}
