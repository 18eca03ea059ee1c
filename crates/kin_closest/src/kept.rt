//! The closest pair as a structure that a world keeps.

ghost use Rattle.std.specs.Prelude.{◌≡◌, ◌≤◌, ◌<◌, ◌^◌, ℕ, List, [], false, IfOk, OnOk};
ghost use Rattle.kin_motion.specs.declared.keep.Keep.{Keep as Kind};
ghost use Rattle.kin_motion.specs.Kinetics.{ListsFailing, HasChanged};
ghost use Rattle.kin_motion.specs.Numbers.{is_in, HasEntered};
ghost use Rattle.kin_motion.specs.Scene.{Scene, IsReal};

use crate::closest::KinClosest;
use kin_motion::fact::{Delta, Placed};
use kin_motion::keep::Keep;
use kin_motion::kept::Kept;
use kin_motion::kinetic::Kinetic;
use kin_motion::signs::Signs;
use kin_motion::steady::Steady;
use kin_num::memory::NoMemory;
use kin_num::steps::Steps;
use std::alloc::Global;
use std::sync::ledger::Ledger;

impl Steady for KinClosest {
    ghost use Rattle.kin_closest.specs.Closing.{StaysClosing, AreFewTests};

    ghost stays = { StaysClosing };

    ghost spends = { λ old new failed out out' before after. AreFewTests old new failed out before after };

    fn settle_steadily<O: Signs, L: Ledger>(
        &mut self,
        now: &O,
        failed: &[Placed],
        out: &mut Delta,
        steps: &mut Steps<L>,
    ) -> Result<(), NoMemory> {
        self.settle(now, failed, out, steps)
    }
}

impl Kept for KinClosest {
    ghost use Rattle.kin_closest.specs.Closing.{IsClosingFor, IsClosestKeep, HasMembers, FollowsClosing};
    ghost use Rattle.kin_closest.specs.ClosingLaws.{closing_ready, closing_spares_none, closing_kind_stays, closing_members_stay, closing_exact};
    ghost use Rattle.kin_closest.specs.FrugalLaws.{closing_follows_scene, closing_frugal};

    ghost is_for = { IsClosingFor };

    ghost serves = { IsClosestKeep };

    ghost has_members = { HasMembers };

    ghost follows = { FollowsClosing };

    ghost ready_over = { closing_ready };

    ghost spares_none = { closing_spares_none };

    ghost kind_stays = { closing_kind_stays };

    ghost members_stay = { closing_members_stay };

    ghost exact = { closing_exact };

    ghost follows_scene = { closing_follows_scene };

    ghost frugal = { closing_frugal };

    ghost stands_alone = { λ k s. tt };

    fn vacant(alloc: Global, keep: &Keep, size: u32) -> Result<KinClosest, NoMemory> {
        let Keep::Closest = *keep else { unreachable!() };
        KinClosest::new(alloc, size)
    }

    fn mark_entering(&mut self, no: u32) -> Result<(), NoMemory> {
        self.insert(no)
    }

    fn mark_leaving(&mut self, no: u32) {
        self.remove(no);
    }
}
