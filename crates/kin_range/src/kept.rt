//! The range as a structure that a world keeps.

ghost use Rattle.std.specs.Prelude.{◌≡◌, ◌≤◌, ◌<◌, ◌^◌, ℕ, List, [], false, IfOk, OnOk};
ghost use Rattle.kin_motion.specs.declared.keep.Keep.{Keep as Kind};
ghost use Rattle.kin_motion.specs.Kinetics.{ListsFailing, HasChanged};
ghost use Rattle.kin_motion.specs.Numbers.{is_in, HasEntered};
ghost use Rattle.kin_motion.specs.Scene.{Scene, IsReal};

use crate::range::KinRange;
use kin_motion::fact::{Delta, Placed};
use kin_motion::keep::Keep;
use kin_motion::kept::Kept;
use kin_motion::kinetic::Kinetic;
use kin_motion::signs::Signs;
use kin_motion::steady::Steady;
use kin_num::memory::NoMemory;
use kin_num::steps::Steps;
use std::alloc::Global;
use std::sync::ledger::Ledger;

impl Steady for KinRange {
    ghost use Rattle.kin_range.specs.Ranging.{StaysRanging, AreFewTests};

    ghost stays = { StaysRanging };

    ghost spends = { λ old new failed out out' before after. AreFewTests old new out out' before after };

    fn settle_steadily<O: Signs, L: Ledger>(
        &mut self,
        now: &O,
        failed: &[Placed],
        out: &mut Delta,
        steps: &mut Steps<L>,
    ) -> Result<(), NoMemory> {
        self.settle(now, failed, out, steps)
    }
}

impl Kept for KinRange {
    ghost use Rattle.kin_range.specs.Ranging.{IsRangingFor, IsRangeKeep, HasMembers, FollowsRanging};
    ghost use Rattle.kin_range.specs.RangingLaws.{range_spares_none, range_kind_stays, range_members_stay, range_exact};
    ghost use Rattle.kin_range.specs.FrugalLaws.{range_follows_scene, range_frugal};

    ghost is_for = { IsRangingFor };

    ghost serves = { IsRangeKeep };

    ghost has_members = { HasMembers };

    ghost follows = { FollowsRanging };

    ghost ready_over = { λ r s members. members };

    ghost spares_none = { range_spares_none };

    ghost kind_stays = { range_kind_stays };

    ghost members_stay = { range_members_stay };

    ghost exact = { range_exact };

    ghost follows_scene = { range_follows_scene };

    ghost frugal = { range_frugal };

    ghost stands_alone = { λ r s. tt };

    fn vacant(alloc: Global, keep: &Keep, size: u32) -> Result<KinRange, NoMemory> {
        let Keep::Range = *keep else { unreachable!() };
        KinRange::new(alloc, size)
    }

    fn mark_entering(&mut self, no: u32) -> Result<(), NoMemory> {
        self.insert(no)
    }

    fn mark_leaving(&mut self, no: u32) {
        self.remove(no);
    }
}
