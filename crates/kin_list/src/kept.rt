//! The list as the structure of a kept order.

ghost use Rattle.std.specs.Prelude.{◌≡◌, ◌≤◌, ◌<◌, ◌^◌, ℕ, List, [], false, IfOk, OnOk};
ghost use Rattle.kin_motion.specs.declared.keep.Keep.{Keep as Kind};
ghost use Rattle.kin_motion.specs.Kinetics.{ListsFailing, HasChanged};
ghost use Rattle.kin_motion.specs.Numbers.{is_in, HasEntered};
ghost use Rattle.kin_motion.specs.Scene.{Scene, IsReal};

use crate::list::KinList;
use kin_motion::fact::{Delta, Placed};
use kin_motion::keep::Keep;
use kin_motion::kept::Kept;
use kin_motion::kinetic::Kinetic;
use kin_motion::signs::Signs;
use kin_motion::steady::Steady;
use kin_num::memory::NoMemory;
use kin_num::steps::Steps;
use std::alloc::Global;
use std::sync::ledger::Ledger;

impl Steady for KinList {
    ghost use Rattle.kin_list.specs.Keeping.{StaysList, SpendsList};

    ghost stays = { StaysList };

    ghost spends = { SpendsList };

    fn settle_steadily<O: Signs, L: Ledger>(
        &mut self,
        now: &O,
        failed: &[Placed],
        out: &mut Delta,
        steps: &mut Steps<L>,
    ) -> Result<(), NoMemory> {
        self.settle(now, failed, out, steps)
    }
}

impl Kept for KinList {
    ghost use Rattle.kin_list.specs.Keeping.{IsListFor, IsOrderKeep, HasMembers, FollowsList};
    ghost use Rattle.kin_list.specs.KeepingLaws.{list_spares_none, list_kind_stays, list_members_stay, list_exact};
    ghost use Rattle.kin_list.specs.FrugalLaws.{list_follows_scene, list_frugal};

    ghost is_for = { IsListFor };

    ghost serves = { IsOrderKeep };

    ghost has_members = { HasMembers };

    ghost follows = { FollowsList };

    ghost ready_over = { λ k s members. members };

    ghost spares_none = { list_spares_none };

    ghost kind_stays = { list_kind_stays };

    ghost members_stay = { list_members_stay };

    ghost exact = { list_exact };

    ghost follows_scene = { list_follows_scene };

    ghost frugal = { list_frugal };

    ghost stands_alone = { λ k s. tt };

    fn vacant(alloc: Global, keep: &Keep, size: u32) -> Result<KinList, NoMemory> {
        let Keep::Order { dx, dy } = *keep else {
            unreachable!()
        };
        KinList::new(alloc, dx, dy, size)
    }

    fn mark_entering(&mut self, no: u32) -> Result<(), NoMemory> {
        self.insert(no)
    }

    fn mark_leaving(&mut self, no: u32) {
        self.remove(no);
    }
}
