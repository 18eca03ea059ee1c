//! Moving boxes as a structure that a world keeps.

ghost use Rattle.std.specs.Prelude.{◌≡◌, ◌≤◌, ◌<◌, ◌^◌, ℕ, List, [], false, IfOk, OnOk};
ghost use Rattle.kin_motion.specs.declared.keep.Keep.{Keep as Kind};
ghost use Rattle.kin_motion.specs.Kinetics.{ListsFailing, HasChanged};
ghost use Rattle.kin_motion.specs.Numbers.{is_in, HasEntered};
ghost use Rattle.kin_motion.specs.Scene.{Scene, IsReal};

use crate::boxes::KinBoxes;
use kin_motion::fact::{Delta, Placed};
use kin_motion::keep::Keep;
use kin_motion::kept::Kept;
use kin_motion::kinetic::Kinetic;
use kin_motion::signs::Signs;
use kin_motion::steady::Steady;
use kin_num::memory::NoMemory;
use kin_num::steps::Steps;
use std::alloc::Global;
use std::sync::ledger::Ledger;

impl Steady for KinBoxes {
    ghost use Rattle.kin_boxes.specs.Boxing.{StaysBoxing, AreFewTests};

    ghost stays = { StaysBoxing };

    ghost spends = { λ old new failed out out' before after. AreFewTests old new out out' before after };

    fn settle_steadily<O: Signs, L: Ledger>(
        &mut self,
        now: &O,
        failed: &[Placed],
        out: &mut Delta,
        steps: &mut Steps<L>,
    ) -> Result<(), NoMemory> {
        self.settle(now, failed, out, steps)
    }
}

impl Kept for KinBoxes {
    ghost use Rattle.kin_boxes.specs.Boxing.{IsBoxingFor, IsBoxesKeep, HasMembers, FollowsBoxing};
    ghost use Rattle.kin_boxes.specs.BoxingLaws.{boxing_spares_none, boxing_kind_stays, boxing_members_stay, boxing_exact};
    ghost use Rattle.kin_boxes.specs.FrugalLaws.{boxing_follows_scene, boxing_frugal};

    ghost is_for = { IsBoxingFor };

    ghost serves = { IsBoxesKeep };

    ghost has_members = { HasMembers };

    ghost follows = { FollowsBoxing };

    ghost ready_over = { λ b s members. members };

    ghost spares_none = { boxing_spares_none };

    ghost kind_stays = { boxing_kind_stays };

    ghost members_stay = { boxing_members_stay };

    ghost exact = { boxing_exact };

    ghost follows_scene = { boxing_follows_scene };

    ghost frugal = { boxing_frugal };

    ghost stands_alone = { λ b s. tt };

    fn vacant(alloc: Global, keep: &Keep, size: u32) -> Result<KinBoxes, NoMemory> {
        let Keep::Boxes { w, h } = *keep else {
            unreachable!()
        };
        KinBoxes::new(alloc, w, h, size)
    }

    fn mark_entering(&mut self, no: u32) -> Result<(), NoMemory> {
        self.insert(no)
    }

    fn mark_leaving(&mut self, no: u32) {
        self.remove(no);
    }
}
