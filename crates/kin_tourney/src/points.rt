//! The tournament of points as the structure of a kept extreme point.

ghost use Rattle.std.specs.Prelude.{◌≡◌, ◌≤◌, ◌<◌, ◌^◌, ℕ, List, [], false, IfOk, OnOk};
ghost use Rattle.kin_motion.specs.declared.keep.Keep.{Keep as Kind};
ghost use Rattle.kin_motion.specs.Agreements.{FitsSize};
ghost use Rattle.kin_motion.specs.Extremes.{IsExtremePoint};
ghost use Rattle.kin_motion.specs.Kinetics.{ListsFailing, HasChanged};
ghost use Rattle.kin_motion.specs.Numbers.{is_in, HasEntered};
ghost use Rattle.kin_motion.specs.Scene.{Scene, IsReal};
ghost use Rattle.kin_tourney.specs.Points.{HasPoints, IsSettledAlong};
ghost use Rattle.kin_tourney.specs.Tournament.{IsAtRest};

use crate::along::Along;
use crate::tourney::Tourney;
use kin_motion::fact::{Delta, Placed};
use kin_motion::keep::Keep;
use kin_motion::kept::Kept;
use kin_motion::kinetic::Kinetic;
use kin_motion::signs::Signs;
use kin_motion::steady::Steady;
use kin_num::memory::NoMemory;
use kin_num::steps::Steps;
use std::alloc::Global;
use std::sync::ledger::Ledger;

impl Tourney<Along> {
    /// Where the tournament is settled over the live numbers, the one that lies farthest along the
    /// direction, at a tie the least one, or `None` where no number is live. It is read off the root.
    pub fn extreme(&self) -> Option<u32>
        requires rest { IsAtRest self.now }
        ensures { (s : Scene) → IsReal s → FitsSize self.now.size s → HasPoints self.now s.live → IsSettledAlong self.now s → IsExtremePoint s self.now.key.dx self.now.key.dy result }
    {
        self.winner(1)
    }
}

impl Steady for Tourney<Along> {
    ghost use Rattle.kin_tourney.specs.Points.{StaysTournament, SpendsPoints};

    ghost stays = { StaysTournament };

    ghost spends = { SpendsPoints };

    fn settle_steadily<O: Signs, L: Ledger>(
        &mut self,
        now: &O,
        failed: &[Placed],
        out: &mut Delta,
        steps: &mut Steps<L>,
    ) -> Result<(), NoMemory> {
        self.settle(now, failed, out, steps)
    }
}

impl Kept for Tourney<Along> {
    ghost use Rattle.kin_tourney.specs.Points.{IsTournamentFor, IsExtremeKeep, HasPoints, FollowsPoints};
    ghost use Rattle.kin_tourney.specs.PointLaws.{points_ready, points_spare_none, points_kind_stays, points_stay, points_exact};
    ghost use Rattle.kin_tourney.specs.FrugalLaws.{points_follow_scene, points_frugal};

    ghost is_for = { IsTournamentFor };

    ghost serves = { IsExtremeKeep };

    ghost has_members = { HasPoints };

    ghost follows = { FollowsPoints };

    ghost ready_over = { points_ready };

    ghost spares_none = { points_spare_none };

    ghost kind_stays = { points_kind_stays };

    ghost members_stay = { points_stay };

    ghost exact = { points_exact };

    ghost follows_scene = { points_follow_scene };

    ghost frugal = { points_frugal };

    ghost stands_alone = { λ t s. tt };

    fn vacant(alloc: Global, keep: &Keep, size: u32) -> Result<Tourney<Along>, NoMemory> {
        let Keep::Extreme { dx, dy } = *keep else {
            unreachable!()
        };
        Tourney::new(alloc, Along { dx, dy }, size)
    }

    fn mark_entering(&mut self, no: u32) -> Result<(), NoMemory> {
        self.set(no, no);
        Ok(())
    }

    fn mark_leaving(&mut self, no: u32) {
        self.clear(no);
    }
}
