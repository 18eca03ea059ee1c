//! The kinetic range.

ghost use Rattle.std.specs.Prelude.{◌≡◌, ◌≤◌, ◌<◌, ◌^◌, true, false, length, IfOk, OnOk, OnErr};
ghost use Rattle.kin_motion.specs.Boxes.{points_in, IsRectInRange};
ghost use Rattle.kin_motion.specs.Kinetics.{ListsFailing, HasChanged};
ghost use Rattle.kin_motion.specs.Numbers.{is_in};
ghost use Rattle.kin_motion.specs.Scene.{IsReal, scene_at};
ghost use Rattle.kin_list.specs.declared.mark.Mark.TheVariants.{Enters, Leaves};
ghost use Rattle.kin_list.specs.Listing.{names_leaving};
ghost use Rattle.kin_range.specs.Ranging.{facts_of, members_of, vacant_range, IsRangingAtRest, IsReadyRanging, IsSettledRanging, AreFewTests};

use crate::both::settle_both;
use crate::pick::pick_shorter;
use crate::span::spans_in;
use kin_list::KinList;
use kin_motion::fact::{Delta, Placed};
use kin_motion::kinetic::Kinetic;
use kin_motion::signs::Signs;
use kin_motion::{Motions, Rect};
use kin_num::steps::Steps;
use kin_num::{Moment, NoMemory};
use kin_wedge::mail::Mail;
use std::alloc::Global;
use std::marker::{Brand, Model};
use std::sync::ledger::{Blank, Ledger};

/// Moving points in their orders along x and along y, by which those in a rectangle are found.
///
/// The order along x has part 0, and that along y part 1.
#[derive(Drop)]
pub struct KinRange {
    alloc: Global,
    by_x: KinList,
    by_y: KinList,
    mail: Mail,
    /// Whether no call that takes memory is under way and none has run out of it.
    whole: bool,
    ghost told: { length mail.boxes.items ≡ 2 },
}

impl Model for KinRange {
    ghost use Rattle.std.specs.Prelude.{IsTrue};
    ghost use Rattle.kin_range.specs.Ranging.{Ranging, AreJoined};

    ghost Value = { Ranging };

    ghost view = { λ r. record { by_x = r.by_x; by_y = r.by_y; whole = r.whole } };

    ghost invariant = { λ r. IsTrue r.whole → AreJoined r.by_x r.by_y };
}

impl KinRange {
    /// No points, with room for the numbers below `2^size`.
    pub fn new(alloc: Global, size: u32) -> Result<KinRange, NoMemory>
        requires low { 1 ≤ size }
        requires high { size ≤ 12 }
        ensures { IfOk result (λ r. r ≡ vacant_range size) }
    {
        Ok(KinRange {
            alloc,
            by_x: KinList::new(alloc, 1, 0, size)?,
            by_y: KinList::new(alloc, 0, 1, size)?,
            mail: Mail::new(alloc, 2)?,
            whole: true,
        })
    }

    /// Marks a number as entering. It is no member, and no mark waits. After want of memory the structure
    /// may not be used again.
    pub fn insert(&mut self, no: u32) -> Result<(), NoMemory>
        requires rest { IsRangingAtRest self.old }
        requires within { no < self.old.by_x.room }
        requires new { is_in no (members_of self.old) ≡ false }
        ensures ok { OnOk result (self.new ≡ record self.old { by_x = record self.old.by_x { mark = Enters no }; by_y = record self.old.by_y { mark = Enters no } }) }
        ensures err { OnErr result (self.new.whole ≡ false) }
    {
        self.whole = false;
        self.by_x.insert(no)?;
        self.by_y.insert(no)?;
        self.whole = true;
        Ok(())
    }

    /// Marks a member as leaving. No mark waits.
    pub fn remove(&mut self, no: u32)
        requires rest { IsRangingAtRest self.old }
        requires member { is_in no (members_of self.old) ≡ true }
        ensures { self.new ≡ record self.old { by_x = record self.old.by_x { mark = Leaves no }; by_y = record self.old.by_y { mark = Leaves no } } }
    {
        self.by_x.remove(no);
        self.by_y.remove(no);
    }

    /// The points on or within the border of a rectangle at the moment now, phase included, by rising number. The range
    /// is settled there, and each bound is in -2^24..2^24. There are none where `x1 > x2` or `y1 > y2`.
    ///
    /// Halving finds the places of the border in both orders: of n points it asks at most `4*k` signs, where
    /// `2^k <= 2*n + 2`. Then it looks up the points between two sides, those left and right or those below and above,
    /// whichever are fewer, and sorts the points inside. No clause says so, and no step is counted. `NoMemory` changes
    /// nothing.
    pub fn inside(&self, motions: &Motions, now: &Moment, rect: &Rect) -> Result<Vec<u32>, NoMemory>
        requires settled { IsSettledRanging self.now (scene_at motions.now now.now) }
        requires rect { IsRectInRange rect.now }
        ensures { IfOk result (λ numbers. numbers.items ≡ points_in motions.now now.now rect.now) }
    {
        let (by_x, by_y) = (self.by_x.items(), self.by_y.items());
        let (x, y) = spans_in::<Brand>(by_x, by_y, motions, now, rect, Blank::new(1));
        let mut picked = pick_shorter(self.alloc, &self.by_x, x, &self.by_y, y)?;
        picked.sort_unstable();
        Ok(picked)
    }
}

impl Kinetic for KinRange {
    ghost use Rattle.kin_list.specs.Listing.{names_leaving};
    ghost use Rattle.kin_range.specs.Ranging.{IsRangingAtRest, IsReadyRanging, IsSettledRanging, facts_of};
    ghost use Rattle.kin_range.specs.RangingLaws.{determined_lem};

    ghost facts = { facts_of };

    ghost is_spared = { λ r p. names_leaving r.by_x.mark p };

    ghost ready = { IsReadyRanging };

    ghost at_rest = { IsRangingAtRest };

    ghost settled = { IsSettledRanging };

    ghost grounded = { λ r w. Unit {0} };

    ghost determined = { determined_lem };

    fn settle<O: Signs, L: Ledger>(
        &mut self,
        now: &O,
        failed: &[Placed],
        out: &mut Delta,
        steps: &mut Steps<L>,
    ) -> Result<(), NoMemory>
        requires real { IsReal (O.scene now.now) }
        requires ready { IsReadyRanging self.old (O.scene now.now) }
        requires failing { ListsFailing (facts_of self.old) (names_leaving self.old.by_x.mark) (O.scene now.now) failed.now }
        ensures rest { OnOk result (IsRangingAtRest self.new) }
        ensures settled { OnOk result (IsSettledRanging self.new (O.scene now.now)) }
        ensures delta { OnOk result (HasChanged (facts_of self.old) (facts_of self.new) out.old out.new) }
        ensures broken { OnErr result (self.new.whole ≡ false) }
        ensures tests { OnOk result (AreFewTests self.old self.new out.old out.new steps.old steps.new) }
        ensures same { OnOk result (self.new.by_x.room ≡ self.old.by_x.room) }
    {
        self.whole = false;
        settle_both(
            &mut self.by_x,
            &mut self.by_y,
            &mut self.mail,
            now,
            failed,
            out,
            steps,
        )?;
        self.whole = true;
        Ok(())
    }
}
