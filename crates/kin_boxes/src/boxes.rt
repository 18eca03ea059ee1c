//! Moving boxes.

ghost use Rattle.std.specs.Prelude.{◌≡◌, ◌≤◌, ◌<◌, ◌^◌, pos, ◌≤ℤ◌, true, false, IfOk, OnOk, OnErr, []};
ghost use Rattle.kin_motion.specs.Kinetics.{ListsFailing, HasChanged};
ghost use Rattle.kin_motion.specs.Scene.{IsReal};
ghost use Rattle.kin_boxes.specs.Boxing.{entering_box, leaving_box, facts_of, has_point, with_marks, is_spared, AreOverlapsOf, IsBoxingAtRest, IsReadyBoxing, IsSettledBoxing, IsVacantBoxing, AreFewTests};

use crate::axis::enter;
use crate::both::{leave_both, settle_both};
use crate::mail::Mail;
use crate::sweep::sweep;
use kin_motion::fact::{Delta, Placed};
use kin_motion::kinetic::Kinetic;
use kin_motion::signs::Signs;
use kin_num::memory::NoMemory;
use kin_num::steps::Steps;
use kin_sorted::{Ends, Sorted};
use std::alloc::Global;
use std::marker::Model;
use std::sync::ledger::Ledger;

/// Moving points as the lower left corners of closed boxes of one width and one height, with the ends of the
/// boxes in their orders along x and along y.
///
/// The order along x has parts 0 to 3, and that along y parts 4 to 7.
#[derive(Drop)]
pub struct KinBoxes {
    alloc: Global,
    by_x: Sorted<Ends>,
    by_y: Sorted<Ends>,
    mail: Mail,
    /// The number that is to leave. Its ends are marked when the lists settle, since that takes memory, and `remove`
    /// takes none.
    leaving: Option<u32>,
    /// Whether no call that takes memory is under way and none has run out of it.
    whole: bool,
}

impl Model for KinBoxes {
    ghost use Rattle.std.specs.Prelude.{◌≡◌, true};
    ghost use Rattle.kin_boxes.specs.Boxing.{Boxing, AreJoinedBut, with_leaving};

    ghost Value = { Boxing };

    ghost view = { λ b. record { by_x = with_leaving b.leaving b.by_x; by_y = with_leaving b.leaving b.by_y; whole = b.whole } };

    ghost invariant = { λ b. b.whole ≡ true → AreJoinedBut b.leaving b.by_x b.by_y };
}

impl KinBoxes {
    /// No boxes, with room for the numbers below `2^size`. Each box will be `width` wide and `height` high.
    pub fn new(alloc: Global, width: i32, height: i32, size: u32) -> Result<KinBoxes, NoMemory>
        requires width { (pos 0 ≤ℤ width) × (width ≤ℤ pos 4096) }
        requires height { (pos 0 ≤ℤ height) × (height ≤ℤ pos 4096) }
        requires low { 1 ≤ size }
        requires high { size ≤ 12 }
        ensures { IfOk result (λ b. IsVacantBoxing width height size b) }
    {
        let count = 1 << size;
        Ok(KinBoxes {
            alloc,
            by_x: Sorted::new(alloc, Ends::new(1, 0, width, count))?,
            by_y: Sorted::new(alloc, Ends::new(0, 1, height, count))?,
            mail: Mail::new(alloc),
            leaving: None,
            whole: true,
        })
    }

    /// Marks a number as entering. It is no member, and no mark waits. After want of memory the structure
    /// may not be used again.
    pub fn insert(&mut self, no: u32) -> Result<(), NoMemory>
        requires rest { IsBoxingAtRest self.old }
        requires within { no < self.old.by_x.rank.count }
        requires new { has_point self.old no ≡ false }
        ensures ok { OnOk result (self.new ≡ with_marks (entering_box no) self.old) }
        ensures err { OnErr result (self.new.whole ≡ false) }
    {
        self.whole = false;
        enter(&mut self.by_x, no)?;
        enter(&mut self.by_y, no)?;
        self.whole = true;
        Ok(())
    }

    /// Marks a member as leaving. No mark waits.
    pub fn remove(&mut self, no: u32)
        requires rest { IsBoxingAtRest self.old }
        requires within { no < self.old.by_x.rank.count }
        requires member { has_point self.old no ≡ true }
        ensures { self.new ≡ with_marks (leaving_box no) self.old }
    {
        self.leaving = Some(no);
    }
}

impl KinBoxes {
    /// The pairs of points whose boxes overlap, the lesser number first, rising. Boxes that touch overlap. No mark waits.
    ///
    /// It goes along the ends in their order along x once, and compares each box that opens with those that are open
    /// by their places along y. It asks no sign. Want of memory changes nothing.
    pub fn overlaps(&self) -> Result<Vec<(u32, u32)>, NoMemory>
        requires rest { IsBoxingAtRest self.now }
        ensures { IfOk result (λ pairs. AreOverlapsOf self.now pairs.items) }
    {
        let mut pairs = sweep(self.alloc, &self.by_x, &self.by_y)?;
        pairs.sort_unstable();
        Ok(pairs)
    }
}

impl Kinetic for KinBoxes {
    ghost use Rattle.kin_boxes.specs.Boxing.{IsBoxingAtRest, IsReadyBoxing, IsSettledBoxing, facts_of, is_spared};
    ghost use Rattle.kin_boxes.specs.BoxingLaws.{determined_lem};

    ghost facts = { facts_of };

    ghost is_spared = { is_spared };

    ghost ready = { IsReadyBoxing };

    ghost at_rest = { IsBoxingAtRest };

    ghost settled = { IsSettledBoxing };

    ghost grounded = { λ b s. Unit {0} };

    ghost determined = { determined_lem };

    fn settle<O: Signs, L: Ledger>(
        &mut self,
        now: &O,
        failed: &[Placed],
        out: &mut Delta,
        steps: &mut Steps<L>,
    ) -> Result<(), NoMemory>
        requires real { IsReal (O.scene now.now) }
        requires ready { IsReadyBoxing self.old (O.scene now.now) }
        requires failing { ListsFailing (facts_of self.old) (is_spared self.old) (O.scene now.now) failed.now }
        ensures rest { OnOk result (IsBoxingAtRest self.new) }
        ensures settled { OnOk result (IsSettledBoxing self.new (O.scene now.now)) }
        ensures delta { OnOk result (HasChanged (facts_of self.old) (facts_of self.new) out.old out.new) }
        ensures broken { OnErr result (self.new.whole ≡ false) }
        ensures tests { OnOk result (AreFewTests self.old self.new out.old out.new steps.old steps.new) }
        ensures x_same { self.new.by_x.rank ≡ self.old.by_x.rank }
        ensures y_same { self.new.by_y.rank ≡ self.old.by_y.rank }
    {
        self.whole = false;
        leave_both(&mut self.by_x, &mut self.by_y, self.leaving)?;
        self.leaving = None;
        settle_both(
            &mut self.by_x,
            &mut self.by_y,
            &mut self.mail,
            now,
            failed,
            out,
            steps,
        )?;
        self.whole = true;
        Ok(())
    }
}
