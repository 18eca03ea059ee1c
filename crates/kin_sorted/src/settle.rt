//! A whole settle: the members are brought into their order, and the change of the facts is reported.

ghost use Rattle.std.specs.Prelude.{◌≡◌, ◌+◌, ◌≤◌, ◌^◌, [], OnOk};
ghost use Rattle.kin_motion.specs.Kinetics.{ListsFailing};
ghost use Rattle.kin_motion.specs.Scene.{IsReal};
ghost use Rattle.kin_sorted.specs.Links.{facts_from};
ghost use Rattle.kin_sorted.specs.Lineups.{IsRenewed};
ghost use Rattle.kin_sorted.specs.Marks.{AreMarks, marked, names_gone};
ghost use Rattle.kin_motion.specs.Ranks.{AreLive};
ghost use Rattle.kin_sorted.specs.Repairs.{IsHeld};
ghost use Rattle.kin_sorted.specs.Sorting.{unmarked, marks_for};

use crate::lineup::Lineup;
use crate::marks::Marks;
use crate::ranked::Ranked;
use crate::report::report;
use crate::single::Single;
use kin_motion::fact::{Delta, Placed};
use kin_motion::signs::Signs;
use kin_num::memory::NoMemory;
use kin_num::steps::Steps;
use std::sync::ledger::Ledger;

impl Lineup {
    /// Settles, with the marks carried out.
    #[inline(always)]
    pub fn settle<R: Ranked, O: Signs, L: Ledger>(
        &mut self,
        marks: &mut Marks,
        rank: &R,
        part: u32,
        now: &O,
        failed: &[Placed],
        out: &mut Delta,
        steps: &mut Steps<L>,
    ) -> Result<(), NoMemory>
        requires parts { part + (R.ranks rank.now).parts ≤ 2 ^ 32 }
        requires real { IsReal (O.scene now.now) }
        requires held { IsHeld (R.ranks rank.now) self.old.row.links self.old.row.items self.old.row.signs [] [] }
        requires marks { AreMarks marks.old self.old.row.room self.old.row.items }
        requires live { AreLive (O.scene now.now) (R.ranks rank.now) (marked marks.old self.old.row.items) }
        requires failing { ListsFailing (facts_from (R.ranks rank.now) 0 self.old.row.links)
            (names_gone (R.ranks rank.now) marks.old self.old.row.items) (O.scene now.now) failed.now }
        ensures renewed { OnOk result (IsRenewed (O.scene now.now) (R.ranks rank.now) marks.old part self.old.row self.new.row self.new.swaps.items out.old out.new steps.old steps.new) }
        ensures unmarked { OnOk result (marks.new ≡ unmarked) }
        ensures room { self.new.row.room ≡ self.old.row.room }
    {
        self.arrange(marks, rank, failed, now, steps)?;
        report(&mut self.row, &self.touched, part, rank, out)
    }

    /// Settles where at most one item enters or leaves.
    #[inline(always)]
    pub fn settle_one<R: Ranked, O: Signs, L: Ledger>(
        &mut self,
        single: Single,
        rank: &R,
        part: u32,
        now: &O,
        failed: &[Placed],
        out: &mut Delta,
        steps: &mut Steps<L>,
    ) -> Result<(), NoMemory>
        requires parts { part + (R.ranks rank.now).parts ≤ 2 ^ 32 }
        requires real { IsReal (O.scene now.now) }
        requires held { IsHeld (R.ranks rank.now) self.old.row.links self.old.row.items self.old.row.signs [] [] }
        requires marks { AreMarks (marks_for single) self.old.row.room self.old.row.items }
        requires live { AreLive (O.scene now.now) (R.ranks rank.now) (marked (marks_for single) self.old.row.items) }
        requires failing { ListsFailing (facts_from (R.ranks rank.now) 0 self.old.row.links)
            (names_gone (R.ranks rank.now) (marks_for single) self.old.row.items) (O.scene now.now) failed.now }
        ensures renewed { OnOk result
            (IsRenewed (O.scene now.now) (R.ranks rank.now) (marks_for single) part self.old.row self.new.row self.new.swaps.items
            out.old out.new steps.old steps.new) }
        ensures room { self.new.row.room ≡ self.old.row.room }
    {
        self.arrange_one(single, rank, failed, now, steps)?;
        report(&mut self.row, &self.touched, part, rank, out)
    }
}
