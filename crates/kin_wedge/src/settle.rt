//! The eight lists settle one after another.

ghost use Rattle.std.specs.Prelude.{◌≡◌, ℕ, ◌<◌, ◌≤◌, Some, [], false, true, slice_get, length, OnOk};
ghost use Rattle.kin_motion.specs.Kinetics.{ListsFailing, HasChanged};
ghost use Rattle.kin_motion.specs.Numbers.{is_in};
ghost use Rattle.kin_motion.specs.Scene.{IsReal};
ghost use Rattle.kin_list.specs.Listing.{Listing};
ghost use Rattle.kin_list.specs.declared.mark.Mark.TheVariants.{Rest, Enters, Leaves};
ghost use Rattle.kin_list.specs.Listing.{IsReadyListing, names_leaving};
ghost use Rattle.kin_wedge.specs.Costs.{AreFewBelow};
ghost use Rattle.kin_wedge.specs.Parts.{facts_from, told_to, AreAtNought, AreQuiet, EachTo, IsMarked, IsResettled, StandsStill};
ghost use Rattle.kin_wedge.specs.Seen.{rows_of};

use crate::orders::Orders;
use crate::part::settle_list;
use kin_list::Mark;
use kin_motion::fact::{Delta, Placed};
use kin_motion::signs::Signs;
use kin_num::memory::NoMemory;
use kin_num::steps::Steps;
use std::sync::ledger::Ledger;

impl Orders {
    /// Marks a number as entering in each list.
    pub fn insert(&mut self, no: u32) -> Result<(), NoMemory>
        requires rest { (part : ℕ) (l : Listing) → slice_get self.old.lists.items part ≡ Some l → l.mark ≡ Rest }
        requires within { (part : ℕ) (l : Listing) → slice_get self.old.lists.items part ≡ Some l → no < l.room }
        requires new { (part : ℕ) (l : Listing) → slice_get self.old.lists.items part ≡ Some l → is_in no l.items ≡ false }
        requires count { length self.old.lists.items ≡ 8 }
        ensures { OnOk result (EachTo (IsMarked (Enters no)) self.old.lists.items self.new.lists.items) }
    {
        for part in 0..8 {
            self.lists[part].insert(no)?;
        }
        Ok(())
    }

    /// Marks a number as leaving in each list.
    pub fn remove(&mut self, no: u32)
        requires rest { (part : ℕ) (l : Listing) → slice_get self.old.lists.items part ≡ Some l → l.mark ≡ Rest }
        requires member { (part : ℕ) (l : Listing) → slice_get self.old.lists.items part ≡ Some l → is_in no l.items ≡ true }
        requires count { length self.old.lists.items ≡ 8 }
        ensures { EachTo (IsMarked (Leaves no)) self.old.lists.items self.new.lists.items }
    {
        for part in 0..8 {
            self.lists[part].remove(no);
        }
    }

    /// Lets each list forget the exchanges of the last settle.
    fn stand_still(&mut self)
        requires { length self.old.lists.items ≡ 8 }
        ensures { EachTo StandsStill self.old.lists.items self.new.lists.items }
    {
        for part in 0..8 {
            self.lists[part].stand_still();
        }
    }

    /// All lists with work are of the parts from the first of these to before the second. With a mark all
    /// have work.
    pub fn span(&self, mark: Mark) -> (usize, usize)
        ensures from { result.0 ≤ 8 }
        ensures end { result.1 ≤ 8 }
        ensures before { (part : ℕ) → part < result.0 → (mark ≡ Rest) × (told_to self.now.mail.boxes.items part ≡ []) }
        ensures behind { (part : ℕ) → result.1 ≤ part → part < 8 → (mark ≡ Rest) × (told_to self.now.mail.boxes.items part ≡ []) }
    {
        match mark {
            Mark::Rest => self.mail.span(),
            _ => (0, 8),
        }
    }

    /// Settles all lists, which have this mark. Each gets those of the failed facts that are in its part,
    /// and one without any and without a mark only forgets its exchanges.
    pub fn settle<O: Signs, L: Ledger>(
        &mut self,
        mark: Mark,
        now: &O,
        failed: &[Placed],
        out: &mut Delta,
        steps: &mut Steps<L>,
    ) -> Result<(), NoMemory>
        requires real { IsReal (O.scene now.now) }
        requires marked { (part : ℕ) (l : Listing) → slice_get self.old.lists.items part ≡ Some l → l.mark ≡ mark }
        requires ready { (part : ℕ) (l : Listing) → slice_get self.old.lists.items part ≡ Some l → IsReadyListing l (O.scene now.now) }
        requires nought { (part : ℕ) (l : Listing) → slice_get self.old.lists.items part ≡ Some l → AreAtNought l.facts }
        requires failing { ListsFailing (facts_from 0 self.old.lists.items) (names_leaving mark) (O.scene now.now) failed.now }
        requires count { length self.old.lists.items ≡ 8 }
        ensures settled { OnOk result (EachTo (IsResettled (O.scene now.now)) self.old.lists.items self.new.lists.items) }
        ensures quiet { OnOk result (AreQuiet mark self.new.mail.boxes.items self.new.lists.items) }
        ensures delta { OnOk result (HasChanged (facts_from 0 self.old.lists.items) (facts_from 0 self.new.lists.items) out.old out.new) }
        ensures tests { OnOk result (AreFewBelow 8 mark (rows_of self.old.lists.items) (rows_of self.new.lists.items) out.old out.new steps.old steps.new) }
    {
        self.stand_still();
        self.mail.sort(failed)?;
        let (from, end) = self.span(mark);
        for part in from..end {
            let list = &mut self.lists[part];
            let part = part as u32;
            settle_list(list, part, self.mail.told(part), now, out, steps)?;
        }
        Ok(())
    }
}
