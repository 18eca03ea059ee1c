//! The table takes over the change of a structure, as a list of dropped and born facts.

ghost use Rattle.std.specs.Prelude.{◌≡◌, ◌+◌, ◌-◌, ◌*◌, ◌^◌, ◌⊎◌, ◌↔◌, cond, length, Contains, Some, OnOk, IfOk, IsTrue, min};
ghost use Rattle.std.specs.List.{All, AllPairs};
ghost use Rattle.kin_motion.specs.declared.fact.Placed.{Placed as Put};
ghost use Rattle.kin_motion.specs.Course.{live_of};
ghost use Rattle.kin_motion.specs.Forms.{IsAskable};
ghost use Rattle.kin_motion.specs.Scene.{scene_at, Holds};
ghost use Rattle.kin_motion.specs.Kinetics.{AreDistinct};
ghost use Rattle.kin_cert.specs.Facts.{LiveFact, NoneAlike};
ghost use Rattle.kin_cert.specs.Applied.{IsOf, IsLiveIn, IsAmong, AreUnlike, MayApply, IsBorn, HasApplied};
ghost use Rattle.kin_cert.specs.Cost.{TakesAtMost, is_ungiven, ungiven, change_cost};
ghost use Rattle.kin_cert.specs.Layout.{HasBorn, HasTriedToReplace, IsLeftToApply, AreCounted, IsPaid, change_of};

use crate::table::Table;
use crate::timing::{time, unqueue};
use kin_motion::fact::{Delta, Placed};
use kin_motion::form::Form;
use kin_motion::motion::Motions;
use kin_num::{Moment, NoMemory, Steps};
use std::sync::ledger::Ledger;

/// Dropped and born facts that are still to be taken over.
#[derive(Clone, Copy)]
pub(crate) struct Pending<'a> {
    pub(crate) dropped: &'a [Placed],
    pub(crate) born: &'a [Placed],
}

impl Table {
    /// Takes over a structure's change: drops the dropped facts, which are live, and adds the born ones,
    /// each with its first failure under these motions from now. Each is listed once. A born fact holds now
    /// and may be asked for, and no fact of its form and part is live unless it is dropped. No other failure
    /// moment is made anew. After want of memory the table may not be used again.
    pub fn apply<L: Ledger>(
        &mut self,
        structure: u32,
        delta: &Delta,
        motions: &Motions,
        now: &Moment,
        steps: &mut Steps<L>,
    ) -> Result<(), NoMemory>
        requires change { MayApply structure delta.now self.old.live }
        requires askable { All (λ p. IsAskable (live_of motions.now) p.fact.form) delta.now.born }
        requires holds { All (λ p. Holds (scene_at motions.now now.now) p.fact) delta.now.born }
        ensures applied { OnOk result (HasApplied structure delta.now (scene_at motions.now) now.now self.old.live self.new.live) }
        ensures once { OnOk result (NoneAlike self.new.live) }
        ensures made { OnOk result (self.new.made ≡ min (self.old.made + length delta.now.born) (2 ^ 64 - 1)) }
        ensures cost { OnOk result (TakesAtMost (length self.old.live + length delta.now.born) (change_cost structure delta.now self.old.live) steps.old steps.new) }
    {
        let all = Pending {
            dropped: &delta.dropped,
            born: &delta.born,
        };
        let rest = self.replace_each(structure, all, motions, now, steps)?;
        self.drop_each(structure, rest.dropped, steps);
        self.bear_each(structure, rest.born, motions, now, steps)?;
        self.made = self.made.saturating_add(delta.born.len() as u64);
        Ok(())
    }

    // Replaces dropped facts by born ones, pair by pair. Where a pair doesn't fit, but the dropped fact and
    // the next born one do, the first born one goes by itself; else the dropped one does.
    fn replace_each<'a, L: Ledger>(
        &mut self,
        structure: u32,
        all: Pending<'a>,
        motions: &Motions,
        now: &Moment,
        steps: &mut Steps<L>,
    ) -> Result<Pending<'a>, NoMemory>
        requires change { MayApply structure (change_of all) self.old.live }
        requires askable { All (λ p. IsAskable (live_of motions.now) p.fact.form) all.born.now }
        requires holds { All (λ p. Holds (scene_at motions.now now.now) p.fact) all.born.now }
        ensures may { IfOk result (λ rest. MayApply structure (change_of rest) self.new.live) }
        ensures did { IfOk result (λ rest. IsLeftToApply structure (scene_at motions.now) now.now (change_of all.entry) self.old.live (change_of rest) self.new.live) }
        ensures askable { IfOk result (λ rest. All (λ p. IsAskable (live_of motions.now) p.fact.form) rest.born.now) }
        ensures holds { IfOk result (λ rest. All (λ p. Holds (scene_at motions.now now.now) p.fact) rest.born.now) }
        ensures made { OnOk result (self.new.made ≡ self.old.made) }
        ensures count { IfOk result (λ rest. AreCounted (change_of all.entry) self.old.live (change_of rest) self.new.live) }
        ensures cost { IfOk result (λ rest. IsPaid (length self.old.live + length all.entry.born.now) (change_cost structure (change_of all.entry) self.old.live) (change_cost structure (change_of rest) self.new.live) steps.old steps.new) }
    {
        let mut rest = all;
        while let Some((dropped, later_dropped)) = rest.dropped.split_first() {
            let Some((born, later_born)) = rest.born.split_first() else {
                return Ok(rest);
            };
            // Line/line pairs take a fast path, on which no kind is tested.
            let is_replaced = if is_line(dropped) && is_line(born) {
                self.replace(structure, dropped, born, motions, now, steps)?
            } else {
                self.replace_curve(structure, dropped, born, motions, now, steps)?
            };
            if is_replaced {
                rest = Pending {
                    dropped: later_dropped,
                    born: later_born,
                };
            } else if self.fits_next(structure, dropped, later_born)
                && self.is_free(structure, born)
            {
                self.bear_one(structure, born, motions, now, steps)?;
                rest.born = later_born;
            } else {
                self.drop_one(structure, dropped, steps);
                rest.dropped = later_dropped;
            }
        }
        Ok(rest)
    }

    // Replaces a dropped fact by a born one, if the roll can do so. In line, so that a caller that knows the
    // kinds of both forms doesn't test them again.
    #[inline(always)]
    fn replace<L: Ledger>(
        &mut self,
        structure: u32,
        dropped: &Placed,
        born: &Placed,
        motions: &Motions,
        now: &Moment,
        steps: &mut Steps<L>,
    ) -> Result<bool, NoMemory>
        requires live { IsLiveIn self.old.live structure dropped.now }
        requires askable { IsAskable (live_of motions.now) born.now.fact.form }
        requires holds { Holds (scene_at motions.now now.now) born.now.fact }
        ensures { IfOk result (λ is. HasTriedToReplace structure (scene_at motions.now) now.now dropped.now born.now is self.old self.new steps.old steps.new) }
    {
        let Some(vacancy) = self.roll.take_over(structure, dropped, born) else {
            return Ok(false);
        };
        unqueue(&mut self.schedule, vacancy, steps);
        self.names.note(vacancy.id)?;
        time(
            &mut self.roll,
            &mut self.schedule,
            vacancy.id,
            &born.fact,
            motions,
            now,
            steps,
        )?;
        Ok(true)
    }

    // The same for forms of any kind, in line on its own, so that two lines keep their fast path.
    #[inline(always)]
    fn replace_curve<L: Ledger>(
        &mut self,
        structure: u32,
        dropped: &Placed,
        born: &Placed,
        motions: &Motions,
        now: &Moment,
        steps: &mut Steps<L>,
    ) -> Result<bool, NoMemory>
        requires live { IsLiveIn self.old.live structure dropped.now }
        requires askable { IsAskable (live_of motions.now) born.now.fact.form }
        requires holds { Holds (scene_at motions.now now.now) born.now.fact }
        ensures { IfOk result (λ is. HasTriedToReplace structure (scene_at motions.now) now.now dropped.now born.now is self.old self.new steps.old steps.new) }
    {
        self.replace(structure, dropped, born, motions, now, steps)
    }

    // Whether the first of these born facts has the key of a dropped one.
    fn fits_next(&self, structure: u32, dropped: &Placed, born: &[Placed]) -> bool {
        match born.first() {
            Some(next) => self.roll.have_one_key(structure, dropped, next),
            None => false,
        }
    }

    // Whether no live fact has the owner and the form of a born one, as one that is still to be dropped may have.
    fn is_free(&self, structure: u32, born: &Placed) -> bool
        ensures { IsTrue result → (l : LiveFact) → Contains self.now.live l → ¬ (IsOf structure born.now l) }
    {
        self.sign_of(structure, born.part, &born.fact.form)
            .is_none()
    }

    // Drops the live fact that has this owner and form.
    #[inline(always)]
    fn drop_one<L: Ledger>(&mut self, structure: u32, placed: &Placed, steps: &mut Steps<L>)
        requires live { IsLiveIn self.old.live structure placed.now }
        ensures once { NoneAlike self.old.live }
        ensures rest { (l : LiveFact) → Contains self.new.live l ↔ (Contains self.old.live l × ¬ (IsOf structure placed.now l)) }
        ensures count { length self.new.live + 1 ≡ length self.old.live }
        ensures made { self.new.made ≡ self.old.made }
        ensures cost { TakesAtMost (length self.old.live) (λ r. cond (is_ungiven structure self.old.live placed.now) r 0) steps.old steps.new }
    {
        let vacancy = self
            .roll
            .take_out(structure, placed.part, &placed.fact.form);
        unqueue(&mut self.schedule, vacancy, steps);
        // Without memory for it the index is given up, and gathered again when it is asked for.
        let _ = self.names.note(vacancy.id);
    }

    // Drops these live facts.
    fn drop_each<L: Ledger>(&mut self, structure: u32, dropped: &[Placed], steps: &mut Steps<L>)
        requires live { All (IsLiveIn self.old.live structure) dropped.now }
        requires once { AreDistinct dropped.now }
        ensures rest { (l : LiveFact) → Contains self.new.live l ↔ (Contains self.old.live l × ¬ (IsAmong structure dropped.now l)) }
        ensures count { length self.new.live + length dropped.now ≡ length self.old.live }
        ensures made { self.new.made ≡ self.old.made }
        ensures cost { TakesAtMost (length self.old.live) (λ r. ungiven structure self.old.live dropped.now * r) steps.old steps.new }
    {
        let _ = self.roll.len();
        for placed in dropped {
            self.drop_one(structure, placed, steps);
        }
    }

    // Adds these facts, each with its first failure.
    fn bear_each<L: Ledger>(
        &mut self,
        structure: u32,
        born: &[Placed],
        motions: &Motions,
        now: &Moment,
        steps: &mut Steps<L>,
    ) -> Result<(), NoMemory>
        requires free { (l : LiveFact) → Contains self.old.live l → ¬ (IsAmong structure born.now l) }
        requires once { AllPairs AreUnlike born.now }
        requires askable { All (λ p. IsAskable (live_of motions.now) p.fact.form) born.now }
        requires holds { All (λ p. Holds (scene_at motions.now now.now) p.fact) born.now }
        ensures kept { OnOk result ((l : LiveFact) → Contains self.old.live l → Contains self.new.live l) }
        ensures born { OnOk result ((p : Put) → Contains born.now p → (l : LiveFact) × Contains self.new.live l × IsBorn structure (scene_at motions.now) now.now p l) }
        ensures only { OnOk result ((l : LiveFact) → Contains self.new.live l → Contains self.old.live l ⊎ ((p : Put) × Contains born.now p × IsBorn structure (scene_at motions.now) now.now p l)) }
        ensures once { OnOk result (NoneAlike self.new.live) }
        ensures count { OnOk result (length self.new.live ≡ length self.old.live + length born.now) }
        ensures made { OnOk result (self.new.made ≡ self.old.made) }
        ensures cost { OnOk result (TakesAtMost (length self.old.live + length born.now) (λ r. length born.now * (r + 1)) steps.old steps.new) }
    {
        for placed in born {
            self.bear_one(structure, placed, motions, now, steps)?;
        }
        let _ = self.roll.len();
        Ok(())
    }

    // Adds a fact with its first failure.
    fn bear_one<L: Ledger>(
        &mut self,
        structure: u32,
        placed: &Placed,
        motions: &Motions,
        now: &Moment,
        steps: &mut Steps<L>,
    ) -> Result<(), NoMemory>
        requires free { (l : LiveFact) → Contains self.old.live l → ¬ (IsOf structure placed.now l) }
        requires askable { IsAskable (live_of motions.now) placed.now.fact.form }
        requires holds { Holds (scene_at motions.now now.now) placed.now.fact }
        ensures gained { OnOk result (HasBorn structure (scene_at motions.now) now.now placed.now self.old.live self.new.live) }
        ensures count { OnOk result (length self.new.live ≡ length self.old.live + 1) }
        ensures made { self.new.made ≡ self.old.made }
        ensures cost { OnOk result (TakesAtMost (length self.old.live) (λ r. r + 1) steps.old steps.new) }
    {
        let id = self.roll.put_in(structure, placed)?;
        self.names.note(id)?;
        time(
            &mut self.roll,
            &mut self.schedule,
            id,
            &placed.fact,
            motions,
            now,
            steps,
        )?;
        Ok(())
    }
}

fn is_line(placed: &Placed) -> bool {
    matches!(placed.fact.form, Form::Line { .. })
}
