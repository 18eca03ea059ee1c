//! Failures that are neither listed nor counted are skipped, an instant at a time.
//!
//! Usually what fails at an instant fails just after it, too: a sign goes from + by 0 to -. Then the structures need
//! only one repair, and no fact that holds at that one instant alone is ever made.

ghost use Rattle.std.specs.Prelude.{◌≡◌, ◌↔◌, ◌+◌, IsTrue, false, OnOk};
ghost use Rattle.std.specs.List.{All};
ghost use Rattle.kin_num.specs.Order.{IsEarlier};
ghost use Rattle.kin_motion.specs.Course.{live_of};
ghost use Rattle.kin_motion.specs.Forms.{IsAskable};
ghost use Rattle.kin_motion.specs.Scene.{scene_at, Holds};
ghost use Rattle.kin_cert.specs.Taken.{IsLeastFailure};
ghost use Rattle.kin_world.specs.Upkeep.{stage_of, HasSameFrame, HasLanded, IsLanding, IsSound, is_line};

use crate::upkeep::Upkeep;
use kin_fail::{Now, Owned};
use kin_instant::order::compare_moments;
use kin_motion::{Form, Motions, Signs};
use kin_num::{Moment, NoMemory, Phase, Steps};
use std::alloc::Global;
use std::cmp::Ordering;
use std::mem::replace;
use std::sync::ledger::Ledger;

impl Upkeep {
    /// Moves to the least failure moment. From an instant it goes on to just after it, where none of
    /// the facts that failed holds again there and that isn't after the limit. Repairs all structures
    /// there.
    pub fn leap<L: Ledger>(
        &mut self,
        alloc: Global,
        due: &Moment,
        limit: &Moment,
        steps: &mut Steps<L>,
    ) -> Result<(), NoMemory>
        requires sound { IsSound (stage_of self.old) }
        requires failing { IsLeastFailure self.old.table.live due.now }
        requires within { ¬ (IsEarlier limit.now due.now) }
        ensures landed { OnOk result (HasLanded due.now limit.now (stage_of self.old) (stage_of self.new)) }
        ensures frame { HasSameFrame (record (stage_of self.old) { moment = self.new.moment }) (stage_of self.new) }
    {
        let mut given = replace(&mut self.given, Vec::new(alloc));
        self.table.give_failing(due, &mut given, steps)?;
        self.moment = landing(due, limit, &given, &self.motions, steps);
        self.repair_each(&given, steps)?;
        self.given = given;
        Ok(())
    }
}

// Where a leap lands over these facts, which fail at a moment.
fn landing<L: Ledger>(
    due: &Moment,
    limit: &Moment,
    given: &[Owned],
    motions: &Motions,
    steps: &mut Steps<L>,
) -> Moment
    requires askable { All (λ o. IsAskable (live_of motions.now) o.fact.form) given.now }
    ensures { IsLanding (scene_at motions.now) due.now limit.now given.now result }
{
    let Phase::At = due.phase else {
        return *due;
    };
    let after = Moment {
        at: due.at,
        phase: Phase::After,
    };
    if is_after(&after, limit, steps) {
        return *due;
    }
    let now = Now {
        motions,
        moment: &after,
    };
    if none_holds(given, &now, steps) {
        after
    } else {
        *due
    }
}

/// Whether the moment comes after the limit. Counts one step.
pub fn is_after<L: Ledger>(moment: &Moment, limit: &Moment, steps: &mut Steps<L>) -> bool
    ensures value { IsTrue result ↔ IsEarlier limit.now moment.now }
    ensures count { steps.new ≡ steps.old + 1 }
{
    compare_moments(moment, limit, steps) == Ordering::Greater
}

fn is_line(form: &Form) -> bool
    ensures { result ≡ is_line form.now }
{
    matches!(*form, Form::Line { .. })
}

// True only if none of these facts but lines holds now. Lines aren't asked: they cross 0 where they
// come to it.
fn none_holds<L: Ledger>(given: &[Owned], now: &Now, steps: &mut Steps<L>) -> bool
    requires { All (λ o. IsAskable (live_of now.now.motions.now) o.fact.form) given.now }
    ensures { IsTrue result → All (λ o. is_line o.fact.form ≡ false → ¬ (Holds (scene_at now.now.motions.now now.now.moment.now) o.fact)) given.now }
{
    for owned in given {
        let form = &owned.fact.form;
        if !is_line(form) && now.sign(form, steps) == owned.fact.sign {
            return false;
        }
    }
    true
}
