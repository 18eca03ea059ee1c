//! When new facts fail first.

ghost use Rattle.std.specs.Prelude.{◌≡◌, ℕ, ◌+◌, ◌*◌, ◌/◌, cond, length, Contains, None, OnOk, OnErr, IsSome, is_some};
ghost use Rattle.std.specs.FinMap as map;
ghost use Rattle.kin_num.specs.Instants.{sign_at};
ghost use Rattle.kin_motion.specs.Course.{live_of};
ghost use Rattle.kin_motion.specs.Forms.{IsAskable};
ghost use Rattle.kin_motion.specs.Scene.{scene_at, Holds};
ghost use Rattle.kin_fail.specs.Failures.{seen_by};
ghost use Rattle.kin_cert.specs.Layout.{entry_at, live_in, IsTable, IsTimedFact};
ghost use Rattle.kin_cert.specs.Cost.{TakesAtMost};
ghost use Rattle.kin_cert.specs.Names.{HaveSameFacts, MayRenew, HasRenewed, AreRenewed};

use crate::entry::Vacancy;
use crate::roll::Roll;
use crate::schedule::Schedule;
use kin_fail::first_fail::first_fail;
use kin_motion::fact::Fact;
use kin_motion::form::Form;
use kin_motion::motion::Motions;
use kin_motion::poly::{poly_of, poly_of_line};
use kin_num::{Moment, NoMemory, Poly, Steps};
use std::sync::ledger::Ledger;

/// Finds out when the new fact of an id fails first, and puts the id in the schedule if it ever does.
/// It is made in line for lines.
#[inline(always)]
pub(crate) fn time<L: Ledger>(
    roll: &mut Roll,
    schedule: &mut Schedule,
    id: usize,
    fact: &Fact,
    motions: &Motions,
    now: &Moment,
    steps: &mut Steps<L>,
) -> Result<(), NoMemory>
    requires there { IsSome (entry_at roll.old id) }
    requires absent { map.get schedule.old id ≡ None }
    requires askable { IsAskable (live_of motions.now) fact.now.form }
    requires holds { Holds (scene_at motions.now now.now) fact.now }
    ensures ok { OnOk result (IsTimedFact (scene_at motions.now) now.now fact.now id roll.old schedule.old roll.new schedule.new) }
    ensures roll { OnErr result (roll.new ≡ roll.old) }
    ensures schedule { OnErr result (schedule.new ≡ schedule.old) }
    ensures cost { OnOk result (TakesAtMost (map.len schedule.old) (λ r. r + 1) steps.old steps.new) }
{
    match fact.form {
        Form::Line { dx, dy, off, i, j } => {
            let p = poly_of_line(motions, dx, dy, off, i, j);
            time_by(roll, schedule, id, fact, &p, now, steps)
        }
        _ => time_curve(roll, schedule, id, fact, motions, now, steps),
    }
}

// The same for a form of any degree, in line on its own, so that a line's degree is known.
#[inline(always)]
fn time_curve<L: Ledger>(
    roll: &mut Roll,
    schedule: &mut Schedule,
    id: usize,
    fact: &Fact,
    motions: &Motions,
    now: &Moment,
    steps: &mut Steps<L>,
) -> Result<(), NoMemory>
    requires there { IsSome (entry_at roll.old id) }
    requires absent { map.get schedule.old id ≡ None }
    requires askable { IsAskable (live_of motions.now) fact.now.form }
    requires holds { Holds (scene_at motions.now now.now) fact.now }
    ensures ok { OnOk result (IsTimedFact (scene_at motions.now) now.now fact.now id roll.old schedule.old roll.new schedule.new) }
    ensures roll { OnErr result (roll.new ≡ roll.old) }
    ensures schedule { OnErr result (schedule.new ≡ schedule.old) }
    ensures cost { OnOk result (TakesAtMost (map.len schedule.old) (λ r. r + 1) steps.old steps.new) }
{
    let p = poly_of(&fact.form, motions);
    time_by(roll, schedule, id, fact, &p, now, steps)
}

// The same, where `p` is the polynomial of the fact's form.
#[inline(always)]
fn time_by<L: Ledger>(
    roll: &mut Roll,
    schedule: &mut Schedule,
    id: usize,
    fact: &Fact,
    p: &Poly,
    now: &Moment,
    steps: &mut Steps<L>,
) -> Result<(), NoMemory>
    requires there { IsSome (entry_at roll.old id) }
    requires absent { map.get schedule.old id ≡ None }
    requires holds { sign_at p.now now.now ≡ fact.now.sign }
    ensures ok { OnOk result (IsTimedFact (seen_by p.now) now.now fact.now id roll.old schedule.old roll.new schedule.new) }
    ensures roll { OnErr result (roll.new ≡ roll.old) }
    ensures schedule { OnErr result (schedule.new ≡ schedule.old) }
    ensures cost { OnOk result (TakesAtMost (map.len schedule.old) (λ r. r + 1) steps.old steps.new) }
{
    let Some(at) = first_fail(fact, p, now, steps) else {
        return Ok(());
    };
    schedule.insert(id, &at, steps)?;
    roll.set_failure(id, &at);
    Ok(())
}

/// Takes out the id of a fact that is gone, if the schedule has it.
#[inline(always)]
pub(crate) fn unqueue<L: Ledger>(schedule: &mut Schedule, vacancy: Vacancy, steps: &mut Steps<L>)
    requires { is_some (map.get schedule.old vacancy.id) ≡ vacancy.is_queued }
    ensures rest { schedule.new ≡ map.remove schedule.old vacancy.id }
    ensures cost { TakesAtMost (map.len schedule.old) (λ r. cond vacancy.is_queued r 0) steps.old steps.new }
{
    if vacancy.is_queued {
        schedule.remove(vacancy.id, steps);
    }
}

/// Makes the failure moments of the live facts anew whose ids have these slots.
pub(crate) fn time_each<L: Ledger>(
    roll: &mut Roll,
    schedule: &mut Schedule,
    slots: &[u32],
    motions: &Motions,
    now: &Moment,
    steps: &mut Steps<L>,
) -> Result<(), NoMemory>
    requires table { IsTable roll.old schedule.old }
    requires may { (s : ℕ) → Contains slots.now s → MayRenew (live_of motions.now) (scene_at motions.now now.now) roll.old (s / 4) }
    ensures renewed { OnOk result (AreRenewed (scene_at motions.now) now.now slots.now roll.old roll.new) }
    ensures table { IsTable roll.new schedule.new }
    ensures facts { HaveSameFacts roll.old roll.new }
    ensures cost { OnOk result (TakesAtMost (length (live_in roll.old)) (λ r. length slots.now * (2 * r + 1)) steps.old steps.new) }
{
    for slot in slots {
        time_anew(roll, schedule, (*slot / 4) as usize, motions, now, steps)?;
    }
    Ok(())
}

// Makes the failure moment of a live fact anew.
fn time_anew<L: Ledger>(
    roll: &mut Roll,
    schedule: &mut Schedule,
    id: usize,
    motions: &Motions,
    now: &Moment,
    steps: &mut Steps<L>,
) -> Result<(), NoMemory>
    requires table { IsTable roll.old schedule.old }
    requires may { MayRenew (live_of motions.now) (scene_at motions.now now.now) roll.old id }
    ensures renewed { OnOk result (HasRenewed (scene_at motions.now) now.now roll.old id roll.new) }
    ensures table { IsTable roll.new schedule.new }
    ensures facts { HaveSameFacts roll.old roll.new }
    ensures cost { OnOk result (TakesAtMost (length (live_in roll.old)) (λ r. 2 * r + 1) steps.old steps.new) }
{
    let (owned, vacancy) = roll.free(id);
    unqueue(schedule, vacancy, steps);
    time(roll, schedule, id, &owned.fact, motions, now, steps)?;
    Ok(())
}
