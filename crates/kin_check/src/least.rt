//! The first failure of several facts.

ghost use Rattle.std.specs.Prelude.{◌≡◌};
ghost use Rattle.std.specs.List.{All};
ghost use Rattle.kin_motion.specs.Course.{live_of};
ghost use Rattle.kin_motion.specs.Forms.{IsAskable};
ghost use Rattle.kin_motion.specs.Moments.{HoldsAt};
ghost use Rattle.kin_motion.specs.Scene.{scene_at};
ghost use Rattle.kin_fail.specs.Failures.{IsFirstFailure};
ghost use Rattle.kin_check.specs.Least.{IsLeastFailure, JoinsFailures};

use kin_fail::first_fail::first_fail;
use kin_instant::order::compare_moments;
use kin_motion::motion::Motions;
use kin_motion::poly::poly_of;
use kin_num::{Moment, Steps};
use kin_plain::keeps::Owned;
use std::cmp::Ordering;
use std::sync::ledger::Ledger;

/// The first failure of a fact that holds now, as these motions go on, or `None` exactly where there is none.
fn failure_of<L: Ledger>(
    fact: &Owned,
    motions: &Motions,
    now: &Moment,
    steps: &mut Steps<L>,
) -> Option<Moment>
    requires askable { IsAskable (live_of motions.now) fact.now.placed.fact.form }
    requires holds { HoldsAt (scene_at motions.now) now.now fact.now.placed.fact }
    ensures { IsFirstFailure (scene_at motions.now) now.now fact.now.placed.fact result }
{
    let fact = fact.placed().fact;
    let p = poly_of(&fact.form, motions);
    first_fail(&fact, &p, now, steps)
}

/// The first failure of some facts and of one more, by theirs and its own: the sooner one, if there is one.
fn sooner<L: Ledger>(
    one: Option<Moment>,
    other: Option<Moment>,
    steps: &mut Steps<L>,
) -> Option<Moment>
    ensures { JoinsFailures one other result }
{
    match (one, other) {
        (None, _) => other,
        (Some(_), None) => one,
        (Some(a), Some(b)) => match compare_moments(&b, &a, steps) {
            Ordering::Less => other,
            _ => one,
        },
    }
}

/// The first moment at which one of the facts doesn't hold, as these motions go on, or `None` exactly where there is none.
/// All of them hold now.
pub fn least_failure<L: Ledger>(
    facts: &[Owned],
    motions: &Motions,
    now: &Moment,
    steps: &mut Steps<L>,
) -> Option<Moment>
    requires askable { All (λ c. IsAskable (live_of motions.now) c.placed.fact.form) facts.now }
    requires hold { All (λ c. HoldsAt (scene_at motions.now) now.now c.placed.fact) facts.now }
    ensures { IsLeastFailure (scene_at motions.now) now.now facts.now result }
{
    let mut least = None;
    for fact in facts {
        let fails = failure_of(fact, motions, now, steps);
        least = sooner(least, fails, steps);
    }
    least
}
