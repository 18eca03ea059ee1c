//! When live facts fail.

ghost use Rattle.std.specs.Prelude.{◌≡◌, ◌<◌};

use crate::ask::is_askable;
use crate::fault::Fault;
use kin_fail::Now;
use kin_fail::first_fail::first_fail;
use kin_instant::order::compare_moments;
use kin_instant::sign::sign_at;
use kin_motion::fact::Placed;
use kin_motion::poly_of;
use kin_num::{Moment, Steps};
use std::cmp::Ordering;
use std::marker::Brand;
use std::sync::ledger::{Blank, Ledger};

/// How many failure moments were passed, and how often a sign was asked for: in all, and with the
/// caller's counter.
pub type Passed = (u32, u64, u64);

/// When a live fact fails first.
fn failure_of<L: Ledger>(
    fact: &Placed,
    now: &Now<'_>,
    blank: Blank,
) -> Result<Option<Moment>, Fault>
    requires name { blank.name ≡ L.name }
    requires parts { blank.parts ≡ L.parts }
    requires some { 0 < L.parts }
{
    let form = fact.fact.form;
    if !is_askable(&form, now.motions) {
        return Err(Fault::NotAskable);
    }
    let p = poly_of(&form, now.motions);
    let mut steps = Steps::<L>::open(blank);
    if sign_at(&p, now.moment, &mut steps) != fact.fact.sign {
        return Err(Fault::NotAskable);
    }
    Ok(first_fail(&fact.fact, &p, now.moment, &mut steps))
}

fn earlier_for<L: Ledger>(
    one: Option<Moment>,
    other: Option<Moment>,
    blank: Blank,
) -> Option<Moment>
    requires name { blank.name ≡ L.name }
    requires parts { blank.parts ≡ L.parts }
    requires some { 0 < L.parts }
{
    let (Some(m), Some(n)) = (one, other) else {
        return one.or(other);
    };
    match compare_moments(&m, &n, &mut Steps::<L>::open(blank)) {
        Ordering::Less => Some(m),
        _ => Some(n),
    }
}

/// The earlier of two moments, if there is one.
pub fn earlier(one: Option<Moment>, other: Option<Moment>) -> Option<Moment> {
    earlier_for::<Brand>(one, other, Blank::new(1))
}

/// When the first of these live facts fails.
pub fn next_failure(facts: &[Placed], now: &Now<'_>) -> Result<Option<Moment>, Fault> {
    let mut least = None;
    for fact in facts {
        let failure = failure_of::<Brand>(fact, now, Blank::new(1))?;
        least = earlier(least, failure);
    }
    Ok(least)
}
