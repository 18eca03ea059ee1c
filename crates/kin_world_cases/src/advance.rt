//! Calls that move to a later moment.

ghost use Rattle.std.specs.Prelude.{IsTrue, IfSome};
ghost use Rattle.kin_num.specs.Order.{IsEarlier};

use crate::script::{Lost, Time, form, moment};
use kin_fail::Failure;
use kin_instant::order::compare_moments;
use kin_num::{Moment, NoMemory, Steps};
use kin_world::World;
use std::cmp::Ordering;
use std::sync::ledger::Ledger;

fn are_lost(failures: &[Failure], lost: &[Lost]) -> bool {
    let same = |(failure, lost): (&Failure, &Lost)| {
        let ((structure, part), line, (before, after)) = *lost;
        *failure
            == Failure {
                structure,
                part,
                form: form(line),
                before,
                after,
            }
    };
    failures.len() == lost.len() && failures.iter().zip(lost).all(same)
}

/// The moment of a limit, if a step to it may be asked for.
fn limit_at<L: Ledger>(world: &World, limit: Time, steps: &mut Steps<L>) -> Option<Moment>
    ensures whole { IfSome result (λ _. IsTrue world.now.whole) }
    ensures later { IfSome result (λ m. ¬ (IsEarlier m world.now.moment)) }
{
    let limit = moment(limit)?;
    if !world.is_whole() || compare_moments(&limit, world.now(), steps) == Ordering::Less {
        return None;
    }
    Some(limit)
}

/// A step towards the limit stops at this time, with these failures.
pub fn stops<L: Ledger>(
    world: &mut World,
    limit: Time,
    time: Time,
    lost: &[Lost],
    steps: &mut Steps<L>,
) -> Result<bool, NoMemory> {
    let Some(limit) = limit_at(world, limit, steps) else {
        return Ok(false);
    };
    let Some(block) = world.step(&limit, steps)? else {
        return Ok(false);
    };
    let told = Some(block.moment) == moment(time) && are_lost(&block.failures, lost);
    Ok(told && world.is_whole() && Some(*world.now()) == moment(time))
}

/// A step to the limit passes nothing and moves there.
pub fn moves<L: Ledger>(
    world: &mut World,
    limit: Time,
    steps: &mut Steps<L>,
) -> Result<bool, NoMemory> {
    let Some(limit) = limit_at(world, limit, steps) else {
        return Ok(false);
    };
    let passed = world.step(&limit, steps)?;
    Ok(passed.is_none() && world.is_whole() && *world.now() == limit)
}

/// A step towards the limit that lists nothing stops at this time, where so many facts have failed.
pub fn passes<L: Ledger>(
    world: &mut World,
    limit: Time,
    time: Time,
    count: usize,
    steps: &mut Steps<L>,
) -> Result<bool, NoMemory> {
    let Some(limit) = limit_at(world, limit, steps) else {
        return Ok(false);
    };
    let passed = world.pass(&limit, steps)?;
    Ok(passed == Some(count) && world.is_whole() && Some(*world.now()) == moment(time))
}

/// At most a hundred steps lead to the limit.
pub fn runs<L: Ledger>(
    world: &mut World,
    limit: Time,
    steps: &mut Steps<L>,
) -> Result<bool, NoMemory> {
    for _ in 0..100 {
        let Some(limit) = limit_at(world, limit, steps) else {
            return Ok(false);
        };
        let passed = world.pass(&limit, steps)?;
        if passed.is_none() {
            return Ok(world.is_whole() && *world.now() == limit);
        }
    }
    Ok(false)
}

/// A leap towards the limit lands at this time, or moves there.
pub fn leaps<L: Ledger>(
    world: &mut World,
    limit: Time,
    time: Option<Time>,
    steps: &mut Steps<L>,
) -> Result<bool, NoMemory> {
    let Some(limit) = limit_at(world, limit, steps) else {
        return Ok(false);
    };
    let some = world.leap(&limit, steps)?;
    let there = match time {
        Some(time) => moment(time),
        None => Some(limit),
    };
    Ok(some == time.is_some() && world.is_whole() && Some(*world.now()) == there)
}
