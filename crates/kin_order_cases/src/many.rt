//! Many points in a kinetic list, through many failures.

ghost use Rattle.std.specs.Prelude.{◌≡◌, ◌<◌};

use kin_cases::failures::{Passed, next_failure};
use kin_cases::fault::Fault;
use kin_cases::keeping::Keeping;
use kin_cases::moments::at;
use kin_cases::random::{after_number, motion_for};
use kin_cases::watch::{Callers, Tally};
use kin_list::KinList;
use kin_motion::keep::Keep;
use kin_num::Steps;
use std::alloc::Global;
use std::marker::Brand;
use std::sync::ledger::{Blank, Ledger};
use std::test::Fail;

/// A list of the numbers below 64.
fn crowd<L: Ledger>(
    alloc: Global,
    tally: &Tally,
    steps: &mut Steps<L>,
) -> Result<Keeping<KinList>, Fault> {
    let along_x = Keep::Order { dx: 1, dy: 0 };
    let mut order = Keeping::new(alloc, &along_x, 6, &at(0))?;
    let mut seed = 1;
    for no in 0..64 {
        seed = after_number(seed);
        order = order.enter(no, motion_for(seed), tally, steps)?;
    }
    Ok(order)
}

/// A list of 64 points goes from failure to failure.
fn crowd_passes<L: Ledger>(alloc: Global, blank: Blank) -> Result<Passed, Fault>
    requires name { blank.name ≡ L.name }
    requires parts { blank.parts ≡ L.parts }
    requires some { 0 < L.parts }
{
    let mut steps = Steps::<Callers<L>>::open(blank);
    let tally = Tally::new();
    let mut order = crowd(alloc, &tally, &mut steps)?;
    let mut passed = 0;
    for turn in 0..200 {
        let Some(next) = next_failure(order.facts(), &order.now())? else {
            break;
        };
        order = order.go(&next, &tally, &mut steps)?;
        passed = turn + 1;
    }
    let (all, counted) = tally.take();
    Ok((passed, all, counted))
}

#[test]
fn a_list_of_64_asks_with_the_callers_counter_alone(rt: HostRuntime) -> Result<(), Fail> {
    let (passed, all, counted) = crowd_passes::<Brand>(rt.alloc(), Blank::new(1))?;
    assert_eq!(rt; passed, 200);
    assert!(rt; all >= 200);
    assert_eq!(rt; all, counted);
    Ok(())
}
