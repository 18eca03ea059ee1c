//! Many boxes through many failures, against a computation by signs.

ghost use Rattle.std.specs.Prelude.{◌≡◌, ◌<◌};

use kin_boxes::KinBoxes;
use kin_cases::ask::Sight;
use kin_cases::failures::{Passed, next_failure};
use kin_cases::fault::Fault;
use kin_cases::keeping::Keeping;
use kin_cases::moments::at;
use kin_cases::random::{after_number, motion_for};
use kin_cases::watch::{Callers, Tally};
use kin_fail::Now;
use kin_motion::form::Form;
use kin_motion::keep::Keep;
use kin_num::{Sign, Steps};
use std::alloc::Global;
use std::marker::Brand;
use std::sync::ledger::{Blank, Ledger};
use std::test::Fail;

/// Boxes 300 wide and 200 high, of the numbers below 64.
fn crowd<L: Ledger>(
    alloc: Global,
    tally: &Tally,
    steps: &mut Steps<L>,
) -> Result<Keeping<KinBoxes>, Fault> {
    let mut boxes = Keeping::new(alloc, &Keep::Boxes { w: 300, h: 200 }, 6, &at(0))?;
    let mut seed = 7;
    for no in 0..64 {
        seed = after_number(seed);
        boxes = boxes.enter(no, motion_for(seed), tally, steps)?;
    }
    Ok(boxes)
}

/// Whether the box of point j, this long along a direction, reaches point i.
fn reaches(now: &Now<'_>, way: (i32, i32), size: i32, i: u32, j: u32) -> Result<bool, Fault> {
    let (dx, dy) = way;
    let form = Form::Line {
        dx,
        dy,
        off: size,
        i,
        j,
    };
    Ok(Sight::at(now).sign(&form)? != Sign::Minus)
}

/// Whether the boxes of two points overlap.
fn overlap(now: &Now<'_>, i: u32, j: u32) -> Result<bool, Fault> {
    let (x, y) = ((1, 0), (0, 1));
    Ok(
        reaches(now, x, 300, i, j)?
            && reaches(now, x, 300, j, i)?
            && reaches(now, y, 200, i, j)?
            && reaches(now, y, 200, j, i)?,
    )
}

/// The pairs of numbers below 64 whose boxes overlap, pair after pair.
fn overlaps(alloc: Global, now: &Now<'_>) -> Result<Vec<u32>, Fault> {
    let mut both = Vec::new(alloc);
    for i in 0..64 {
        for j in i + 1..64 {
            if overlap(now, i, j)? {
                both.push(i).map_err(|_| Fault::NoMemory)?;
                both.push(j).map_err(|_| Fault::NoMemory)?;
            }
        }
    }
    Ok(both)
}

/// The boxes go through 300 failures, and at every tenth their overlaps are those by signs.
fn crowd_passes<L: Ledger>(alloc: Global, blank: Blank) -> Result<Passed, Fault>
    requires name { blank.name ≡ L.name }
    requires parts { blank.parts ≡ L.parts }
    requires some { 0 < L.parts }
{
    let mut steps = Steps::<Callers<L>>::open(blank);
    let tally = Tally::new();
    let mut boxes = crowd(alloc, &tally, &mut steps)?;
    let mut passed = 0;
    for turn in 0..300 {
        let Some(next) = next_failure(boxes.facts(), &boxes.now())? else {
            break;
        };
        boxes = boxes.go(&next, &tally, &mut steps)?;
        if turn % 10 == 0 && boxes.answer()? != overlaps(alloc, &boxes.now())? {
            return Err(Fault::Differs);
        }
        passed = turn + 1;
    }
    let (all, counted) = tally.take();
    Ok((passed, all, counted))
}

#[test]
fn the_overlaps_of_64_boxes_are_those_by_signs(rt: HostRuntime) -> Result<(), Fail> {
    let (passed, all, counted) = crowd_passes::<Brand>(rt.alloc(), Blank::new(1))?;
    assert_eq!(rt; passed, 300);
    assert!(rt; all >= 300);
    assert_eq!(rt; all, counted);
    Ok(())
}
