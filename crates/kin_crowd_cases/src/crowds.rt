//! Octants of points in special places, and of many points through many failures.

ghost use Rattle.std.specs.Prelude.{◌≡◌, ◌<◌};

use crate::around::{agree, candidates};
use kin_cases::failures::{Passed, next_failure};
use kin_cases::fault::Fault;
use kin_cases::moments::{after, at};
use kin_cases::octants::Octants;
use kin_cases::random::{after_number, motion_for};
use kin_cases::watch::{Callers, Tally};
use kin_cases::written::motions;
use kin_motion::Motions;
use kin_num::{Moment, Steps};
use std::alloc::Global;
use std::marker::Brand;
use std::sync::ledger::{Blank, Ledger};
use std::test::Fail;

/// The candidates of a point in the octants 0 to 7.
type Around = [Option<u32>; 8];

fn around(octants: &Octants, apex: u32) -> Around {
    let at = |octant: u32| octants.candidate(apex, octant);
    [at(0), at(1), at(2), at(3), at(4), at(5), at(6), at(7)]
}

/// The points below 8 that have motions, which enter at 0 one after the other.
fn points<L: Ledger>(
    alloc: Global,
    motions: &Motions,
    tally: &Tally,
    steps: &mut Steps<L>,
) -> Result<Octants, Fault> {
    let start = at(0);
    let mut octants = Octants::new(alloc, 3)?;
    for no in 0..8 {
        if let Some(motion) = motions.get(no) {
            octants = octants.enter(no, motion)?.go(&start, tally, steps)?;
        }
    }
    Ok(octants)
}

fn still_points<L: Ledger>(alloc: Global, motions: &Motions, blank: Blank) -> Result<Octants, Fault>
    requires name { blank.name ≡ L.name }
    requires parts { blank.parts ≡ L.parts }
    requires some { 0 < L.parts }
{
    let mut steps = Steps::<L>::open(blank);
    points(alloc, motions, &Tally::new(), &mut steps)
}

/// The points that are written, with a counter that is made here.
fn written_points(alloc: Global, text: &str) -> Result<Octants, Fault> {
    let (motions, _) = motions(alloc, text)?;
    still_points::<Brand>(alloc, &motions, Blank::new(1))
}

#[test]
fn the_unit_square(rt: HostRuntime) -> Result<(), Fail> {
    let octants = written_points(rt.alloc(), "0 0 0 0, 1 0 0 0, 1 1 0 0, 0 1 0 0")?;
    let wanted = [
        (0, 0, Some(1)),
        (0, 1, Some(3)),
        (0, 2, None),
        (2, 3, Some(3)),
        (2, 4, Some(0)),
        (2, 5, Some(1)),
    ];
    for (apex, octant, candidate) in wanted {
        assert_eq!(rt;
            octants.candidate(apex, octant),
            candidate,
            "{apex} {octant}"
        );
    }
    assert_eq!(rt; octants.hits(3)?.as_slice(), [1, 10, 19].as_slice());
    Ok(())
}

#[test]
fn a_point_at_the_same_place_is_in_octant_0_or_4_by_its_number(
    rt: HostRuntime,
) -> Result<(), Fail> {
    let octants = written_points(rt.alloc(), "3 4 0 0, 3 4 0 0, 3 4 0 0")?;
    let no = None;
    let wanted = [
        (0, [Some(1), no, no, no, no, no, no, no]),
        (1, [Some(2), no, no, no, Some(0), no, no, no]),
        (2, [no, no, no, no, Some(1), no, no, no]),
    ];
    for (apex, candidates) in wanted {
        assert_eq!(rt; around(&octants, apex), candidates, "{apex}");
    }
    Ok(())
}

/// On the border y = 0 of octant 0 the greater number is in it, and the lesser one in octant 7; on
/// the border x = y the lesser one is in octant 1.
#[test]
fn a_point_on_a_border_is_in_one_octant_by_its_number(rt: HostRuntime) -> Result<(), Fail> {
    let points = "4 0 0 0, 6 6 0 0, 0 0 0 0, 5 0 0 0, 7 7 0 0";
    let octants = written_points(rt.alloc(), points)?;
    let no = None;
    assert_eq!(rt;
        around(&octants, 2),
        [Some(3), Some(1), no, no, no, no, no, Some(0)]
    );
    Ok(())
}

/// What is seen of two points: of each its candidates, and the slots that have changed.
type Told = (Around, Around, Vec<u32>);

fn told(octants: &Octants) -> Result<Told, Fault> {
    Ok((around(octants, 0), around(octants, 1), octants.changed()?))
}

/// Point 0 runs into point 1 at 5 and through it, and all eight orders exchange them just after 5.
/// Point 2 is far to the right, and may leave just after 5.
fn meeting_by<L: Ledger>(alloc: Global, leaves: bool, blank: Blank) -> Result<[Told; 2], Fault>
    requires name { blank.name ≡ L.name }
    requires parts { blank.parts ≡ L.parts }
    requires some { 0 < L.parts }
{
    let mut steps = Steps::<L>::open(blank);
    let tally = Tally::new();
    let (three, _) = motions(alloc, "0 0 1 1, 5 5 0 0, 100 0 0 0")?;
    let octants = points(alloc, &three, &tally, &mut steps)?;
    let octants = octants.go(&at(5), &tally, &mut steps)?;
    let meet = told(&octants)?;
    let octants = if leaves { octants.leave(2)? } else { octants };
    let octants = octants.go(&after(5), &tally, &mut steps)?;
    Ok([meet, told(&octants)?])
}

/// The same with a counter that is made here.
fn meeting(alloc: Global, leaves: bool) -> Result<[Told; 2], Fault> {
    meeting_by::<Brand>(alloc, leaves, Blank::new(1))
}

#[test]
fn two_points_that_all_orders_exchange_at_one_moment(rt: HostRuntime) -> Result<(), Fail> {
    let [meet, part] = meeting(rt.alloc(), false)?;
    let no = None;
    assert_eq!(rt; meet.0, [Some(1), no, no, no, no, no, no, Some(2)]);
    assert_eq!(rt; meet.1, [no, no, no, no, Some(0), no, no, Some(2)]);
    assert_eq!(rt; part.0, [no, no, no, no, no, Some(1), no, Some(2)]);
    assert_eq!(rt; part.1, [no, Some(0), no, no, no, no, no, Some(2)]);
    assert_eq!(rt; part.2.as_slice(), [0, 5, 9, 12].as_slice());
    Ok(())
}

#[test]
fn a_point_leaves_while_others_exchange(rt: HostRuntime) -> Result<(), Fail> {
    let [_, part] = meeting(rt.alloc(), true)?;
    let no = None;
    assert_eq!(rt; part.0, [no, no, no, no, no, Some(1), no, no]);
    assert_eq!(rt; part.1, [no, Some(0), no, no, no, no, no, no]);
    assert_eq!(rt; part.2.as_slice(), [0, 5, 7, 9, 12, 15, 19].as_slice());
    Ok(())
}

/// Octants of the numbers below 64 at a moment, and their candidates by signs.
#[derive(Drop)]
struct Crowd {
    octants: Octants,
    now: Moment,
    found: Vec<Option<u32>>,
}

/// Points that look random, which enter at 0 one after the other.
fn entered<L: Ledger>(alloc: Global, tally: &Tally, steps: &mut Steps<L>) -> Result<Crowd, Fault> {
    let now = at(0);
    let mut octants = Octants::new(alloc, 6)?;
    let mut seed = 1;
    for no in 0..64 {
        seed = after_number(seed);
        octants = octants.enter(no, motion_for(seed))?.go(&now, tally, steps)?;
    }
    let found = candidates(alloc, &octants.at(&now), 64)?;
    Ok(Crowd {
        octants,
        now,
        found,
    })
}

/// Goes on to the next failure moment. There has to be one, and there the octants have to agree with
/// a computation by signs.
fn goes_on<L: Ledger>(
    alloc: Global,
    crowd: Crowd,
    tally: &Tally,
    steps: &mut Steps<L>,
) -> Result<Crowd, Fault> {
    let Crowd {
        octants,
        now,
        found: old,
    } = crowd;
    let Some(next) = next_failure(octants.facts(), &octants.at(&now))? else {
        return Err(Fault::Differs);
    };
    let octants = octants.go(&next, tally, steps)?;
    let found = candidates(alloc, &octants.at(&next), 64)?;
    if !agree(alloc, &octants, &old, &found, 64)? {
        return Err(Fault::Differs);
    }
    Ok(Crowd {
        octants,
        now: next,
        found,
    })
}

/// Octants of 64 points go from failure to failure.
fn crowd_passes<L: Ledger>(alloc: Global, turns: u32, blank: Blank) -> Result<Passed, Fault>
    requires name { blank.name ≡ L.name }
    requires parts { blank.parts ≡ L.parts }
    requires some { 0 < L.parts }
{
    let mut steps = Steps::<Callers<L>>::open(blank);
    let tally = Tally::new();
    let mut crowd = entered(alloc, &tally, &mut steps)?;
    let mut passed = 0;
    for turn in 0..turns {
        crowd = goes_on(alloc, crowd, &tally, &mut steps)?;
        passed = turn + 1;
    }
    let (all, counted) = tally.take();
    Ok((passed, all, counted))
}

#[test]
fn octants_of_64_agree_with_a_computation_by_signs(rt: HostRuntime) -> Result<(), Fail> {
    let (passed, all, counted) = crowd_passes::<Brand>(rt.alloc(), 300, Blank::new(1))?;
    assert_eq!(rt; passed, 300);
    assert!(rt; all >= 300);
    assert_eq!(rt; all, counted);
    Ok(())
}
