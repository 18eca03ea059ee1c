//! Nearest points of points at rest in special places, and of many points through many failures, with how many signs
//! are asked for each.

ghost use Rattle.std.specs.Prelude.{◌≡◌, ◌≤◌, ◌<◌};

use crate::around::candidates;
use kin_cases::ask::Sight;
use kin_cases::failures::{Passed, next_failure};
use kin_cases::fault::Fault;
use kin_cases::keeping::Keeping;
use kin_cases::moments::at;
use kin_cases::random::{after_number, lattice_motion_for, motion_for};
use kin_cases::watch::{Callers, Tally};
use kin_fail::Now;
use kin_motion::Motion;
use kin_motion::form::Form;
use kin_motion::keep::Keep;
use kin_nearest::KinNearest;
use kin_num::{Sign, Steps};
use std::alloc::Global;
use std::marker::Brand;
use std::sync::ledger::{Blank, Ledger};
use std::test::Fail;

/// The nearest other point of a point below `room`, straight from its definition.
fn nearest_by_signs(now: &Now<'_>, room: u32, no: u32) -> Result<Option<u32>, Fault> {
    let sight = Sight::at(now);
    let mut best = None;
    for other in 0..room {
        if other == no || now.motions.get(other).is_none() {
            continue;
        }
        let form = Form::Dist {
            i: no,
            j: other,
            k: no,
            l: best.unwrap_or(other),
        };
        if best.is_none() || sight.sign(&form)? == Sign::Plus {
            best = Some(other);
        }
    }
    Ok(best)
}

/// Whether two live points are at one place.
fn are_together(now: &Now<'_>, i: u32, j: u32) -> Result<bool, Fault> {
    let sight = Sight::at(now);
    for (dx, dy) in [(1, 0), (0, 1)] {
        let form = Form::Line {
            dx,
            dy,
            off: 0,
            i,
            j,
        };
        if sight.sign(&form)? != Sign::Zero {
            return Ok(false);
        }
    }
    Ok(true)
}

/// Of each number below `room`, how many lesser points are at its place.
fn lesser_counts(alloc: Global, now: &Now<'_>, room: u32) -> Result<Vec<u64>, Fault> {
    let mut counts = Vec::new(alloc);
    for no in 0..room {
        let mut count = 0u64;
        for other in 0..no {
            let live = now.motions.get(no).is_some() && now.motions.get(other).is_some();
            if live && are_together(now, no, other)? {
                count = count.wrapping_add(1);
            }
        }
        counts.push(count).map_err(|_| Fault::NoMemory)?;
    }
    Ok(counts)
}

/// The most signs for the nearest point of a number: 4 for each slot whose candidate it is, and one for each lesser point
/// at the apex's place.
fn most_signs(found: &[Option<u32>], lesser: &[u64], no: u32) -> u64 {
    let mut most = 0u64;
    for (slot, candidate) in found.iter().enumerate() {
        if *candidate == Some(no) {
            let there = match lesser.get(slot / 8) {
                Some(count) => *count,
                None => 0,
            };
            most = most.wrapping_add(4).wrapping_add(there);
        }
    }
    most
}

/// Whether each nearest point is that of a computation by signs, and takes no more signs than its bound allows.
fn agree<L: Ledger>(
    alloc: Global,
    points: &Keeping<KinNearest>,
    room: u32,
    tally: &Tally,
    steps: &mut Steps<L>,
) -> Result<bool, Fault> {
    let now = points.now();
    let found = candidates(alloc, &now, room)?;
    let lesser = lesser_counts(alloc, &now, room)?;
    for no in 0..room {
        if now.motions.get(no).is_none() {
            continue;
        }
        let before = tally.asked();
        let nearest = points.nearest(no, tally, steps)?;
        let asked = tally.asked().wrapping_sub(before);
        let within = asked <= most_signs(&found, &lesser, no);
        if !within || nearest != nearest_by_signs(&now, room, no)? {
            return Ok(false);
        }
    }
    Ok(true)
}

/// The next number that looks random, with a motion for it.
fn next_motion(seed: u64, on_lattice: bool) -> (u64, Motion) {
    let next = after_number(seed);
    if on_lattice {
        (next, lattice_motion_for(next))
    } else {
        (next, motion_for(next))
    }
}

/// The points below 64, which enter at 0 one after the other, and agree from the first one on.
fn entered<L: Ledger>(
    alloc: Global,
    on_lattice: bool,
    tally: &Tally,
    steps: &mut Steps<L>,
) -> Result<Keeping<KinNearest>, Fault> {
    let mut points = Keeping::new(alloc, &Keep::Nearest, 6, &at(0))?;
    let mut seed = 1;
    for no in 0..64 {
        let (next, motion) = next_motion(seed, on_lattice);
        seed = next;
        points = points.enter(no, motion, tally, steps)?;
        if !agree(alloc, &points, 64, tally, steps)? {
            return Err(Fault::Differs);
        }
    }
    Ok(points)
}

/// Nearest points of 64 go from failure to failure.
fn crowd_passes<L: Ledger>(alloc: Global, on_lattice: bool, blank: Blank) -> Result<Passed, Fault>
    requires name { blank.name ≡ L.name }
    requires parts { blank.parts ≡ L.parts }
    requires some { 0 < L.parts }
{
    let mut steps = Steps::<Callers<L>>::open(blank);
    let tally = Tally::new();
    let mut points = entered(alloc, on_lattice, &tally, &mut steps)?;
    let mut passed = 0;
    for turn in 0..300 {
        let Some(next) = next_failure(points.facts(), &points.now())? else {
            break;
        };
        points = points.go(&next, &tally, &mut steps)?;
        if !agree(alloc, &points, 64, &tally, &mut steps)? {
            return Err(Fault::Differs);
        }
        passed = turn + 1;
    }
    let (all, counted) = tally.take();
    Ok((passed, all, counted))
}

/// Points at rest, and how many they are.
#[derive(Clone, Copy, Debug)]
enum Still {
    /// One in the middle, and one in each octant, all as far from it as the others.
    Ring,
    /// All in one place but one, which has this number.
    Crowd(u32),
}

/// The points of `Still::Ring`: the middle, and the others by their octants.
const RING: [(i32, i32); 9] = [
    (0, 0),
    (2, 1),
    (1, 2),
    (-1, 2),
    (-2, 1),
    (-2, -1),
    (-1, -2),
    (1, -2),
    (2, -1),
];

impl Still {
    fn count(self) -> u32
        ensures { result ≤ 512 }
    {
        match self {
            Still::Ring => 9,
            Still::Crowd(_) => 257,
        }
    }

    /// Where a point rests.
    fn rests(self, no: u32) -> Motion {
        match self {
            Still::Ring => match RING.get(no as usize) {
                Some((x, y)) if x.unsigned_abs() <= 2 && y.unsigned_abs() <= 2 => {
                    Motion::new(*x, *y, 0, 0)
                }
                _ => Motion::new(0, 0, 0, 0),
            },
            Still::Crowd(lonely) if no == lonely => Motion::new(7, 3, 0, 0),
            Still::Crowd(_) => Motion::new(3, 3, 0, 0),
        }
    }
}

/// Whether nearest points at rest are those of a computation by signs, as soon as all have entered.
fn still_agree<L: Ledger>(alloc: Global, still: Still, blank: Blank) -> Result<bool, Fault>
    requires name { blank.name ≡ L.name }
    requires parts { blank.parts ≡ L.parts }
    requires some { 0 < L.parts }
{
    let mut steps = Steps::<Callers<L>>::open(blank);
    let tally = Tally::new();
    let mut points = Keeping::new(alloc, &Keep::Nearest, 9, &at(0))?;
    for no in 0..still.count() {
        points = points.enter(no, still.rests(no), &tally, &mut steps)?;
    }
    agree(alloc, &points, still.count(), &tally, &mut steps)
}

#[test]
fn nearest_of_points_at_rest_agree_with_a_computation_by_signs(
    rt: HostRuntime,
) -> Result<(), Fail> {
    let cases = [
        Still::Ring,
        Still::Crowd(0),
        Still::Crowd(128),
        Still::Crowd(256),
    ];
    for still in cases {
        let agrees = still_agree::<Brand>(rt.alloc(), still, Blank::new(1))?;
        assert!(rt; agrees, "{still:?}");
    }
    Ok(())
}

#[test]
fn nearest_of_64_agree_with_a_computation_by_signs(rt: HostRuntime) -> Result<(), Fail> {
    let (passed, all, counted) = crowd_passes::<Brand>(rt.alloc(), false, Blank::new(1))?;
    assert_eq!(rt; passed, 300);
    assert_eq!(rt; all, counted);
    Ok(())
}

#[test]
fn nearest_of_64_on_a_lattice_agree_with_a_computation_by_signs(
    rt: HostRuntime,
) -> Result<(), Fail> {
    let (passed, all, counted) = crowd_passes::<Brand>(rt.alloc(), true, Blank::new(1))?;
    assert_eq!(rt; passed, 300);
    assert_eq!(rt; all, counted);
    Ok(())
}
