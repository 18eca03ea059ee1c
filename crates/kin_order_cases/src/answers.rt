//! Answers of structures that a world keeps, at moments that are written out.

ghost use Rattle.std.specs.Prelude.{◌≡◌};
ghost use Rattle.kin_motion.specs.Live.{IsSmallKeep};

use kin_boxes::KinBoxes;
use kin_cases::answer::Answer;
use kin_cases::fault::Fault;
use kin_cases::keeping::Keeping;
use kin_cases::moments::at;
use kin_cases::scene::{Scene, first_wrong};
use kin_cases::watch::Tally;
use kin_cases::written::{are_written, motions, told_at};
use kin_closest::KinClosest;
use kin_hull::KinHull;
use kin_list::KinList;
use kin_motion::keep::Keep;
use kin_nearest::KinNearest;
use kin_num::Steps;
use kin_range::KinRange;
use std::alloc::Global;
use std::sync::ledger::Ledger;

/// The points that are written, which enter at 0 one after the other.
fn written_points<K: Answer, L: Ledger>(
    alloc: Global,
    keep: &Keep,
    points: &str,
    tally: &Tally,
    steps: &mut Steps<L>,
) -> Result<Keeping<K>, Fault>
    requires small { IsSmallKeep keep.now }
    requires serves { K.serves keep.now }
{
    let (motions, end) = motions(alloc, points)?;
    let mut keeping = Keeping::new(alloc, keep, 3, &at(0))?;
    for no in 0..end {
        if let Some(motion) = motions.get(no) {
            keeping = keeping.enter(no, motion, tally, steps)?;
        }
    }
    Ok(keeping)
}

/// Goes on to the moment of a line, where the answer and the number of facts have to be as it says.
fn goes_to<K: Answer, L: Ledger>(
    keeping: Keeping<K>,
    line: &str,
    tally: &Tally,
    steps: &mut Steps<L>,
) -> Result<Keeping<K>, Fault> {
    let Some((moment, told)) = told_at(line) else {
        return Err(Fault::NotNew);
    };
    let keeping = keeping.go(&moment, tally, steps)?;
    let answer = keeping.answer()?;
    if are_written(&answer, keeping.facts().len(), told) {
        Ok(keeping)
    } else {
        Err(Fault::Differs)
    }
}

/// Goes on from line to line.
fn goes_on<K: Answer, L: Ledger>(
    alloc: Global,
    keep: &Keep,
    written: (&str, &str),
    steps: &mut Steps<L>,
) -> Result<(u64, u64), Fault>
    requires small { IsSmallKeep keep.now }
    requires serves { K.serves keep.now }
{
    let (points, text) = written;
    let tally = Tally::new();
    let mut keeping = written_points::<K, L>(alloc, keep, points, &tally, steps)?;
    for line in text.split(';') {
        keeping = goes_to(keeping, line, &tally, steps)?;
    }
    Ok(tally.take())
}

/// Points that move, and what is to be seen of them.
#[derive(Clone, Copy)]
enum Seen {
    OrderOfThreeThatMeet,
    HullAtTheRootOfTwo,
    RangeWithItsBorder,
    ClosestOfThree,
    /// Nearest points: the points, and what is to be seen of them.
    Nearest(&'static str, &'static str),
    /// Boxes of a width and a height: the points, and what is to be seen of them.
    Boxes((i32, i32), &'static str, &'static str),
}

impl Seen {
    /// The points, and the answer at moments with the number of facts.
    fn written(self) -> (&'static str, &'static str) {
        match self {
            Seen::OrderOfThreeThatMeet => (
                "0 0 1 0, 5 0 0 0, 10 0 -1 0",
                "0: 0 1 2 / 2; 5: 0 1 2 / 2; 5+: 2 1 0 / 2; 6: 2 1 0 / 2",
            ),
            Seen::HullAtTheRootOfTwo => (
                "0 0 0 0, 0 2 1 0, 1 0 0 1",
                "0: 0 2 1 / 6; 0+: 0 2 1 / 8; 1: 0 2 1 / 10; 1+: 0 2 1 / 8; root: 0 1 / 8; 2: 0 1 2 / 8",
            ),
            Seen::RangeWithItsBorder => (
                "0 0 2 0, 0 0 4 4, 5 1 -2 0, 0 1 1 0",
                "0: / 6; 1/2: 0 1 2 / 6; 1: 0 2 3 / 6",
            ),
            Seen::ClosestOfThree => (
                "0 0 0 0, 4 0 -2 0, 1 0 0 0",
                "0: 0 2 / 20; 3/2: 1 2 / 19; 2: 0 1 / 19",
            ),
            Seen::Nearest(points, told) | Seen::Boxes(_, points, told) => (points, told),
        }
    }
}

impl Scene for Seen {
    fn points(self) -> &'static str {
        self.written().0
    }

    fn go<L: Ledger>(self, alloc: Global, steps: &mut Steps<L>) -> Result<(u64, u64), Fault> {
        let written = self.written();
        match self {
            Seen::OrderOfThreeThatMeet => {
                goes_on::<KinList, L>(alloc, &Keep::Order { dx: 1, dy: 0 }, written, steps)
            }
            Seen::HullAtTheRootOfTwo => {
                goes_on::<KinHull, L>(alloc, &Keep::Hull, written, steps)
            }
            Seen::RangeWithItsBorder => {
                goes_on::<KinRange, L>(alloc, &Keep::Range, written, steps)
            }
            Seen::ClosestOfThree => {
                goes_on::<KinClosest, L>(alloc, &Keep::Closest, written, steps)
            }
            Seen::Boxes((w, h), ..) => {
                if !(0..=4096).contains(&w) || !(0..=4096).contains(&h) {
                    return Err(Fault::Differs);
                }
                goes_on::<KinBoxes, L>(alloc, &Keep::Boxes { w, h }, written, steps)
            }
            Seen::Nearest(..) => { goes_on::<KinNearest, L>(alloc, &Keep::Nearest, written, steps) }
        }
    }
}

#[test]
fn kept_structures_answer_and_ask_with_the_callers_counter(rt: HostRuntime) {
    let scenes = [
        Seen::OrderOfThreeThatMeet,
        Seen::HullAtTheRootOfTwo,
        Seen::RangeWithItsBorder,
        Seen::ClosestOfThree,
    ];
    assert_eq!(rt; first_wrong(rt.alloc(), &scenes), None);
}

#[test]
fn nearest_points_at_one_place_and_between_groups(rt: HostRuntime) {
    let scenes = [
        Seen::Nearest("0 0 0 0, 3 4 0 0", "0: 1 0 / 8"),
        Seen::Nearest("0 0 0 0, 0 0 0 0", "0: 1 0 / 8"),
        Seen::Nearest(
            "0 0 1 0, 4 0 -1 0, 2 2 0 -1, 2 -2 0 1, 8 4 -3 -2",
            "0: 2 2 0 0 1 / 32; 1: 2 2 0 0 1 / 32; 2: 1 0 0 0 0 / 32; 2+: 2 2 0 0 1 / 32; 3: 2 2 0 0 1 / 32",
        ),
        Seen::Nearest(
            "0 0 1 0, 6 0 -2 0, 2 2 0 -1, 8 -2 -3 1, 2 0 0 0",
            "0: 4 3 4 1 0 / 32; 2: 1 0 0 0 0 / 32; 2+: 4 3 4 1 0 / 32; 3: 4 3 4 1 0 / 32",
        ),
        Seen::Nearest(
            "3 3 0 0, 3 3 0 0, 3 3 0 0, 3 3 0 0, 3 3 1 0",
            "0: 1 0 0 0 0 / 32; 0+: 1 0 0 0 0 / 32",
        ),
        Seen::Nearest(
            "5 0 1 0, 0 0 0 0, 10 0 0 0, 0 0 0 0, 10 0 0 0, 10 0 0 0, 0 0 0 0, 10 0 0 0",
            "0: 1 3 4 1 2 2 1 2 / 56; 0+: 2 3 4 1 2 2 1 2 / 56; 5: 2 3 0 1 0 0 1 0 / 56; 5+: 2 3 4 1 2 2 1 2 / 56; 7: 2 3 4 1 2 2 1 2 / 56",
        ),
        Seen::Nearest(
            "0 0 0 0, 10 0 0 0, 0 0 0 0, 5 0 -1 0, 10 0 0 0, 0 0 0 0, 10 0 0 0",
            "0: 2 4 0 0 1 0 1 / 48; 0+: 2 4 0 0 1 0 1 / 48; 5: 2 4 0 0 1 0 1 / 48; 5+: 2 4 0 0 1 0 1 / 48",
        ),
        Seen::Nearest(
            "10 0 0 0, 10 0 0 0, 0 0 0 0, 10 0 0 0, 0 0 0 0, 0 0 0 0, 0 0 0 0, 5 0 1 0",
            "0: 1 0 4 0 2 2 2 0 / 56; 0+: 1 0 4 0 2 2 2 0 / 56; 5: 1 0 4 0 2 2 2 0 / 56; 5+: 1 0 4 0 2 2 2 0 / 56",
        ),
        Seen::Nearest(
            "0 0 0 0, 4 0 -2 0, 1 0 0 0",
            "0: 2 2 0 / 16; 3/2: 1 2 1 / 16; 2: 1 0 0 / 16",
        ),
        Seen::Nearest(
            "0 2 0 0, 2 0 0 0, 0 -2 0 0, -2 0 0 0, 1 1 0 0, 1 -1 0 0, -1 -1 0 0, 0 0 0 0",
            "0: 4 4 5 6 0 1 2 4 / 56",
        ),
    ];
    assert_eq!(rt; first_wrong(rt.alloc(), &scenes), None);
}

#[test]
fn boxes_that_touch_pass_and_lie_on_each_other(rt: HostRuntime) {
    let scenes = [
        // One comes to the other, and they touch at a side before and after they pass.
        Seen::Boxes(
            (2, 2),
            "0 0 1 0, 5 0 0 0",
            "0: / 6; 3: 0 1 / 6; 3+: 0 1 / 6; 7: 0 1 / 6; 7+: / 6; 8: / 6",
        ),
        Seen::Boxes(
            (2, 2),
            "5 0 -1 0, 0 0 0 0",
            "2: / 6; 3: 0 1 / 6; 5: 0 1 / 6; 5+: 0 1 / 6; 7: 0 1 / 6; 7+: / 6",
        ),
        // They touch at a corner, at first and at last, and then at one instant only.
        Seen::Boxes(
            (1, 1),
            "0 0 1 1, 3 3 0 0",
            "1: / 6; 2: 0 1 / 6; 4: 0 1 / 6; 4+: / 6",
        ),
        Seen::Boxes(
            (1, 1),
            "0 4 1 -1, 5 1 0 0",
            "3: / 6; 4: 0 1 / 6; 4+: / 6; 5: / 6",
        ),
        // Boxes without width or height, and without both.
        Seen::Boxes((0, 3), "0 0 1 0, 2 2 0 0", "1: / 6; 2: 0 1 / 6; 2+: / 6"),
        Seen::Boxes((3, 0), "0 0 0 1, 2 2 0 0", "1: / 6; 2: 0 1 / 6; 2+: / 6"),
        Seen::Boxes((0, 0), "0 0 1 0, 1 0 0 0", "0: / 6; 1: 0 1 / 6; 1+: / 6"),
        // All alike, and each touching the next one.
        Seen::Boxes(
            (2, 2),
            "1 1 0 0, 1 1 0 0, 1 1 0 0",
            "0: 0 1 0 2 1 2 / 10; 1: 0 1 0 2 1 2 / 10",
        ),
        Seen::Boxes(
            (2, 2),
            "4 0 0 0, 2 0 0 0, 0 0 0 0",
            "0: 0 1 1 2 / 10; 0+: 0 1 1 2 / 10",
        ),
        // Apart along one axis alone.
        Seen::Boxes(
            (9, 1),
            "0 0 0 0, 3 2 0 0, 0 4 0 -1",
            "0: / 10; 1: 1 2 / 10; 3: 0 2 1 2 / 10; 4: 0 2 / 10; 6: / 10",
        ),
        // The widest boxes that may be kept.
        Seen::Boxes(
            (4096, 4096),
            "-4096 0 0 0, 0 4096 1 0",
            "0: 0 1 / 6; 0+: / 6",
        ),
    ];
    assert_eq!(rt; first_wrong(rt.alloc(), &scenes), None);
}
