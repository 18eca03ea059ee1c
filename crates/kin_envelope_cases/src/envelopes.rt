//! Upper chains of points that move, enter and leave, at moments that are written out.

ghost use Rattle.std.specs.Prelude.{◌≡◌, ◌<◌};

use crate::under::go;
use kin_cases::envelope::Envelope;
use kin_cases::fault::Fault;
use kin_cases::scene::{Scene, first_wrong};
use kin_cases::watch::Tally;
use kin_cases::written::{are_written, motions, told_at};
use kin_motion::Motion;
use kin_num::Steps;
use std::alloc::Global;
use std::marker::Brand;
use std::sync::ledger::{Blank, Ledger};
use std::test::Fail;

/// The points that are written, which all enter before the first settle.
fn written_points(alloc: Global, points: &str) -> Result<Envelope, Fault> {
    let (motions, end) = motions(alloc, points)?;
    let mut envelope = Envelope::new(alloc, 3)?;
    for no in 0..end {
        if let Some(motion) = motions.get(no) {
            envelope = envelope.enter(no, motion)?;
        }
    }
    Ok(envelope)
}

/// Goes on to the moment of a line, where the chain and the number of facts have to be as it says.
fn goes_to<L: Ledger>(
    alloc: Global,
    envelope: Envelope,
    line: &str,
    tally: &Tally,
    steps: &mut Steps<L>,
) -> Result<Envelope, Fault> {
    let Some((moment, told)) = told_at(line) else {
        return Err(Fault::NotNew);
    };
    let envelope = go(alloc, envelope, &moment, tally, steps)?;
    if are_written(envelope.top(), envelope.facts().len(), told) {
        Ok(envelope)
    } else {
        Err(Fault::Differs)
    }
}

/// Points that move, and what is to be seen of them.
#[derive(Clone, Copy)]
enum Upper {
    RootOfTwo,
    TouchingTurn,
    OneLineAtRest,
    OneMotionTwice,
    OneMotionEightTimes,
    UnitSquare,
    AllMeet,
    OneLineForEver,
}

impl Upper {
    /// The points, and the chain at moments with its number of facts.
    fn written(self) -> (&'static str, &'static str) {
        match self {
            Upper::RootOfTwo => (
                "0 0 0 0, 0 2 1 0, 1 0 0 1",
                "0: 1 2 / 3; 0+: 0 1 2 / 4; 1: 0 1 / 5; 1+: 0 1 / 4; root: 0 1 / 4",
            ),
            Upper::TouchingTurn => (
                "0 0 0 0, -1 0 1 0, 0 -1 0 1",
                "0: 1 0 / 5; 1: 0 / 4; 1+: 2 1 / 5; 2: 2 1 / 5",
            ),
            Upper::OneLineAtRest => ("0 0 0 0, 5 0 0 0, 10 0 0 0", "0: 0 2 / 4; 9: 0 2 / 4"),
            Upper::OneMotionTwice => ("3 4 1 1, 3 4 1 1", "0: 0 / 2; 7: 0 / 2"),
            Upper::OneMotionEightTimes => (
                "1 2 3 4, 1 2 3 4, 1 2 3 4, 1 2 3 4, 1 2 3 4, 1 2 3 4, 1 2 3 4, 1 2 3 4",
                "0: 0 / 14; 5: 0 / 14",
            ),
            Upper::UnitSquare => ("0 0 0 0, 1 0 0 0, 1 1 0 0, 0 1 0 0", "0: 3 2 / 9"),
            Upper::AllMeet => (
                "-2 0 1 0, 2 0 -1 0, 0 -2 0 1, 0 2 0 -1, -2 -2 1 1, 2 -2 -1 1, -4 2 2 -1, 4 2 -2 -1",
                "0: 6 7 / 20; 1: 6 7 / 20; 2: 0 / 14; 2+: 7 5 4 6 / 24; 3: 7 5 4 6 / 24",
            ),
            Upper::OneLineForEver => (
                "0 0 1 1, 3 3 -1 -1, 5 5 0 0, 1 1 2 2, 4 4 -2 -2, 2 2 1 1, 7 7 0 0, 6 6 -1 -1",
                "0: 0 6 / 19; 1: 0 6 / 19; 1+: 0 6 / 19; 2: 4 6 / 18; 3: 4 3 / 20",
            ),
        }
    }
}

impl Scene for Upper {
    fn points(self) -> &'static str {
        self.written().0
    }

    fn go<L: Ledger>(self, alloc: Global, steps: &mut Steps<L>) -> Result<(u64, u64), Fault> {
        let (points, text) = self.written();
        let tally = Tally::new();
        let mut envelope = written_points(alloc, points)?;
        for line in text.split(';') {
            envelope = goes_to(alloc, envelope, line, &tally, steps)?;
        }
        Ok(tally.take())
    }
}

#[test]
fn a_point_leaves_the_chain_at_the_root_of_two(rt: HostRuntime) {
    let scenes = [Upper::RootOfTwo];
    assert_eq!(rt; first_wrong(rt.alloc(), &scenes), None);
}

#[test]
fn points_at_one_place(rt: HostRuntime) {
    let scenes = [Upper::TouchingTurn, Upper::AllMeet];
    assert_eq!(rt; first_wrong(rt.alloc(), &scenes), None);
}

#[test]
fn one_motion_of_many_points(rt: HostRuntime) {
    let scenes = [Upper::OneMotionTwice, Upper::OneMotionEightTimes];
    assert_eq!(rt; first_wrong(rt.alloc(), &scenes), None);
}

#[test]
fn points_on_one_line(rt: HostRuntime) {
    let scenes = [
        Upper::OneLineAtRest,
        Upper::OneLineForEver,
        Upper::UnitSquare,
    ];
    assert_eq!(rt; first_wrong(rt.alloc(), &scenes), None);
}

/// A point that comes or goes.
#[derive(Clone, Copy)]
enum Mark {
    Enters(u32, Motion),
    Leaves(u32),
}

fn marked(envelope: Envelope, mark: Mark) -> Result<Envelope, Fault> {
    match mark {
        Mark::Enters(no, motion) => envelope.enter(no, motion),
        Mark::Leaves(no) => envelope.leave(no),
    }
}

/// The points 2 and 5 come, go and come back: one alone, none, the other, both, and one in the place
/// of the other. After each the tree has to be as the line says.
fn come_and_go<L: Ledger>(alloc: Global, blank: Blank) -> Result<(), Fault>
    requires name { blank.name ≡ L.name }
    requires parts { blank.parts ≡ L.parts }
    requires some { 0 < L.parts }
{
    let mut steps = Steps::<L>::open(blank);
    let tally = Tally::new();
    let still = Motion::new(1, 1, 0, 0);
    let mover = Motion::new(3, 0, -1, 0);
    let turns = [
        (Mark::Enters(2, still), "0: 2 / 0"),
        (Mark::Leaves(2), "1: / 0"),
        (Mark::Enters(2, mover), "1: 2 / 0"),
        (Mark::Enters(5, still), "1: 5 2 / 1"),
        (Mark::Leaves(2), "3: 5 / 0"),
    ];
    let mut envelope = Envelope::new(alloc, 3)?;
    for (mark, line) in turns {
        envelope = goes_to(alloc, marked(envelope, mark)?, line, &tally, &mut steps)?;
    }
    Ok(())
}

#[test]
fn a_single_point_leaves_and_comes_back(rt: HostRuntime) -> Result<(), Fail> {
    come_and_go::<Brand>(rt.alloc(), Blank::new(1))?;
    Ok(())
}
