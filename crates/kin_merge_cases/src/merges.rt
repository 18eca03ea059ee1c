//! Merges of two chains, at moments that are written out.

use crate::visits::{Side, Stage};
use kin_cases::fault::Fault;
use kin_cases::merging::Merging;
use kin_cases::scene::{Scene, first_wrong};
use kin_cases::written::{are_written, told_at};
use kin_num::Steps;
use std::alloc::Global;
use std::sync::ledger::Ledger;

/// The merge, if its chain and the number of its facts are as they are written.
fn as_written(merging: Merging, text: &str) -> Result<Merging, Fault> {
    if are_written(merging.chain(), merging.facts().len(), text) {
        Ok(merging)
    } else {
        Err(Fault::Differs)
    }
}

/// What a line says of one side.
fn part_of(told: &str, side: Side) -> Option<&str> {
    let (upper, lower) = told.split_once(',')?;
    Some(match side {
        Side::Upper => upper,
        Side::Lower => lower,
    })
}

/// Goes on to the moment of a line, where the merge has to be as it says.
fn goes_to<L: Ledger>(
    stage: &Stage,
    side: Side,
    merging: Option<Merging>,
    line: &str,
    steps: &mut Steps<L>,
) -> Result<Merging, Fault> {
    let Some((moment, told)) = told_at(line) else {
        return Err(Fault::NotNew);
    };
    let Some(wanted) = part_of(told, side) else {
        return Err(Fault::NotNew);
    };
    let merging = stage.go(side, merging, &moment, steps)?;
    as_written(merging, wanted)
}

/// Goes on from line to line.
fn goes_on<L: Ledger>(
    stage: &Stage,
    side: Side,
    text: &str,
    steps: &mut Steps<L>,
) -> Result<(), Fault> {
    let mut merging = None;
    for line in text.split(';') {
        merging = Some(goes_to(stage, side, merging, line, steps)?);
    }
    Ok(())
}

/// Points that move, and what is to be seen of their merges.
#[derive(Clone, Copy)]
enum Merge {
    RootOfTwo,
    RightTouches,
    LeftTouches,
    SideBySide,
    OneAbove,
    SameFirsts,
    SameSlopes,
    OneLine,
    Ties,
    Meeting,
    BothChains,
}

impl Merge {
    /// The points, how many the left half has, and the chains at moments with their numbers of facts.
    fn written(self) -> (&'static str, u32, &'static str) {
        match self {
            Merge::RootOfTwo => (
                "0 0 0 0, 0 2 1 0, 1 0 0 1",
                2,
                "0: 1 2 / 1, 0 2 / 1; 0+: 0 1 2 / 3, 0 2 / 3; root: 0 1 / 3, 0 1 / 3",
            ),
            Merge::RightTouches => (
                "0 0 0 0, 8 0 0 0, 2 -3 0 0, 4 0 0 0, 6 -3 0 0",
                2,
                "0: 0 1 / 7, 0 2 4 1 / 5",
            ),
            Merge::LeftTouches => (
                "2 -3 0 0, 4 0 0 0, 6 -3 0 0, 0 0 0 0, 8 0 0 0",
                3,
                "0: 3 4 / 7, 3 0 2 4 / 5",
            ),
            Merge::SideBySide => (
                "0 0 1 0, 1 0 0 0",
                1,
                "0: 0 1 / 1, 0 1 / 1; 1: 0 / 2, 0 / 2; 1+: 1 0 / 1, 1 0 / 1",
            ),
            Merge::OneAbove => (
                "0 0 0 0, 0 1 0 -1",
                1,
                "0: 1 / 2, 0 / 2; 1: 0 / 2, 0 / 2; 1+: 0 / 2, 1 / 2",
            ),
            Merge::SameFirsts => (
                "0 0 0 0, 2 1 0 0, 0 0 0 0, 3 -1 0 0",
                2,
                "0: 0 1 3 / 6, 0 3 / 6",
            ),
            Merge::SameSlopes => (
                "0 0 0 0, 2 1 0 0, 1 1 0 0, 5 3 0 -1",
                2,
                "0: 0 2 3 / 5, 0 1 3 / 5; 0+: 0 2 3 / 5, 0 1 3 / 5; 1: 0 2 3 / 5, 0 3 / 5",
            ),
            Merge::OneLine => (
                "0 0 0 0, 4 0 0 0, 1 0 0 0, 6 0 0 0",
                2,
                "0: 0 3 / 5, 0 3 / 5",
            ),
            Merge::Ties => (
                "0 0 0 0, 2 2 1 0, 4 0 0 1, 0 0 0 1, 2 2 0 -1, 4 0 -1 0",
                3,
                "0: 0 1 2 / 11, 0 2 / 7; 0+: 3 1 2 / 10, 0 5 2 / 6; 2: 3 1 / 6, 0 4 1 / 6; 2+: 3 2 1 / 7, 0 4 1 / 7",
            ),
            Merge::Meeting => (
                "0 0 1 0, 5 5 0 -1, 10 0 -1 0",
                2,
                "0: 0 1 2 / 3, 0 2 / 3; 5: 0 / 2, 0 / 2; 5+: 2 0 / 3, 2 1 0 / 3",
            ),
            Merge::BothChains => (
                "0 0 0 0, 2 1 0 -1, 4 0 0 0, 10 0 0 0, 12 1 0 -1, 14 0 0 0",
                3,
                "0: 0 1 4 5 / 9, 0 5 / 5; 1: 0 5 / 5, 0 5 / 5; 1+: 0 5 / 5, 0 1 4 5 / 9",
            ),
        }
    }
}

impl Scene for Merge {
    fn points(self) -> &'static str {
        self.written().0
    }

    /// Both merges, of the upper and of the lower chains.
    fn go<L: Ledger>(self, alloc: Global, steps: &mut Steps<L>) -> Result<(u64, u64), Fault> {
        let (points, split, text) = self.written();
        let stage = Stage::written(alloc, points, split)?;
        for side in [Side::Upper, Side::Lower] {
            goes_on(&stage, side, text, steps)?;
        }
        Ok(stage.tally.take())
    }
}

#[test]
fn the_middle_point_leaves_at_the_root_of_two(rt: HostRuntime) {
    let scenes = [Merge::RootOfTwo];
    assert_eq!(rt; first_wrong(rt.alloc(), &scenes), None);
}

#[test]
fn what_only_touches_is_not_kept(rt: HostRuntime) {
    let scenes = [Merge::RightTouches, Merge::LeftTouches];
    assert_eq!(rt; first_wrong(rt.alloc(), &scenes), None);
}

#[test]
fn one_point_against_one_has_one_end(rt: HostRuntime) {
    let scenes = [Merge::SideBySide, Merge::OneAbove];
    assert_eq!(rt; first_wrong(rt.alloc(), &scenes), None);
}

#[test]
fn points_at_one_place_and_equal_slopes(rt: HostRuntime) {
    let scenes = [Merge::SameFirsts, Merge::SameSlopes, Merge::OneLine];
    assert_eq!(rt; first_wrong(rt.alloc(), &scenes), None);
}

#[test]
fn tied_points_part(rt: HostRuntime) {
    let scenes = [Merge::Ties];
    assert_eq!(rt; first_wrong(rt.alloc(), &scenes), None);
}

#[test]
fn three_points_meet_and_both_chains_change_at_once(rt: HostRuntime) {
    let scenes = [Merge::Meeting, Merge::BothChains];
    assert_eq!(rt; first_wrong(rt.alloc(), &scenes), None);
}
