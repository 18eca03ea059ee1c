//! Merges that are told edits of special kinds before they settle.

use crate::visits::{Halves, Stage};
use kin_cases::fault::Fault;
use kin_cases::merging::Merging;
use kin_cases::scene::{Scene, first_wrong};
use kin_cases::written::{are_written, numbers, told_at};
use kin_num::Steps;
use std::alloc::Global;
use std::sync::ledger::Ledger;

/// The lists of a detour, `2 1 0, 3 4`.
fn detour(alloc: Global, text: &str) -> Result<Halves, Fault> {
    let Some((left, right)) = text.split_once(',') else {
        return Err(Fault::NotNew);
    };
    Ok(Halves {
        left: numbers(alloc, left)?,
        right: numbers(alloc, right)?,
    })
}

/// Goes on to the moment of a line, where the merge has to be as it says. What follows `by` is a detour.
fn goes_to<L: Ledger>(
    stage: &Stage,
    merging: Option<Merging>,
    line: &str,
    steps: &mut Steps<L>,
) -> Result<Merging, Fault> {
    let (line, by) = match line.split_once("by") {
        Some((line, by)) => (line, Some(detour(stage.alloc, by)?)),
        None => (line, None),
    };
    let Some((moment, told)) = told_at(line) else {
        return Err(Fault::NotNew);
    };
    let merging = stage.upper_by(merging, by.as_ref(), &moment, steps)?;
    if are_written(merging.chain(), merging.facts().len(), told) {
        Ok(merging)
    } else {
        Err(Fault::Differs)
    }
}

/// Points that move, and edits of their chains.
#[derive(Clone, Copy)]
enum Edited {
    PutBeforeDropped,
    CopyPutAndDropped,
    BothChains,
    PassingInALeap,
}

impl Edited {
    /// The points, how many the left half has, and the chain at moments with its number of facts.
    fn written(self) -> (&'static str, u32, &'static str) {
        match self {
            Edited::PutBeforeDropped => (
                "0 0 0 0, 2 2 0 -1, 4 0 0 0, 10 0 0 0, 12 3 0 0, 14 0 0 0",
                3,
                "0: 0 1 4 5 / 8; 1: 0 1 4 5 / 8 by 2 1 0, 3 4 5; 2: 0 4 5 / 7 by 2 0 1, 5 4 3",
            ),
            Edited::CopyPutAndDropped => (
                "0 0 0 0, 2 1 0 1, 4 0 0 0, 10 0 0 0, 12 3 0 -1, 14 0 0 0",
                3,
                "0: 0 1 4 5 / 8; 1: 0 1 4 5 / 9 by 0 1 1 2, 3 4 5; 1+: 0 1 4 5 / 8 by 0 1 2, 3 4 4 5; 3: 0 1 5 / 7 by 0 1 2 1, 3 5 4",
            ),
            Edited::BothChains => (
                "0 0 0 0, 2 2 0 -1, 4 1 0 0, 10 0 0 0, 12 -1 0 1, 14 0 0 0",
                3,
                "0: 0 1 5 / 7; 2: 0 2 4 5 / 7; 3: 0 2 4 5 / 7 by 0, 4",
            ),
            Edited::PassingInALeap => (
                "0 0 0 0, 2 3 1 0, 4 3 -1 0, 6 0 0 0, 3 1 0 0, 9 2 0 0",
                4,
                "0: 0 1 2 5 / 8; 2: 0 2 1 5 / 8; 3: 0 2 1 5 / 8",
            ),
        }
    }
}

impl Scene for Edited {
    fn points(self) -> &'static str {
        self.written().0
    }

    fn go<L: Ledger>(self, alloc: Global, steps: &mut Steps<L>) -> Result<(u64, u64), Fault> {
        let (points, split, text) = self.written();
        let stage = Stage::written(alloc, points, split)?;
        let mut merging = None;
        for line in text.split(';') {
            merging = Some(goes_to(&stage, merging, line, steps)?);
        }
        Ok(stage.tally.take())
    }
}

#[test]
fn edits_put_what_they_drop(rt: HostRuntime) {
    let scenes = [Edited::PutBeforeDropped, Edited::CopyPutAndDropped];
    assert_eq!(rt; first_wrong(rt.alloc(), &scenes), None);
}

#[test]
fn both_chains_are_edited_and_points_pass_each_other_in_a_leap(rt: HostRuntime) {
    let scenes = [Edited::BothChains, Edited::PassingInALeap];
    assert_eq!(rt; first_wrong(rt.alloc(), &scenes), None);
}
