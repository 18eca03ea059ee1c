//! Many points in a kinetic tournament, through many failures.

ghost use Rattle.std.specs.Prelude.{◌≡◌, ◌<◌};

use kin_cases::contest::Contest;
use kin_cases::failures::{Passed, next_failure};
use kin_cases::fault::Fault;
use kin_cases::moments::at;
use kin_cases::random::crowd_of_motions;
use kin_cases::watch::{Callers, Tally};
use kin_num::Steps;
use std::alloc::Global;
use std::marker::Brand;
use std::sync::ledger::{Blank, Ledger};
use std::test::Fail;

/// A tournament of 64 points, each in another slot than its own.
fn crowded_contest(alloc: Global) -> Result<Contest, Fault> {
    let mut contest = Contest::new(alloc, crowd_of_motions(alloc, 1)?, 6)?;
    for no in 0..64u32 {
        contest = contest.set((no + 1) % 64, no)?;
    }
    Ok(contest)
}

/// A tournament of 64 points goes from failure to failure.
fn contest_passes<L: Ledger>(alloc: Global, blank: Blank) -> Result<Passed, Fault>
    requires name { blank.name ≡ L.name }
    requires parts { blank.parts ≡ L.parts }
    requires some { 0 < L.parts }
{
    let mut steps = Steps::<Callers<L>>::open(blank);
    let tally = Tally::new();
    let mut now = at(0);
    let mut contest = crowded_contest(alloc)?.go(&now, &tally, &mut steps)?;
    let mut passed = 0;
    for turn in 0..200 {
        let Some(next) = next_failure(contest.facts(), &contest.at(&now))? else {
            break;
        };
        contest = contest.go(&next, &tally, &mut steps)?;
        now = next;
        passed = turn + 1;
    }
    let (all, counted) = tally.take();
    Ok((passed, all, counted))
}

#[test]
fn a_tournament_of_64_asks_with_the_callers_counter_alone(rt: HostRuntime) -> Result<(), Fail> {
    let (passed, all, counted) = contest_passes::<Brand>(rt.alloc(), Blank::new(1))?;
    assert!(rt; passed >= 50, "{passed}");
    assert!(rt; all >= 63);
    assert_eq!(rt; all, counted);
    Ok(())
}
