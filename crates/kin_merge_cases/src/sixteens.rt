//! Merges of two chains of many points, through many failures.

ghost use Rattle.std.specs.Prelude.{◌≡◌, ◌<◌};

use crate::certificates::certificates;
use crate::visits::Stage;
use kin_cases::ask::Sight;
use kin_cases::failures::{Passed, earlier, next_failure};
use kin_cases::fault::Fault;
use kin_cases::merging::Merging;
use kin_cases::moments::at;
use kin_cases::random::crowd_of_motions;
use kin_cases::watch::Callers;
use kin_fail::Now;
use kin_num::{Moment, Steps};
use std::alloc::Global;
use std::marker::Brand;
use std::sync::ledger::{Blank, Ledger};
use std::test::Fail;

/// When one of the facts fails that keep the chain of a half.
fn chain_failure(
    alloc: Global,
    now: &Now<'_>,
    set: &[u32],
    chain: &[u32],
) -> Result<Option<Moment>, Fault> {
    let facts = certificates(alloc, &Sight::at(now), set, chain)?;
    next_failure(&facts, now)
}

/// When a fact of the merge fails, or one that keeps a chain of its halves.
fn next_change<'a>(
    stage: &'a Stage,
    merging: &Merging,
    moment: &'a Moment,
) -> Result<Option<Moment>, Fault> {
    let watch = stage.watch(moment);
    let now = watch.plain();
    let (a, b) = merging.told();
    let of_a = chain_failure(stage.alloc, &now, &stage.halves.left, a)?;
    let of_b = chain_failure(stage.alloc, &now, &stage.halves.right, b)?;
    let of_merge = next_failure(merging.facts(), &now)?;
    Ok(earlier(earlier(of_a, of_b), of_merge))
}

/// A merge of twice 16 points goes through 100 failure moments.
fn crowd_passes<L: Ledger>(alloc: Global, seed: u64, blank: Blank) -> Result<Passed, Fault>
    requires name { blank.name ≡ L.name }
    requires parts { blank.parts ≡ L.parts }
    requires some { 0 < L.parts }
{
    let mut steps = Steps::<Callers<L>>::open(blank);
    let stage = Stage::new(alloc, crowd_of_motions(alloc, seed)?, 16, 32)?;
    let mut now = at(-1);
    let mut merging = stage.upper(None, &now, &mut steps)?;
    let mut passed = 0;
    for turn in 0..100 {
        let Some(next) = next_change(&stage, &merging, &now)? else {
            break;
        };
        merging = stage.upper(Some(merging), &next, &mut steps)?;
        now = next;
        passed = turn + 1;
    }
    let (all, counted) = stage.tally.take();
    Ok((passed, all, counted))
}

#[test]
fn twice_sixteen_points_through_300_failure_moments(rt: HostRuntime) -> Result<(), Fail> {
    for seed in [1, 2, 3] {
        let (passed, all, counted) = crowd_passes::<Brand>(rt.alloc(), seed, Blank::new(1))?;
        assert_eq!(rt; passed, 100, "{seed}");
        assert!(rt; all >= 100);
        assert_eq!(rt; all, counted);
    }
    Ok(())
}
