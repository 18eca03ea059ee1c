//! Merges of two chains whose halves change: one empties and fills again, and a point leaves a chain.

ghost use Rattle.std.specs.Prelude.{◌≡◌, ◌<◌};

use crate::visits::{Halves, Stage};
use kin_cases::ask::Sight;
use kin_cases::definition::are_same;
use kin_cases::failing::failing;
use kin_cases::fault::Fault;
use kin_cases::merging::Merging;
use kin_cases::moments::{after, at};
use kin_cases::spares::{SparesNamed, SparesNone};
use kin_cases::watch::Callers;
use kin_cases::written::are_written;
use kin_motion::{Fact, Form, Placed};
use kin_num::{Moment, Sign, Steps};
use std::alloc::Global;
use std::marker::Brand;
use std::sync::ledger::{Blank, Ledger};
use std::test::Fail;

/// The facts of the merge at a moment, and how many are left of them after its end.
fn end_at<L: Ledger>(
    stage: &Stage,
    moment: Moment,
    steps: &mut Steps<L>,
) -> Result<(Vec<Placed>, usize), Fault> {
    let merging = stage.upper(None, &moment, steps)?;
    let facts = Vec::from_slice(stage.alloc, merging.facts())?;
    let left = merging.retire()?;
    Ok((facts, left.len()))
}

/// The merged chain at a moment.
fn chain_at<L: Ledger>(
    stage: &Stage,
    moment: Moment,
    steps: &mut Steps<L>,
) -> Result<Vec<u32>, Fault> {
    let merging = stage.upper(None, &moment, steps)?;
    let chain = Vec::from_slice(stage.alloc, merging.chain())?;
    Ok(chain)
}

/// The same points, with the right half that has this number alone.
fn with_right(stage: Stage, no: u32) -> Result<Stage, Fault> {
    let Stage {
        alloc,
        motions,
        halves,
        tally,
    } = stage;
    let Halves { left, right: _ } = halves;
    let right = Vec::from_slice(alloc, &[no])?;
    Ok(Stage {
        alloc,
        motions,
        halves: Halves { left, right },
        tally,
    })
}

/// The facts of the merge of 0 1 and 2 just after 0, and how many are left of them after its end; and
/// the chain of the merge that is built anew with 3 as the right half.
fn half_changes<L: Ledger>(
    alloc: Global,
    blank: Blank,
) -> Result<(Vec<Placed>, usize, Vec<u32>), Fault>
    requires name { blank.name ≡ L.name }
    requires parts { blank.parts ≡ L.parts }
    requires some { 0 < L.parts }
{
    let mut steps = Steps::<Callers<L>>::open(blank);
    let stage = Stage::written(alloc, "0 0 0 0, 0 2 1 0, 1 0 0 1, -1 5 0 0", 2)?;
    let stage = with_right(stage, 2)?;
    let (facts, left) = end_at(&stage, after(0), &mut steps)?;
    let stage = with_right(stage, 3)?;
    let chain = chain_at(&stage, at(1), &mut steps)?;
    Ok((facts, left, chain))
}

fn fact_of(form: Form, sign: Sign) -> Placed {
    Placed {
        part: 6,
        fact: Fact { form, sign },
    }
}

#[test]
fn a_half_empties_and_fills_again(rt: HostRuntime) -> Result<(), Fail> {
    let (facts, left, chain) = half_changes::<Brand>(rt.alloc(), Blank::new(1))?;
    let to_the_right = |i: u32| {
        let form = Form::Line {
            dx: 1,
            dy: 0,
            off: 0,
            i,
            j: 2,
        };
        fact_of(form, Sign::Plus)
    };
    let turn = fact_of(Form::Turn { i: 0, j: 1, k: 2 }, Sign::Minus);
    assert!(rt; are_same(&facts, &[turn, to_the_right(0), to_the_right(1)]));
    assert!(rt; are_written(&chain, left, "3 1 / 0"));
    Ok(())
}

/// How many facts of a merge fail at a moment, in all and without those that name a number.
fn failures_at<'a>(
    stage: &'a Stage,
    merging: &Merging,
    moment: &'a Moment,
    gone: u32,
) -> Result<(usize, usize), Fault> {
    let watch = stage.watch(moment);
    let now = watch.plain();
    let sight = Sight::at(&now);
    let all = failing(stage.alloc, merging.facts(), &sight, &SparesNone)?;
    let gone = [gone];
    let handed = failing(
        stage.alloc,
        merging.facts(),
        &sight,
        &SparesNamed { gone: &gone },
    )?;
    Ok((all.len(), handed.len()))
}

/// What fails where the middle point of a chain leaves it, and whether the merge goes on.
fn middle_leaves<L: Ledger>(alloc: Global, blank: Blank) -> Result<(usize, usize, bool), Fault>
    requires name { blank.name ≡ L.name }
    requires parts { blank.parts ≡ L.parts }
    requires some { 0 < L.parts }
{
    let mut steps = Steps::<Callers<L>>::open(blank);
    let stage = Stage::written(alloc, "0 0 0 0, 2 1 0 -1, 4 0 0 0, 10 1 0 -1", 3)?;
    let merging = stage.upper(None, &at(0), &mut steps)?;
    let leaving = at(1);
    let (all, handed) = failures_at(&stage, &merging, &leaving, 1)?;
    let merging = stage.upper(Some(merging), &leaving, &mut steps)?;
    let goes_on = are_written(merging.chain(), merging.facts().len(), "0 3 / 3");
    Ok((all, handed, goes_on))
}

#[test]
fn facts_that_name_a_dropped_number_are_spared(rt: HostRuntime) -> Result<(), Fail> {
    let (all, handed, goes_on) = middle_leaves::<Brand>(rt.alloc(), Blank::new(1))?;
    assert_eq!(rt; (all, handed), (2, 0));
    assert!(rt; goes_on);
    Ok(())
}
