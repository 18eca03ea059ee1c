//! Three points that meet.

ghost use Rattle.std.specs.Prelude.{◌≡◌, ◌<◌, ◌^◌, unsigned_abs, ◌↔◌, ◌++◌, ◌∷◌, [], cond, Contains, IsTrue, IfOk, OnOk};
ghost use Rattle.kin_motion.specs.declared.fact.Placed.{Placed as Put};
ghost use Rattle.kin_motion.specs.Forms.{IsAskable};
ghost use Rattle.kin_motion.specs.Scene.{Holds, scene_at};
ghost use Rattle.kin_motion.specs.Sets.{AreDistinct, ListsExactly};

use crate::watch::Watch;
use kin_instant::ratio::ratio;
use kin_motion::{Delta, Fact, Kinetic, Motion, Motions, Placed, Signs};
use kin_num::{Moment, NoMemory, Phase, Steps};
use kin_sorted::{Direction, Sorted};
use std::alloc::Global;
use std::marker::Brand;
use std::sync::ledger::{Blank, Ledger};
use std::test::Fail;

/// The place of each point, how many exchanges were made, and how many facts were dropped and born.
type Seen = ([Option<u32>; 3], usize, usize, usize);

/// Whether a fact doesn't hold now.
fn fails<L: Ledger>(fact: &Fact, now: &Watch<'_>, steps: &mut Steps<L>) -> bool
    requires { IsAskable (scene_at now.now.motions.now now.now.moment.now).live fact.now.form }
    ensures { IsTrue result ↔ ¬ (Holds (scene_at now.now.motions.now now.now.moment.now) fact.now) }
{
    let sign = now.sign(&fact.form, steps);
    sign != fact.sign
}

fn push_if(facts: &mut Vec<Placed>, fact: Placed, is_wanted: bool) -> Result<(), NoMemory>
    ensures { OnOk result (facts.new.items ≡ cond is_wanted (facts.old.items ++ fact ∷ []) facts.old.items) }
{
    if is_wanted {
        facts.reserve(1)?;
        facts.push_reserved(fact);
    }
    Ok(())
}

/// Those of the facts that don't hold now.
fn failing<L: Ledger>(
    alloc: Global,
    facts: &[Placed],
    now: &Watch<'_>,
    steps: &mut Steps<L>,
) -> Result<Vec<Placed>, NoMemory>
    requires apart { AreDistinct facts.now }
    requires askable { (p : Put) → Contains facts.now p
        → IsAskable (scene_at now.now.motions.now now.now.moment.now).live p.fact.form }
    ensures { IfOk result (λ v. ListsExactly v.items (λ p. Contains facts.now p
        × ¬ (Holds (scene_at now.now.motions.now now.now.moment.now) p.fact))) }
{
    let mut failed = Vec::new(alloc);
    for placed in facts {
        let picked = fails(&placed.fact, now, steps);
        push_if(&mut failed, *placed, picked)?;
    }
    Ok(failed)
}

/// Three points that meet at 5, marked before a settle at 4, with one mark taken back and made again. At the whole time
/// the facts that fail are repaired.
fn places_at<L: Ledger>(alloc: Global, time: i64, steps: &mut Steps<L>) -> Result<Seen, NoMemory>
    requires { unsigned_abs time < 2 ^ 31 }
{
    let mut motions = Motions::new(alloc, 2)?;
    motions.set(0, Motion::new(0, 0, 1, 0));
    motions.set(1, Motion::new(10, 0, -1, 0));
    motions.set(2, Motion::new(5, 0, 0, 0));
    let mut list = Sorted::new(alloc, Direction::new(1, 0, 4))?;
    list.insert(2)?;
    list.insert(0)?;
    list.remove(2)?;
    list.insert(1)?;
    list.insert(2)?;
    let first = Moment {
        at: ratio(4, 1),
        phase: Phase::At,
    };
    first.at.recall_canonical();
    let now = Watch {
        motions: &motions,
        moment: &first,
    };
    let mut out = Delta::new(alloc);
    list.settle(&now, &[], &mut out, steps)?;
    let moment = Moment {
        at: ratio(time, 1),
        phase: Phase::At,
    };
    moment.at.recall_canonical();
    let later = Watch {
        motions: &motions,
        moment: &moment,
    };
    let failed = failing(alloc, &out.born, &later, steps)?;
    let mut report = Delta::new(alloc);
    list.settle(&later, &failed, &mut report, steps)?;
    let places = [list.place_of(0), list.place_of(1), list.place_of(2)];
    Ok((
        places,
        list.swaps().len(),
        report.dropped.len(),
        report.born.len(),
    ))
}

/// Before, at and after the meeting.
fn meetings<L: Ledger>(alloc: Global, blank: Blank) -> Result<[Seen; 3], NoMemory>
    requires name { blank.name ≡ L.name }
    requires parts { blank.parts ≡ L.parts }
    requires some { 0 < L.parts }
{
    let mut steps: Steps<L> = Steps::open(blank);
    let before = places_at(alloc, 4, &mut steps)?;
    let meeting = places_at(alloc, 5, &mut steps)?;
    let after = places_at(alloc, 6, &mut steps)?;
    Ok([before, meeting, after])
}

#[test]
fn three_points_that_meet(rt: HostRuntime) -> Result<(), Fail> {
    let seen = meetings::<Brand>(rt.alloc(), Blank::new(1))?;
    assert_eq!(rt;
        seen,
        [
            ([Some(0), Some(2), Some(1)], 0, 0, 0),
            ([Some(0), Some(1), Some(2)], 1, 2, 2),
            ([Some(2), Some(0), Some(1)], 3, 2, 2),
        ]
    );
    Ok(())
}
