//! Two points race in a kinetic tournament.

ghost use Rattle.std.specs.Prelude.{◌≡◌, ◌<◌, ◌^◌, ℕ, [], unsigned_abs, Some, IsTrue};
ghost use Rattle.kin_motion.specs.Course.{live_of};
ghost use Rattle.kin_motion.specs.Numbers.{IsIn};
ghost use Rattle.kin_motion.specs.Tournaments.{item_in};

use crate::watch::Watch;
use kin_instant::ratio::ratio;
use kin_motion::{Delta, Kinetic, Motion, Motions};
use kin_num::{Moment, NoMemory, Phase, Steps};
use kin_tourney::{Along, Tourney};
use std::alloc::Global;
use std::cell::Cell;
use std::marker::Brand;
use std::sync::ledger::{Blank, Ledger};
use std::test::Fail;

/// The winner, and how often a sign was asked for it.
type Seen = (Option<u32>, u64);

/// Two points that meet at 5.
fn race<L: Ledger>(alloc: Global, time: i64, steps: &mut Steps<L>) -> Result<Seen, NoMemory>
    requires { unsigned_abs time < 2 ^ 31 }
{
    let mut motions = Motions::new(alloc, 1)?;
    motions.set(0, Motion::new(0, 0, 1, 0));
    motions.set(1, Motion::new(10, 0, -1, 0));
    let mut tourney = Tourney::new(alloc, Along { dx: 1, dy: 0 }, 1)?;
    tourney.set(0, 0);
    tourney.set(1, 1);
    first_seen(alloc, tourney, &motions, time, steps)
}

/// Both slots are set and cleared again, before one settle.
fn cleared<L: Ledger>(alloc: Global, steps: &mut Steps<L>) -> Result<Seen, NoMemory> {
    let motions = Motions::new(alloc, 1)?;
    let mut tourney = Tourney::new(alloc, Along { dx: 1, dy: 0 }, 1)?;
    tourney.set(0, 0);
    tourney.set(1, 1);
    tourney.clear(0);
    tourney.clear(1);
    first_seen(alloc, tourney, &motions, 4, steps)
}

/// The winner of a new tournament of two points, each in its own slot or in none, at a whole time.
fn first_seen<L: Ledger>(
    alloc: Global,
    mut tourney: Tourney<Along>,
    motions: &Motions,
    time: i64,
    steps: &mut Steps<L>,
) -> Result<Seen, NoMemory>
    requires near { unsigned_abs time < 2 ^ 31 }
    requires size { tourney.size ≡ 1 }
    requires whole { IsTrue tourney.whole }
    requires first { tourney.facts ≡ [] }
    requires own { (i a : ℕ) → item_in tourney.slots i ≡ Some a → i ≡ a }
    requires live { (i a : ℕ) → item_in tourney.slots i ≡ Some a → IsIn a (live_of motions.now) }
{
    let calls: Cell<u64> = Cell::new(0);
    let moment = Moment {
        at: ratio(time, 1),
        phase: Phase::At,
    };
    moment.at.recall_canonical();
    let now = Watch {
        motions,
        moment: &moment,
        calls: &calls,
    };
    let mut out = Delta::new(alloc);
    tourney.settle(&now, &[], &mut out, steps)?;
    Ok((tourney.winner(1), calls.get()))
}

/// Before, at and after the meeting, and with both slots cleared.
fn races<L: Ledger>(alloc: Global, blank: Blank) -> Result<[Seen; 4], NoMemory>
    requires name { blank.name ≡ L.name }
    requires parts { blank.parts ≡ L.parts }
    requires some { 0 < L.parts }
{
    let mut steps: Steps<L> = Steps::open(blank);
    let before = race(alloc, 4, &mut steps)?;
    let meeting = race(alloc, 5, &mut steps)?;
    let after = race(alloc, 6, &mut steps)?;
    let none = cleared(alloc, &mut steps)?;
    Ok([before, meeting, after, none])
}

#[test]
fn two_points_that_meet(rt: HostRuntime) -> Result<(), Fail> {
    let winners = races::<Brand>(rt.alloc(), Blank::new(1))?;
    assert_eq!(rt;
        winners,
        [(Some(1), 1), (Some(0), 1), (Some(0), 1), (None, 0)]
    );
    Ok(())
}
