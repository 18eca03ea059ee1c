//! The ends of two boxes along x.

ghost use Rattle.std.specs.Prelude.{◌≡◌, ◌<◌, ◌^◌, unsigned_abs};

use crate::watch::Watch;
use kin_instant::ratio::ratio;
use kin_motion::{Delta, Kinetic, Motion, Motions};
use kin_num::{Moment, NoMemory, Phase, Steps};
use kin_sorted::{End, Ends, Side, Sorted};
use std::alloc::Global;
use std::marker::Brand;
use std::sync::ledger::{Blank, Ledger};
use std::test::Fail;

/// The places of the low and the high end of the first box, and of those of the second one.
type Seen = [Option<u32>; 4];

fn low(point: u32) -> End
    ensures { result ≡ record { point = point; side = Side.Low } }
{
    End {
        point,
        side: Side::Low,
    }
}

fn high(point: u32) -> End
    ensures { result ≡ record { point = point; side = Side.High } }
{
    End {
        point,
        side: Side::High,
    }
}

/// Two boxes of width 2, one of which comes to the other, passes it and leaves it, at a whole time.
fn places_at<L: Ledger>(alloc: Global, time: i64, steps: &mut Steps<L>) -> Result<Seen, NoMemory>
    requires { unsigned_abs time < 2 ^ 31 }
{
    let mut motions = Motions::new(alloc, 1)?;
    motions.set(0, Motion::new(0, 0, 1, 0));
    motions.set(1, Motion::new(5, 0, 0, 0));
    let mut list = Sorted::new(alloc, Ends::new(1, 0, 2, 2))?;
    list.insert(high(1))?;
    list.insert(low(0))?;
    list.insert(low(1))?;
    list.insert(high(0))?;
    let moment = Moment {
        at: ratio(time, 1),
        phase: Phase::At,
    };
    moment.at.recall_canonical();
    let now = Watch {
        motions: &motions,
        moment: &moment,
    };
    let mut out = Delta::new(alloc);
    list.settle(&now, &[], &mut out, steps)?;
    Ok([
        list.place_of(low(0)),
        list.place_of(high(0)),
        list.place_of(low(1)),
        list.place_of(high(1)),
    ])
}

/// Apart, touching, touching again and apart.
fn passing<L: Ledger>(alloc: Global, blank: Blank) -> Result<[Seen; 4], NoMemory>
    requires name { blank.name ≡ L.name }
    requires parts { blank.parts ≡ L.parts }
    requires some { 0 < L.parts }
{
    let mut steps: Steps<L> = Steps::open(blank);
    let apart = places_at(alloc, 2, &mut steps)?;
    let first_touch = places_at(alloc, 3, &mut steps)?;
    let last_touch = places_at(alloc, 7, &mut steps)?;
    let gone = places_at(alloc, 8, &mut steps)?;
    Ok([apart, first_touch, last_touch, gone])
}

#[test]
fn two_boxes_that_pass(rt: HostRuntime) -> Result<(), Fail> {
    let seen = passing::<Brand>(rt.alloc(), Blank::new(1))?;
    assert_eq!(rt;
        seen,
        [
            [Some(0), Some(1), Some(2), Some(3)],
            [Some(0), Some(2), Some(1), Some(3)],
            [Some(1), Some(3), Some(0), Some(2)],
            [Some(2), Some(3), Some(0), Some(1)],
        ]
    );
    Ok(())
}
