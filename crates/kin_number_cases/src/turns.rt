//! Turns worked out by hand.

use crate::instants::instant;
use kin_motion::Motion;
use kin_num::{Moment, Phase};
use kin_turn::turned::{TurnError, turned};

/// The root of 2.
const ROOT_TWO: [i64; 4] = [1, 0, -2, 1];

/// What comes of a turn from the speed `u` to `new_u`, of a point that starts at `(x, 7)` and moves along x alone: the
/// new constant part of x.
fn turn(x: i16, u: i8, new_u: i8, at: [i64; 4], phase: Phase) -> Option<Result<i32, TurnError>> {
    let motion = Motion::new(i32::from(x % 8193), 7, i32::from(u), 0);
    let now = Moment {
        at: instant(at)?,
        phase,
    };
    Some(turned(&motion, &now, i32::from(new_u), 0).map(|turned| turned.x()))
}

#[test]
fn a_turn_starts_elsewhere(rt: HostRuntime) {
    for (x, u, new_u, at, start) in [
        // 2t and 4t - 1 are both 1 at 1/2, and -3t and 6 - 5t both -9 at 3.
        (0, 2, 4, [0, 1, 2, 0], -1),
        (0, -3, -5, [0, 3, 1, 0], 6),
        // 10 + 6t and 15 + 0t are both 15 at 5/6.
        (10, 6, 0, [0, 5, 6, 0], 15),
    ] {
        assert_eq!(rt;
            turn(x, u, new_u, at, Phase::At),
            Some(Ok(start)),
            "{x} + {u}t at {at:?}"
        );
    }
}

#[test]
fn a_place_between_whole_numbers_is_refused(rt: HostRuntime) {
    for (x, u, new_u, at, phase) in [
        (0, 4, 5, [0, 11, 4, 0], Phase::At),
        (0, 2, 4, [0, 1, 2, 0], Phase::After),
        (8192, 1, 0, [0, 1, 2, 0], Phase::At),
    ] {
        assert_eq!(rt;
            turn(x, u, new_u, at, phase),
            Some(Err(TurnError::NotWhole)),
            "{x} + {u}t at {at:?}"
        );
    }
}

#[test]
fn at_an_irrational_instant_only_the_same_speed_is_taken(rt: HostRuntime) {
    for (new_u, turned) in [(3, Ok(5)), (4, Err(TurnError::NotWhole))] {
        assert_eq!(rt;
            turn(5, 3, new_u, ROOT_TWO, Phase::At),
            Some(turned),
            "to {new_u}"
        );
    }
}

#[test]
fn a_start_far_away_is_refused(rt: HostRuntime) {
    for (x, u, new_u, at, turned) in [
        (8192, 1, 0, [0, 1, 1, 0], Err(TurnError::OutOfBounds)),
        (8191, 1, 0, [0, 1, 1, 0], Ok(8192)),
        (-8192, 0, 1, [0, 1, 1, 0], Err(TurnError::OutOfBounds)),
        (-8192, -1, 0, [0, 0, 1, 0], Ok(-8192)),
    ] {
        assert_eq!(rt;
            turn(x, u, new_u, at, Phase::At),
            Some(turned),
            "{x} + {u}t at {at:?}"
        );
    }
}
