//! Scripts of calls in which points turn, with their answers, worked out by hand.

use crate::follow::first_wrong_script;
use crate::script::{Call, EAST, EXTREME_EAST, MEET, ORDER_EAST, Script};
use kin_motion::{Keep, Rect};
use kin_num::{Phase, Sign};
use kin_turn::turned::TurnError;
use std::test::Fail;

/// Of two points one turns before they meet, where they meet, just after that, and past it.
const AROUND_A_MEETING: Script = (
    1,
    &[ORDER_EAST],
    &[
        Call::Insert(0, [0, 0, 1, 0]),
        Call::Insert(1, [10, 0, -1, 0]),
        Call::Moves((4, Phase::At)),
        // 2 + t stays before t.
        Call::Turns(1, (1, 0), None),
        Call::Facts(1, 2),
        Call::Next(None),
        Call::Turns(1, (-1, 0), None),
        Call::Facts(1, 3),
        Call::Next(Some((5, Phase::At))),
        Call::Stops((9, Phase::At), (5, Phase::At), &[((0, 0), EAST, MEET)]),
        // Both go together from now on.
        Call::Turns(1, (1, 0), None),
        Call::SignOf((0, 0), EAST, Some(Sign::Zero)),
        Call::Facts(1, 5),
        Call::Next(None),
        Call::Turns(1, (2, 0), None),
        Call::Next(Some((5, Phase::After))),
        Call::Stops(
            (9, Phase::At),
            (5, Phase::After),
            &[((0, 0), EAST, (Sign::Zero, Sign::Plus))],
        ),
        Call::Turns(1, (0, 0), Some(TurnError::NotWhole)),
        Call::Order(0, &[0, 1]),
        Call::Facts(1, 7),
        Call::Moves((9, Phase::At)),
        // From 13 back to the time 0 it is too far.
        Call::Turns(1, (8192, 0), Some(TurnError::OutOfBounds)),
        Call::Facts(1, 7),
        Call::Turns(1, (0, -3), None),
        Call::Facts(1, 8),
        Call::Next(Some((13, Phase::At))),
    ],
);

/// Exactly the facts that name the point are timed anew, in each structure.
const NAMED: Script = (
    2,
    &[ORDER_EAST, EXTREME_EAST],
    &[
        Call::Insert(0, [0, 0, 0, 0]),
        Call::Insert(1, [10, 0, 0, 0]),
        Call::Insert(2, [20, 0, 0, 0]),
        Call::Facts(4, 4),
        Call::Next(None),
        Call::Turns(1, (1, 0), None),
        Call::Facts(4, 8),
        Call::Next(Some((10, Phase::At))),
        Call::Turns(2, (0, 5), None),
        Call::Facts(4, 10),
        Call::Turns(0, (0, 0), None),
        Call::Facts(4, 12),
        Call::Next(Some((10, Phase::At))),
        Call::Turns(0, (3, 0), None),
        Call::Facts(4, 14),
        Call::Stops(
            (9, Phase::At),
            (5, Phase::At),
            &[((0, 0), EAST, MEET), ((1, 2), EAST, MEET)],
        ),
        Call::Facts(4, 17),
        // 0 goes with 1 from now on, and is named thrice.
        Call::Turns(0, (1, 0), None),
        Call::Facts(4, 20),
        Call::Order(0, &[0, 1, 2]),
        Call::Extreme(1, Some(2)),
        Call::Next(Some((10, Phase::At))),
    ],
);

/// Nothing that is asked changes at a turn. 2 goes away from 0, turns, and meets it at 5.
const ASKED_AT_A_TURN: Script = (
    2,
    &[Keep::Hull, Keep::Closest, Keep::Range],
    &[
        Call::Insert(0, [0, 0, 0, 0]),
        Call::Insert(1, [4, 0, 0, 0]),
        Call::Insert(2, [0, 3, 0, 0]),
        Call::Insert(3, [10, 10, 0, 0]),
        Call::Next(None),
        Call::Hull(0, &[0, 1, 3, 2]),
        Call::Closest(1, Some((0, 2))),
        Call::Turns(2, (0, 1), None),
        Call::Hull(0, &[0, 1, 3, 2]),
        Call::Closest(1, Some((0, 2))),
        Call::Runs((1, Phase::At)),
        Call::Closest(1, Some((0, 1))),
        Call::Turns(2, (0, -1), None),
        Call::Closest(1, Some((0, 1))),
        Call::Runs((2, Phase::At)),
        Call::Closest(1, Some((0, 2))),
        Call::Runs((5, Phase::At)),
        Call::Closest(1, Some((0, 2))),
        Call::Hull(0, &[0, 1, 3]),
        Call::Inside(
            2,
            Rect {
                x1: -1,
                x2: 1,
                y1: -1,
                y2: 1,
            },
            &[0, 2],
        ),
    ],
);

const TURNING: [Script; 3] = [AROUND_A_MEETING, NAMED, ASKED_AT_A_TURN];

#[test]
fn turns_have_their_answers(rt: HostRuntime) -> Result<(), Fail> {
    let wrong = first_wrong_script(rt.alloc(), &TURNING)?;
    assert!(rt; wrong == None, "script and call {wrong:?}");
    Ok(())
}
