//! Scripts of steps, with their answers, worked out by hand.

use crate::follow::first_wrong_script;
use crate::script::{
    Call, EAST, EXTREME_EAST, EXTREME_NORTH, MEET, NORTH, ORDER_EAST, ORDER_NORTH, PART, Script,
    WEST,
};
use kin_num::{Phase, Sign};
use std::test::Fail;

/// Two points meet at 5 and pass each other.
const CROSSING: Script = (
    1,
    &[ORDER_EAST],
    &[
        Call::MayInsert(0, true),
        Call::MayInsert(1, true),
        Call::MayInsert(2, false),
        Call::Order(0, &[]),
        Call::Insert(0, [0, 0, 1, 0]),
        Call::MayInsert(0, false),
        Call::Order(0, &[0]),
        Call::Facts(0, 0),
        Call::Next(None),
        Call::Insert(1, [10, 0, -1, 0]),
        Call::Facts(1, 1),
        Call::Next(Some((5, Phase::At))),
        Call::Moves((4, Phase::At)),
        Call::Order(0, &[0, 1]),
        Call::SignOf((0, 0), EAST, Some(Sign::Plus)),
        Call::SignOf((0, 0), WEST, None),
        Call::SignOf((0, 1), EAST, None),
        Call::SignOf((1, 0), EAST, None),
        Call::Stops((5, Phase::At), (5, Phase::At), &[((0, 0), EAST, MEET)]),
        Call::Order(0, &[0, 1]),
        Call::Moves((5, Phase::At)),
        Call::Order(0, &[0, 1]),
        Call::SignOf((0, 0), EAST, Some(Sign::Zero)),
        Call::Facts(1, 2),
        Call::Next(Some((5, Phase::After))),
        Call::Stops((6, Phase::At), (5, Phase::After), &[((0, 0), EAST, PART)]),
        Call::Next(None),
        Call::Moves((6, Phase::At)),
        Call::Order(0, &[1, 0]),
        Call::SignOf((0, 0), EAST, None),
        Call::SignOf((0, 0), WEST, Some(Sign::Plus)),
        Call::Facts(1, 3),
    ],
);

/// Three points meet at 5: two facts of one structure fail together.
const THREE: Script = (
    2,
    &[ORDER_EAST],
    &[
        Call::Insert(0, [0, 0, 1, 0]),
        Call::Insert(1, [5, 0, 0, 0]),
        Call::Insert(2, [10, 0, -1, 0]),
        Call::Facts(2, 2),
        Call::Stops(
            (5, Phase::At),
            (5, Phase::At),
            &[((0, 0), EAST, MEET), ((0, 0), ((1, 0), (1, 2)), MEET)],
        ),
        Call::Order(0, &[0, 1, 2]),
        Call::Facts(2, 4),
        Call::Stops(
            (6, Phase::At),
            (5, Phase::After),
            &[((0, 0), EAST, PART), ((0, 0), ((1, 0), (1, 2)), PART)],
        ),
        Call::Moves((6, Phase::At)),
        Call::Order(0, &[2, 1, 0]),
        Call::Facts(2, 6),
    ],
);

/// Three points meet at 5, and no failures are listed.
const UNLISTED: Script = (
    2,
    &[ORDER_EAST],
    &[
        Call::Insert(0, [0, 0, 1, 0]),
        Call::Insert(1, [5, 0, 0, 0]),
        Call::Insert(2, [10, 0, -1, 0]),
        Call::Passes((5, Phase::At), (5, Phase::At), 2),
        Call::Order(0, &[0, 1, 2]),
        Call::Facts(2, 4),
        Call::Moves((5, Phase::At)),
        Call::Passes((6, Phase::At), (5, Phase::After), 2),
        Call::Order(0, &[2, 1, 0]),
        Call::Facts(2, 6),
        Call::Runs((6, Phase::At)),
        Call::Order(0, &[2, 1, 0]),
        Call::Facts(2, 6),
    ],
);

/// The extreme point of two that meet at 5.
const OVERTAKING: Script = (
    1,
    &[EXTREME_EAST],
    &[
        Call::Extreme(0, None),
        Call::Insert(0, [0, 0, 1, 0]),
        Call::Extreme(0, Some(0)),
        Call::Insert(1, [10, 0, -1, 0]),
        Call::Moves((4, Phase::At)),
        Call::Extreme(0, Some(1)),
        Call::Stops((5, Phase::At), (5, Phase::At), &[((0, 1), EAST, MEET)]),
        Call::Extreme(0, Some(0)),
        Call::Stops((6, Phase::At), (5, Phase::After), &[((0, 1), EAST, PART)]),
        Call::Moves((6, Phase::At)),
        Call::Extreme(0, Some(0)),
        Call::SignOf((0, 1), EAST, Some(Sign::Minus)),
    ],
);

/// Two points meet at 5, so one fact of each structure fails there.
const TOGETHER: Script = (
    1,
    &[ORDER_EAST, ORDER_NORTH, EXTREME_EAST, EXTREME_NORTH],
    &[
        Call::Insert(0, [0, 0, 1, 1]),
        Call::Insert(1, [10, 10, -1, -1]),
        Call::Facts(4, 4),
        Call::Extreme(2, Some(1)),
        Call::Extreme(3, Some(1)),
        Call::Stops(
            (9, Phase::At),
            (5, Phase::At),
            &[
                ((0, 0), EAST, MEET),
                ((1, 0), NORTH, MEET),
                ((2, 1), EAST, MEET),
                ((3, 1), NORTH, MEET),
            ],
        ),
        Call::Order(0, &[0, 1]),
        Call::Order(1, &[0, 1]),
        Call::Extreme(2, Some(0)),
        Call::Extreme(3, Some(0)),
        Call::Facts(4, 8),
        Call::Stops(
            (5, Phase::After),
            (5, Phase::After),
            &[
                ((0, 0), EAST, PART),
                ((1, 0), NORTH, PART),
                ((2, 1), EAST, PART),
                ((3, 1), NORTH, PART),
            ],
        ),
        Call::Order(0, &[1, 0]),
        Call::Order(1, &[1, 0]),
        Call::Extreme(2, Some(0)),
        Call::Extreme(3, Some(0)),
        Call::Facts(4, 12),
        Call::Next(None),
    ],
);

/// The x of two points are the same at 5, and their y at 7.
const IN_TURN: Script = (
    1,
    &[ORDER_EAST, ORDER_NORTH, EXTREME_EAST, EXTREME_NORTH],
    &[
        Call::Insert(0, [0, 0, 1, 1]),
        Call::Insert(1, [10, 14, -1, -1]),
        Call::Stops(
            (9, Phase::At),
            (5, Phase::At),
            &[((0, 0), EAST, MEET), ((2, 1), EAST, MEET)],
        ),
        Call::SignOf((1, 0), NORTH, Some(Sign::Plus)),
        Call::Facts(4, 6),
        Call::Stops(
            (9, Phase::At),
            (5, Phase::After),
            &[((0, 0), EAST, PART), ((2, 1), EAST, PART)],
        ),
        Call::Order(0, &[1, 0]),
        Call::Order(1, &[0, 1]),
        Call::Extreme(2, Some(0)),
        Call::Extreme(3, Some(1)),
        Call::Stops(
            (9, Phase::At),
            (7, Phase::At),
            &[((1, 0), NORTH, MEET), ((3, 1), NORTH, MEET)],
        ),
        Call::Extreme(3, Some(0)),
        Call::Stops(
            (9, Phase::At),
            (7, Phase::After),
            &[((1, 0), NORTH, PART), ((3, 1), NORTH, PART)],
        ),
        Call::Order(1, &[1, 0]),
        Call::Extreme(3, Some(0)),
        Call::Facts(4, 12),
        Call::Moves((9, Phase::At)),
    ],
);

/// A number enters with the motion of another, the lesser one last.
const ALIKE: Script = (
    1,
    &[ORDER_EAST, EXTREME_EAST],
    &[
        Call::Insert(1, [3, 4, 1, 1]),
        Call::Extreme(1, Some(1)),
        Call::Insert(0, [3, 4, 1, 1]),
        Call::Order(0, &[0, 1]),
        Call::Extreme(1, Some(0)),
        Call::SignOf((0, 0), EAST, Some(Sign::Zero)),
        Call::SignOf((1, 1), EAST, Some(Sign::Zero)),
        Call::Facts(2, 2),
        Call::Next(None),
        Call::Moves((7, Phase::After)),
        Call::Order(0, &[0, 1]),
    ],
);

/// A number enters at 5 at the place of another, which moves on.
const LATE: Script = (
    1,
    &[ORDER_EAST, EXTREME_EAST],
    &[
        Call::Insert(0, [0, 0, 1, 0]),
        Call::Moves((5, Phase::At)),
        Call::Insert(1, [5, 0, 0, 0]),
        Call::Order(0, &[0, 1]),
        Call::Extreme(1, Some(0)),
        Call::Next(Some((5, Phase::After))),
        Call::Stops(
            (9, Phase::At),
            (5, Phase::After),
            &[((0, 0), EAST, PART), ((1, 1), EAST, PART)],
        ),
        Call::Order(0, &[1, 0]),
        Call::Extreme(1, Some(0)),
        Call::Facts(2, 4),
    ],
);

/// 0 passes 1 at 5 (x = 15), and wins against 3 at 10 (x = 30). The order between is 1, 0, 3.
const TWO_ROUNDS: Script = (
    2,
    &[EXTREME_EAST, ORDER_EAST],
    &[
        Call::Insert(0, [0, 0, 3, 0]),
        Call::Insert(3, [40, 0, -1, 0]),
        Call::Insert(1, [10, 0, 1, 0]),
        Call::Order(1, &[0, 1, 3]),
        Call::SignOf((1, 0), ((1, 0), (0, 3)), None),
        Call::SignOf((0, 2), EAST, Some(Sign::Plus)),
        Call::SignOf((0, 1), ((1, 0), (1, 3)), Some(Sign::Plus)),
        Call::Facts(4, 6),
        Call::Stops(
            (10, Phase::At),
            (5, Phase::At),
            &[((0, 2), EAST, MEET), ((1, 0), EAST, MEET)],
        ),
        Call::SignOf((0, 1), ((1, 0), (1, 3)), None),
        Call::SignOf((0, 1), ((1, 0), (0, 3)), Some(Sign::Plus)),
        Call::Extreme(0, Some(3)),
        Call::Facts(4, 9),
        Call::Stops(
            (10, Phase::At),
            (5, Phase::After),
            &[((0, 2), EAST, PART), ((1, 0), EAST, PART)],
        ),
        Call::Order(1, &[1, 0, 3]),
        Call::Facts(4, 12),
        Call::Stops(
            (10, Phase::At),
            (10, Phase::At),
            &[
                ((0, 1), ((1, 0), (0, 3)), MEET),
                ((1, 0), ((1, 0), (0, 3)), MEET),
            ],
        ),
        Call::Extreme(0, Some(0)),
        Call::Order(1, &[1, 0, 3]),
    ],
);

const SCRIPTS: [Script; 9] = [
    CROSSING, THREE, OVERTAKING, UNLISTED, TOGETHER, IN_TURN, ALIKE, LATE, TWO_ROUNDS,
];

#[test]
fn scripts_have_their_answers(rt: HostRuntime) -> Result<(), Fail> {
    let wrong = first_wrong_script(rt.alloc(), &SCRIPTS)?;
    assert!(rt; wrong == None, "script and call {wrong:?}");
    Ok(())
}
