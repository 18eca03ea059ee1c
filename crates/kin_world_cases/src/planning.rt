//! Scripts of calls in which points follow planned legs, with their answers, worked out by hand.

use crate::follow::first_wrong_script;
use crate::script::{Call, EAST, MEET, ORDER_EAST, Script};
use kin_num::{Phase, Sign};
use kin_world::LegError;
use std::test::Fail;

/// A leg begins where nothing fails, and is planned, refused and dropped.
const A_LEG_ALONE: Script = (
    1,
    &[ORDER_EAST],
    &[
        Call::Insert(0, [0, 0, 1, 0]),
        Call::Insert(1, [10, 0, 0, 0]),
        Call::Plans(0, 0, (3, 0), Some(LegError::Past)),
        Call::Plans(0, 4, (3, 0), None),
        Call::Facts(1, 1),
        Call::Next(Some((4, Phase::At))),
        Call::Goes(0, Some([0, 0, 1, 0])),
        Call::Moves((4, Phase::At)),
        // The one fact names the point.
        Call::Facts(1, 2),
        Call::Goes(0, Some([-8, 0, 3, 0])),
        Call::Next(Some((6, Phase::At))),
        Call::Plans(0, 4, (0, 0), Some(LegError::Past)),
        Call::Plans(0, 5, (0, 0), None),
        Call::Plans(0, 5, (1, 0), Some(LegError::Planned)),
        // From 7 at the time 8192 back to the time 0.
        Call::Plans(0, 8192, (2, 0), Some(LegError::OutOfBounds)),
        Call::Plans(0, 8192, (1, 0), None),
        Call::Plans(0, 6, (1, 0), Some(LegError::Planned)),
        Call::Next(Some((5, Phase::At))),
        Call::Turns(0, (2, 0), None),
        Call::Facts(1, 3),
        Call::Next(Some((7, Phase::At))),
    ],
);

/// Two legs begin together, and the fact that names both points is timed for each.
const LEGS_TOGETHER: Script = (
    1,
    &[ORDER_EAST],
    &[
        Call::Insert(0, [0, 0, 1, 0]),
        Call::Insert(1, [10, 0, 0, 0]),
        Call::Plans(1, 4, (1, 0), None),
        Call::Plans(0, 4, (2, 0), None),
        Call::Moves((9, Phase::At)),
        Call::Facts(1, 3),
        Call::Goes(0, Some([-4, 0, 2, 0])),
        Call::Goes(1, Some([6, 0, 1, 0])),
        Call::Next(Some((10, Phase::At))),
    ],
);

/// A point turns back where it meets another: first the repair, then the leg.
const A_LEG_AT_A_MEETING: Script = (
    1,
    &[ORDER_EAST],
    &[
        Call::Insert(0, [0, 0, 1, 0]),
        Call::Insert(1, [4, 0, 0, 0]),
        Call::Plans(0, 4, (-1, 0), None),
        Call::Next(Some((4, Phase::At))),
        Call::Stops((9, Phase::At), (4, Phase::At), &[((0, 0), EAST, MEET)]),
        Call::Facts(1, 3),
        Call::Goes(0, Some([8, 0, -1, 0])),
        Call::Next(Some((4, Phase::After))),
        Call::Stops(
            (9, Phase::At),
            (4, Phase::After),
            &[((0, 0), EAST, (Sign::Zero, Sign::Plus))],
        ),
        Call::Facts(1, 4),
        Call::Order(0, &[0, 1]),
        Call::Next(None),
    ],
);

/// The same by leaps: none goes over the leg.
const LEAPS_TO_A_LEG: Script = (
    1,
    &[ORDER_EAST],
    &[
        Call::Insert(0, [0, 0, 1, 0]),
        Call::Insert(1, [4, 0, 0, 0]),
        Call::Plans(0, 4, (-1, 0), None),
        Call::Leaps((9, Phase::At), Some((4, Phase::At))),
        Call::Leaps((9, Phase::At), Some((4, Phase::After))),
        Call::Leaps((9, Phase::At), None),
        Call::Order(0, &[0, 1]),
        Call::Facts(1, 4),
    ],
);

/// A point that leaves or starts anew has no legs any more.
const LEGS_ARE_DROPPED: Script = (
    1,
    &[ORDER_EAST],
    &[
        Call::Insert(0, [0, 0, 0, 0]),
        Call::Insert(1, [4, 0, 0, 0]),
        Call::Plans(0, 2, (3, 0), None),
        Call::Plans(1, 3, (3, 0), None),
        Call::Remove(0),
        Call::Next(Some((3, Phase::At))),
        Call::Insert(0, [0, 0, 0, 0]),
        Call::Next(Some((3, Phase::At))),
        Call::Replace(1, [4, 0, 0, 0]),
        Call::Next(None),
        Call::Moves((9, Phase::At)),
        Call::Goes(1, Some([4, 0, 0, 0])),
    ],
);

const PLANNING: [Script; 5] = [
    A_LEG_ALONE,
    LEGS_TOGETHER,
    A_LEG_AT_A_MEETING,
    LEAPS_TO_A_LEG,
    LEGS_ARE_DROPPED,
];

#[test]
fn legs_have_their_answers(rt: HostRuntime) -> Result<(), Fail> {
    let wrong = first_wrong_script(rt.alloc(), &PLANNING)?;
    assert!(rt; wrong == None, "script and call {wrong:?}");
    Ok(())
}
