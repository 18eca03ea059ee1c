//! Scripts of leaps, with their answers, worked out by hand.

use crate::follow::first_wrong_script;
use crate::script::{Call, ORDER_EAST, Script};
use kin_motion::Keep;
use kin_num::Phase;
use std::test::Fail;

/// Two points meet at 5 and pass each other: a leap goes over their meeting, and makes one fact and not two.
const OVER: Script = (
    1,
    &[ORDER_EAST],
    &[
        Call::Insert(0, [0, 0, 1, 0]),
        Call::Insert(1, [10, 0, -1, 0]),
        Call::Leaps((4, Phase::At), None),
        Call::Leaps((6, Phase::At), Some((5, Phase::After))),
        Call::Order(0, &[1, 0]),
        Call::Facts(1, 2),
        Call::Leaps((6, Phase::At), None),
    ],
);

/// The same with the meeting as the limit: a leap stops there, and the next one goes on from there.
const UP_TO: Script = (
    1,
    &[ORDER_EAST],
    &[
        Call::Insert(0, [0, 0, 1, 0]),
        Call::Insert(1, [10, 0, -1, 0]),
        Call::Leaps((5, Phase::At), Some((5, Phase::At))),
        Call::Order(0, &[0, 1]),
        Call::Facts(1, 2),
        Call::Leaps((5, Phase::At), None),
        Call::Leaps((5, Phase::After), Some((5, Phase::After))),
        Call::Order(0, &[1, 0]),
        Call::Facts(1, 3),
    ],
);

/// The same with just after the meeting as the limit: a leap goes there at once.
const JUST_PAST: Script = (
    1,
    &[ORDER_EAST],
    &[
        Call::Insert(0, [0, 0, 1, 0]),
        Call::Insert(1, [10, 0, -1, 0]),
        Call::Leaps((5, Phase::After), Some((5, Phase::After))),
        Call::Order(0, &[1, 0]),
        Call::Facts(1, 2),
    ],
);

/// At 10 a point is as near to another one as two others are to each other, and goes away again: that comparison fails at
/// 10 and holds again just after it, so a leap stops there. At 6, 8, 9, 11, 12 and 14 two points are exchanged in one of eight
/// orders.
const TOUCHING: Script = (
    2,
    &[Keep::Closest],
    &[
        Call::Insert(0, [0, 0, 0, 0]),
        Call::Insert(1, [2, 0, 0, 0]),
        Call::Insert(2, [100, 0, 0, 0]),
        Call::Insert(3, [90, 2, 1, 0]),
        Call::Leaps((20, Phase::At), Some((6, Phase::After))),
        Call::Leaps((20, Phase::At), Some((8, Phase::After))),
        Call::Leaps((20, Phase::At), Some((9, Phase::After))),
        Call::Leaps((20, Phase::At), Some((10, Phase::At))),
        Call::Closest(0, Some((0, 1))),
        Call::Leaps((20, Phase::At), Some((10, Phase::After))),
        Call::Leaps((20, Phase::At), Some((11, Phase::After))),
        Call::Leaps((20, Phase::At), Some((12, Phase::After))),
        Call::Leaps((20, Phase::At), Some((14, Phase::After))),
        Call::Leaps((20, Phase::At), None),
        Call::Closest(0, Some((0, 1))),
    ],
);

const LEAPING: [Script; 4] = [OVER, UP_TO, JUST_PAST, TOUCHING];

#[test]
fn leaps_land_where_they_may(rt: HostRuntime) -> Result<(), Fail> {
    let wrong = first_wrong_script(rt.alloc(), &LEAPING)?;
    assert!(rt; wrong == None, "script and call {wrong:?}");
    Ok(())
}
