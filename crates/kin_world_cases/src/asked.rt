//! Scripts that ask for hulls, pairs and rectangles, with their answers, worked out by hand.

use crate::follow::first_wrong_script;
use crate::script::{Call, EXTREME_NORTH, ORDER_EAST, Script};
use kin_motion::{Keep, Rect};
use kin_num::Phase;
use std::test::Fail;

/// Of three points two coincide at 2. At 1, and at 5/2, two pairs are equally close.
const COINCIDING: Script = (
    2,
    &[Keep::Closest],
    &[
        Call::Closest(0, None),
        Call::Insert(0, [0, 0, 0, 0]),
        Call::Closest(0, None),
        Call::Facts(0, 0),
        Call::Insert(1, [4, 0, -2, 0]),
        Call::Closest(0, Some((0, 1))),
        Call::Insert(2, [1, 0, 0, 0]),
        Call::Closest(0, Some((0, 2))),
        Call::Runs((1, Phase::At)),
        Call::Closest(0, Some((0, 2))),
        Call::Runs((1, Phase::After)),
        Call::Closest(0, Some((1, 2))),
        Call::Runs((2, Phase::At)),
        Call::Closest(0, Some((0, 1))),
        Call::Runs((2, Phase::After)),
        Call::Closest(0, Some((0, 1))),
        Call::Runs((3, Phase::At)),
        Call::Closest(0, Some((0, 2))),
    ],
);

/// Two points at one place for ever: a fact of each of the eight orders, one of their pair, and four
/// of their hull.
const ONE_MOTION_TWICE: Script = (
    1,
    &[Keep::Closest, Keep::Hull],
    &[
        Call::Insert(0, [3, 4, 1, 1]),
        Call::Insert(1, [3, 4, 1, 1]),
        Call::Closest(0, Some((0, 1))),
        Call::Hull(1, &[0]),
        Call::Facts(13, 13),
        Call::Next(None),
    ],
);

/// Four pairs of a unit square are equally close. An order is kept, too.
const SQUARE: Script = (
    2,
    &[ORDER_EAST, Keep::Closest, Keep::Hull],
    &[
        Call::Insert(0, [0, 0, 0, 0]),
        Call::Insert(1, [1, 0, 0, 0]),
        Call::Insert(2, [1, 1, 0, 0]),
        Call::Insert(3, [0, 1, 0, 0]),
        Call::Closest(1, Some((0, 1))),
        Call::Hull(2, &[0, 1, 2, 3]),
        Call::Order(0, &[0, 3, 1, 2]),
    ],
);

/// Four points at 1, and just after 1, where 0 leaves the narrow rectangle.
const BOXED: Script = (
    2,
    &[Keep::Range],
    &[
        Call::Insert(0, [0, 0, 2, 0]),
        Call::Insert(1, [0, 0, 4, 4]),
        Call::Insert(2, [5, 1, -2, 0]),
        Call::Insert(3, [0, 1, 1, 0]),
        Call::Runs((1, Phase::At)),
        Call::Inside(0, WIDE, &[0, 2, 3]),
        Call::Inside(0, TURNED, &[]),
        Call::Inside(0, NARROW, &[0, 3]),
        Call::Runs((1, Phase::After)),
        Call::Inside(0, WIDE, &[0, 2, 3]),
        Call::Inside(0, NARROW, &[3]),
    ],
);

const WIDE: Rect = Rect {
    x1: 1,
    x2: 4,
    y1: 0,
    y2: 2,
};

const TURNED: Rect = Rect {
    x1: 4,
    x2: 1,
    y1: 0,
    y2: 2,
};

const NARROW: Rect = Rect {
    x1: 1,
    x2: 2,
    y1: 0,
    y2: 2,
};

/// The turn of 0, 1, 2 is `(t - 1)^2`: it touches 0 at 1, where all three are collinear. At 2 the
/// points are where they were at 0, turned about.
const TOUCHING: Script = (
    2,
    &[Keep::Hull],
    &[
        Call::Hull(0, &[]),
        Call::Insert(0, [0, 0, 0, 0]),
        Call::Hull(0, &[0]),
        Call::Insert(1, [-1, 0, 1, 0]),
        Call::Insert(2, [0, -1, 0, 1]),
        Call::Hull(0, &[1, 2, 0]),
        Call::Runs((1, Phase::At)),
        Call::Hull(0, &[0]),
        Call::Runs((2, Phase::At)),
        Call::Hull(0, &[0, 1, 2]),
    ],
);

/// Three points in a row for ever, with the eight facts of their hull.
const COLLINEAR: Script = (
    2,
    &[Keep::Hull],
    &[
        Call::Insert(0, [0, 0, 0, 0]),
        Call::Insert(1, [5, 0, 0, 0]),
        Call::Insert(2, [10, 0, 0, 0]),
        Call::Hull(0, &[0, 2]),
        Call::Facts(8, 8),
        Call::Next(None),
    ],
);

/// Nothing, then one point, asked of each structure.
const ONE_POINT: Script = (
    3,
    &[
        ORDER_EAST,
        EXTREME_NORTH,
        Keep::Closest,
        Keep::Range,
        Keep::Hull,
    ],
    &[
        Call::Hull(4, &[]),
        Call::Order(0, &[]),
        Call::Extreme(1, None),
        Call::Closest(2, None),
        Call::Inside(3, AROUND, &[]),
        Call::Facts(0, 0),
        Call::Next(None),
        Call::Insert(5, [1, 2, 0, 0]),
        Call::Hull(4, &[5]),
        Call::Order(0, &[5]),
        Call::Extreme(1, Some(5)),
        Call::Closest(2, None),
        Call::Inside(3, AROUND, &[5]),
        Call::Facts(0, 0),
        Call::Next(None),
    ],
);

/// A point comes to two others and passes the one. Where it meets the other, that one leaves.
const NEAREST: Script = (
    2,
    &[Keep::Nearest],
    &[
        Call::Insert(0, [0, 0, 0, 0]),
        Call::Nearest(0, 0, None),
        Call::Insert(1, [4, 0, -2, 0]),
        Call::Insert(2, [1, 0, 0, 0]),
        Call::Nearest(0, 0, Some(2)),
        Call::Nearest(0, 2, Some(0)),
        Call::Moves((1, Phase::At)),
        Call::Nearest(0, 2, Some(0)),
        Call::Runs((2, Phase::At)),
        Call::Nearest(0, 0, Some(1)),
        Call::Nearest(0, 1, Some(0)),
        Call::Nearest(0, 2, Some(0)),
        Call::Remove(0),
        Call::Nearest(0, 1, Some(2)),
    ],
);

const AROUND: Rect = Rect {
    x1: -9,
    x2: 9,
    y1: -9,
    y2: 9,
};

/// Of three numbers in a row the middle one leaves, so a fact of the outer two is new. A number that
/// returns has facts made anew.
const LEAVING: Script = (
    2,
    &[ORDER_EAST],
    &[
        Call::Insert(0, [0, 0, 0, 0]),
        Call::Insert(1, [1, 0, 0, 0]),
        Call::Insert(2, [2, 0, 0, 0]),
        Call::Facts(2, 2),
        Call::Remove(1),
        Call::Order(0, &[0, 2]),
        Call::Facts(1, 3),
        Call::MayInsert(1, true),
        Call::Insert(1, [1, 0, 0, 0]),
        Call::Order(0, &[0, 1, 2]),
        Call::Facts(2, 5),
        Call::Replace(2, [2, 0, 0, 0]),
        Call::Facts(2, 6),
        Call::Replace(2, [-2, 0, 0, 0]),
        Call::Order(0, &[2, 0, 1]),
        Call::Facts(2, 7),
        Call::Remove(2),
        Call::Remove(1),
        Call::Remove(0),
        Call::Order(0, &[]),
        Call::Facts(0, 7),
    ],
);

/// One of two leaves where they meet, and all structures let it go.
const LEFT_AT_A_MEETING: Script = (
    1,
    &[ORDER_EAST, EXTREME_NORTH, Keep::Closest, Keep::Range],
    &[
        Call::Insert(0, [0, 0, 1, 0]),
        Call::Insert(1, [10, 1, -1, 0]),
        Call::Runs((5, Phase::At)),
        Call::Order(0, &[0, 1]),
        Call::Extreme(1, Some(1)),
        Call::Closest(2, Some((0, 1))),
        Call::Inside(3, AROUND, &[0, 1]),
        Call::Remove(1),
        Call::Order(0, &[0]),
        Call::Extreme(1, Some(0)),
        Call::Closest(2, None),
        Call::Inside(3, AROUND, &[0]),
        Call::Next(None),
        Call::Insert(1, [5, -1, 0, 0]),
        Call::Order(0, &[0, 1]),
        Call::Extreme(1, Some(0)),
        Call::Closest(2, Some((0, 1))),
    ],
);

const ASKED: [Script; 10] = [
    COINCIDING,
    ONE_MOTION_TWICE,
    SQUARE,
    TOUCHING,
    COLLINEAR,
    BOXED,
    ONE_POINT,
    NEAREST,
    LEAVING,
    LEFT_AT_A_MEETING,
];

#[test]
fn pairs_and_rectangles_are_answered(rt: HostRuntime) -> Result<(), Fail> {
    let wrong = first_wrong_script(rt.alloc(), &ASKED)?;
    assert!(rt; wrong == None, "script and call {wrong:?}");
    Ok(())
}
