//! Scripts that ask for farthest pairs, with their answers, worked out by hand.

use crate::follow::first_wrong_script;
use crate::script::{Call, ORDER_EAST, Script};
use kin_motion::Keep;
use kin_num::Phase;
use kin_turn::turned::TurnError;
use std::test::Fail;

/// A square, whose two diagonals are as long. Its corners leave.
const CORNERS: Script = (
    2,
    &[Keep::Hull, Keep::Diameter],
    &[
        Call::Farthest(1, None),
        Call::Insert(0, [0, 0, 0, 0]),
        Call::Farthest(1, None),
        Call::Facts(0, 0),
        Call::Insert(1, [1, 0, 0, 0]),
        Call::Farthest(1, Some((0, 1))),
        Call::Insert(2, [1, 1, 0, 0]),
        Call::Insert(3, [0, 1, 0, 0]),
        Call::Farthest(1, Some((0, 2))),
        Call::Hull(0, &[0, 1, 2, 3]),
        Call::Next(None),
        Call::Remove(2),
        Call::Farthest(1, Some((1, 3))),
        Call::Remove(0),
        Call::Farthest(1, Some((1, 3))),
        Call::Remove(3),
        Call::Farthest(1, None),
        Call::Remove(1),
        Call::Farthest(1, None),
    ],
);

/// Two points come to a third one at 1, and part again. Structures are kept between the hull and its farthest pair.
const TOGETHER: Script = (
    2,
    &[Keep::Hull, ORDER_EAST, Keep::Closest, Keep::Diameter],
    &[
        Call::Insert(0, [0, 0, 0, 0]),
        Call::Insert(1, [-1, 0, 1, 0]),
        Call::Insert(2, [0, -1, 0, 1]),
        Call::Farthest(3, Some((1, 2))),
        Call::Runs((1, Phase::At)),
        Call::Farthest(3, None),
        Call::Runs((1, Phase::After)),
        Call::Farthest(3, Some((1, 2))),
        Call::Runs((3, Phase::At)),
        Call::Farthest(3, Some((1, 2))),
        Call::Remove(2),
        Call::Farthest(3, Some((0, 1))),
        Call::Replace(1, [0, 0, 0, 0]),
        Call::Farthest(3, None),
    ],
);

/// The chains of a row of points change, and no fact of the farthest pair fails: at 2 the third point is as far from the
/// first as the second is, and then farther.
const IN_A_ROW: Script = (
    2,
    &[Keep::Hull, Keep::Diameter],
    &[
        Call::Insert(0, [0, 0, 0, 0]),
        Call::Insert(1, [3, 0, 0, 0]),
        Call::Insert(2, [1, 0, 1, 0]),
        Call::Farthest(1, Some((0, 1))),
        Call::Moves((1, Phase::At)),
        Call::Farthest(1, Some((0, 1))),
        Call::Runs((2, Phase::At)),
        Call::Farthest(1, Some((0, 1))),
        Call::Runs((2, Phase::After)),
        Call::Farthest(1, Some((0, 2))),
        Call::Turns(2, (-1, 0), Some(TurnError::NotWhole)),
        Call::Runs((3, Phase::At)),
        Call::Turns(2, (-4, 0), None),
        Call::Runs((4, Phase::At)),
        Call::Farthest(1, Some((0, 1))),
    ],
);

const FAR: [Script; 3] = [CORNERS, TOGETHER, IN_A_ROW];

#[test]
fn farthest_pairs_are_answered(rt: HostRuntime) -> Result<(), Fail> {
    let wrong = first_wrong_script(rt.alloc(), &FAR)?;
    assert!(rt; wrong == None, "script and call {wrong:?}");
    Ok(())
}
