//! Scripts that ask which boxes overlap, with their answers, worked out by hand.

use crate::follow::first_wrong_script;
use crate::script::{Call, ORDER_EAST, Script};
use kin_motion::Keep;
use kin_num::Phase;
use std::test::Fail;

/// A box passes another one. They touch at 3, and again at 7. The fact of the high end of the one and the low end of the other
/// fails at 3; at 5 both boxes are at one place.
const PASSING: Script = (
    1,
    &[Keep::Boxes { w: 2, h: 2 }],
    &[
        Call::Overlaps(&[]),
        Call::Insert(0, [0, 0, 1, 0]),
        Call::Overlaps(&[]),
        Call::Facts(2, 2),
        Call::Insert(1, [5, 0, 0, 0]),
        Call::Overlaps(&[]),
        Call::Facts(6, 7),
        Call::Passes((3, Phase::At), (3, Phase::At), 1),
        Call::Overlaps(&[(0, 1)]),
        Call::Passes((3, Phase::After), (3, Phase::After), 1),
        Call::Overlaps(&[(0, 1)]),
        Call::Runs((5, Phase::At)),
        Call::Overlaps(&[(0, 1)]),
        Call::Runs((7, Phase::At)),
        Call::Overlaps(&[(0, 1)]),
        Call::Runs((7, Phase::After)),
        Call::Overlaps(&[]),
        Call::Runs((8, Phase::At)),
        Call::Overlaps(&[]),
        Call::Next(None),
    ],
);

/// Boxes without width and height are points. They overlap where they meet, and there one of them leaves.
const POINTS: Script = (
    1,
    &[Keep::Boxes { w: 0, h: 0 }],
    &[
        Call::Insert(0, [0, 0, 1, 0]),
        Call::Insert(1, [1, 0, 0, 0]),
        Call::Overlaps(&[]),
        Call::Facts(6, 7),
        Call::Runs((1, Phase::At)),
        Call::Overlaps(&[(0, 1)]),
        Call::Facts(6, 10),
        Call::Remove(0),
        Call::Overlaps(&[]),
        Call::Facts(2, 12),
    ],
);

/// Boxes as wide as they may be, and without height. Two touch at a side, one lies a unit farther, and one a unit higher.
const WIDE: Script = (
    2,
    &[ORDER_EAST, Keep::Boxes { w: 4096, h: 0 }],
    &[
        Call::Insert(3, [0, 0, 0, 0]),
        Call::Insert(2, [4096, 0, 0, 0]),
        Call::Overlaps(&[(2, 3)]),
        Call::Insert(1, [4097, 0, 0, 0]),
        Call::Insert(0, [0, 1, 0, 0]),
        Call::Overlaps(&[(1, 2), (2, 3)]),
        Call::Order(0, &[0, 3, 2, 1]),
        Call::Next(None),
    ],
);

/// Boxes as high as they may be, and without width.
const HIGH: Script = (
    2,
    &[Keep::Boxes { w: 0, h: 4096 }, Keep::Nearest],
    &[
        Call::Insert(3, [0, 0, 0, 0]),
        Call::Insert(2, [0, 4096, 0, 0]),
        Call::Overlaps(&[(2, 3)]),
        Call::Insert(1, [0, 4097, 0, 0]),
        Call::Insert(0, [1, 0, 0, 0]),
        Call::Overlaps(&[(1, 2), (2, 3)]),
        Call::Next(None),
    ],
);

/// Of the greatest boxes that may be kept one touches the first at a corner, and another one touches it at one instant, at the
/// other corner. Then two are at one place.
const GREATEST: Script = (
    2,
    &[Keep::Hull, Keep::Boxes { w: 4096, h: 4096 }, Keep::Diameter],
    &[
        Call::Insert(0, [0, 0, 0, 0]),
        Call::Insert(1, [4095, 4097, 1, -1]),
        Call::Overlaps(&[]),
        Call::Insert(2, [-4096, -4096, 0, 0]),
        Call::Overlaps(&[(0, 2)]),
        Call::Runs((1, Phase::At)),
        Call::Overlaps(&[(0, 1), (0, 2)]),
        Call::Runs((1, Phase::After)),
        Call::Overlaps(&[(0, 2)]),
        Call::Farthest(2, Some((1, 2))),
        Call::Replace(2, [0, 0, 0, 0]),
        Call::Overlaps(&[(0, 2)]),
        Call::Farthest(2, Some((0, 1))),
    ],
);

const BOXES: [Script; 5] = [PASSING, POINTS, WIDE, HIGH, GREATEST];

#[test]
fn overlaps_are_answered(rt: HostRuntime) -> Result<(), Fail> {
    let wrong = first_wrong_script(rt.alloc(), &BOXES)?;
    assert!(rt; wrong == None, "script and call {wrong:?}");
    Ok(())
}
