//! The keys of moments.

use crate::instants::instant;
use kin_instant::key::key_of;
use kin_num::{Moment, Phase};

/// The whole part of `2^32` times the instant, and whether another instant may have it.
fn span(numbers: [i64; 4]) -> Option<(u64, bool)> {
    let at = instant(numbers)?;
    let key = key_of(&Moment {
        at,
        phase: Phase::At,
    });
    Some((key.span, key.is_vague))
}

/// The roots are those of 2, and 5 less it, and then some at the bounds; their spans were computed with whole numbers of any
/// width.
#[test]
fn spans_are_whole_parts(rt: HostRuntime) {
    for (numbers, part, is_vague) in [
        ([0, 3, 2, 0], 6_442_450_944, false),
        ([0, 1, 65_537, 0], 65_535, true),
        ([0, -3, 2, 0], 0, true),
        ([1, 0, -2, 1], 6_074_000_999, true),
        ([1, 0, -2, 0], 0, true),
        ([1, -10, 23, 0], 15_400_835_480, true),
        (
            [536_870_911, -2_147_483_648, -536_870_912, 1],
            18_193_773_459,
            true,
        ),
        ([536_870_911, -2_147_483_648, -536_870_912, 0], 0, true),
        (
            [536_870_912, -2_147_483_648, 536_870_911, 0],
            1_150_833_016,
            true,
        ),
        ([536_870_912, 2_147_483_648, -1, 1], 1, true),
        ([1, -2_147_483_648, 1, 0], 2, true),
        ([1, -2_147_483_648, 0, 1], 9_223_372_036_854_775_808, false),
        (
            [1, -2_147_483_648, -536_870_912, 1],
            9_223_372_037_928_517_631,
            true,
        ),
        ([0, 536_870_911, 2_147_483_648, 0], 1_073_741_822, true),
    ] {
        assert_eq!(rt; span(numbers), Some((part, is_vague)), "of {numbers:?}");
    }
}
