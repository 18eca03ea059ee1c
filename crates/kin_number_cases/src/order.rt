//! The order of instants that lie close together.

use crate::instants::instant;
use crate::pairs::{PAIRS, PAIRS_AT_THE_BOUNDS};
use kin_instant::order::compare;
use std::cmp::Ordering;

fn order_of(x: [i64; 4], y: [i64; 4]) -> Option<Ordering> {
    Some(compare(&instant(x)?, &instant(y)?))
}

#[test]
fn close_pairs_are_ordered(rt: HostRuntime) {
    for (x, y, order) in PAIRS {
        assert_eq!(rt; order_of(x, y), Some(order), "of {x:?} and {y:?}");
        assert_eq!(rt; order_of(y, x), Some(order.reverse()), "of {y:?} and {x:?}");
    }
}

#[test]
fn pairs_at_the_bounds_are_ordered(rt: HostRuntime) {
    for (x, y, order) in PAIRS_AT_THE_BOUNDS {
        assert_eq!(rt; order_of(x, y), Some(order), "of {x:?} and {y:?}");
        assert_eq!(rt; order_of(y, x), Some(order.reverse()), "of {y:?} and {x:?}");
    }
}
