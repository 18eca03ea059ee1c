//! The roots of polynomials.

use crate::instants::{instant, over, poly, root_two, whole};
use kin_instant::next::next_root;
use kin_instant::roots::Roots;
use kin_instant::solve::roots;
use kin_num::Shape;

/// Roots by their shapes.
#[derive(Clone, Copy, Debug, PartialEq, Eq)]
enum Found {
    Nowhere,
    One(Shape),
    Two(Shape, Shape),
    All,
}

fn roots_of(p: [i64; 3]) -> Option<Found> {
    Some(match roots(&poly(p)?) {
        Roots::Nowhere => Found::Nowhere,
        Roots::One(r) => Found::One(r.shape()),
        Roots::Two(r, s) => Found::Two(r.shape(), s.shape()),
        Roots::All => Found::All,
    })
}

#[test]
fn roots_have_their_canonical_forms(rt: HostRuntime) {
    for (p, found) in [
        ([2, 0, -4], Found::Two(root_two(false), root_two(true))),
        ([1, -5, 6], Found::Two(whole(2), whole(3))),
        ([4, -4, 1], Found::One(over(1, 2))),
        ([0, 3, -7], Found::One(over(7, 3))),
        ([1, 0, 1], Found::Nowhere),
        ([0, 0, 5], Found::Nowhere),
        ([0, 0, 0], Found::All),
    ] {
        assert_eq!(rt; roots_of(p), Some(found), "of {p:?}");
    }
}

/// The numbers before the division are up to `2^32 + 4` in the last row but two, and those of instants reach `2^31`.
#[test]
fn roots_at_the_bounds(rt: HostRuntime) {
    let four = |upper| Shape::Root {
        a: 1,
        b: -4,
        c: -1,
        upper,
    };
    for (p, found) in [
        ([0, 2147483648, 1], Found::One(over(-1, 2147483648))),
        (
            [0, -2147483648, 536870911],
            Found::One(over(536870911, 2147483648)),
        ),
        ([1, -2147483648, 0], Found::Two(whole(0), whole(2147483648))),
        (
            [-1, -2147483648, 0],
            Found::Two(whole(-2147483648), whole(0)),
        ),
        (
            [429496730, -2147483648, -10],
            Found::Two(over(-1, 214748365), whole(5)),
        ),
        (
            [536870911, -2147483648, 0],
            Found::Two(whole(0), over(2147483648, 536870911)),
        ),
        (
            [536870912, -2147483648, -536870912],
            Found::Two(four(false), four(true)),
        ),
    ] {
        assert_eq!(rt; roots_of(p), Some(found), "of {p:?}");
    }
}

fn next(p: [i64; 3], w: [i64; 4]) -> Option<Option<Shape>> {
    Some(next_root(&poly(p)?, &instant(w)?).map(|r| r.shape()))
}

#[test]
fn next_roots(rt: HostRuntime) {
    for (p, w, shape) in [
        ([1, -5, 6], [0, 2, 1, 0], Some(whole(3))),
        ([1, -5, 6], [0, 3, 1, 0], None),
        ([1, 0, -2], [0, 0, 1, 0], Some(root_two(true))),
        ([0, 0, 0], [0, 0, 1, 0], None),
        ([1, -2147483648, 0], [0, 0, 1, 0], Some(whole(2147483648))),
        (
            [0, 2147483648, -1],
            [536870912, 2147483648, -1, 1],
            Some(over(1, 2147483648)),
        ),
    ] {
        assert_eq!(rt; next(p, w), Some(shape), "of {p:?} after {w:?}");
    }
}
