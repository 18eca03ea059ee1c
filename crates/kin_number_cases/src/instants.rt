//! Polynomials and instants by their numbers.

use kin_instant::ratio::ratio;
use kin_instant::roots::Roots;
use kin_instant::solve::roots;
use kin_num::{Instant, Poly, Shape};

/// A polynomial by its coefficients, where they are in their ranges.
pub(crate) fn poly(p: [i64; 3]) -> Option<Poly> {
    let [a, b, c] = p;
    if a.unsigned_abs() <= 1 << 29 && b.unsigned_abs() <= 1 << 31 && c.unsigned_abs() <= 1 << 29 {
        Some(Poly::new(a, b, c))
    } else {
        None
    }
}

fn fraction(n: i64, d: i64) -> Option<Instant> {
    if n.unsigned_abs() < 1 << 31 && d > 0 && d < 1 << 31 {
        Some(ratio(n, d))
    } else {
        root([0, d, n.checked_neg()?], false)
    }
}

fn root(p: [i64; 3], is_greater: bool) -> Option<Instant> {
    match roots(&poly(p)?) {
        Roots::One(root) => Some(root),
        Roots::Two(lesser, greater) => Some(if is_greater { greater } else { lesser }),
        _ => None,
    }
}

/// `0, n, d, 0` is `n/d`, made as the root of `d*t - n` where `d` is too great for `ratio`; `a, b, c, k` is the lesser or the
/// greater root of `a*t^2 + b*t + c`, as `k` is 0 or 1.
pub(crate) fn instant(numbers: [i64; 4]) -> Option<Instant> {
    let [a, b, c, k] = numbers;
    if a == 0 {
        fraction(b, c)
    } else {
        root([a, b, c], k == 1)
    }
}

/// The shape of the lesser or the greater root of `t^2 - 2`.
pub(crate) const fn root_two(upper: bool) -> Shape {
    Shape::Root {
        a: 1,
        b: 0,
        c: -2,
        upper,
    }
}

/// The shape of a whole number.
pub(crate) const fn whole(n: i64) -> Shape {
    over(n, 1)
}

/// The shape of a fraction in lowest terms.
pub(crate) const fn over(n: i64, d: i64) -> Shape {
    Shape::Ratio { n, d }
}
