//! The sign of a quadratic, and of its slope, at an irrational root of another one.
//!
//! With `(a, b, c)` the coefficients of the root's own quadratic, `a * p` leaves the remainder
//! `slope * t + start` when it is divided by it. The sign of that line at the root is the sign of a
//! whole number plus a multiple of the square root of the discriminant; where these two have
//! opposite signs, the resultant of `p` and the root's quadratic decides.

ghost use Rattle.std.specs.Prelude.{◌≡◌, ◌≤◌, ◌^◌, ◌<◌, ◌<ℤ◌, ◌*ℤ◌, ◌-ℤ◌, pos, unsigned_abs};
ghost use Rattle.kin_algebra.specs.Signs.{sign_of, product_of};
ghost use Rattle.kin_num.specs.declared.instant.Shape.TheVariants.{Root};
ghost use Rattle.kin_num.specs.Canonical.{discriminant};
ghost use Rattle.kin_num.specs.Instants.{sign_at_instant, derivative, side};
ghost use Rattle.kin_instant.specs.Remainders.{remainder_slope_of, remainder_start_of};

use crate::product::{difference_of_products, discriminant_of, wide_difference_of_products};
use kin_algebra::sign::Sign;
use kin_num::pair::pair_sign;
use kin_num::poly::Poly;

/// The slope of the remainder.
fn remainder_slope(p: &Poly, a: i64, b: i64) -> i64
    requires a_small { unsigned_abs a ≤ 2 ^ 29 }
    requires b_small { unsigned_abs b ≤ 2 ^ 31 }
    ensures value { result ≡ remainder_slope_of p.now a b }
    ensures size { unsigned_abs result ≤ 2 ^ 61 }
{
    difference_of_products(a, p.b(), b, p.a())
}

/// The start of the remainder.
fn remainder_start(p: &Poly, a: i64, c: i64) -> i64
    requires a_small { unsigned_abs a ≤ 2 ^ 29 }
    requires c_small { unsigned_abs c ≤ 2 ^ 29 }
    ensures value { result ≡ remainder_start_of p.now a c }
    ensures size { unsigned_abs result ≤ 2 ^ 61 }
{
    difference_of_products(a, p.c(), c, p.a())
}

/// The sign of the resultant of `p` and the root's quadratic.
fn resultant_sign(p: &Poly, b: i64, c: i64, slope: i64, start: i64) -> Sign
    requires b_small { unsigned_abs b ≤ 2 ^ 31 }
    requires c_small { unsigned_abs c ≤ 2 ^ 29 }
    requires slope_small { unsigned_abs slope ≤ 2 ^ 61 }
    requires start_small { unsigned_abs start ≤ 2 ^ 61 }
    ensures { result ≡ sign_of (start *ℤ start -ℤ slope *ℤ (b *ℤ p.now.c -ℤ p.now.b *ℤ c)) }
{
    let other = difference_of_products(b, p.c(), p.b(), c);
    Sign::of(wide_difference_of_products(start, start, slope, other))
}

/// The sign of the number times the square root that belongs to a root.
fn on_side(sign: Sign, upper: bool) -> Sign
    ensures { result ≡ product_of (side upper) sign }
{
    if upper { sign } else { sign.opposite() }
}

/// The sign of `p` at a root of `(a, b, c)`, the greater one if `upper`.
#[inline(never)]
pub(crate) fn value_at_root(p: &Poly, a: i64, b: i64, c: i64, upper: bool) -> Sign
    requires a_positive { pos 0 <ℤ a }
    requires a_small { unsigned_abs a ≤ 2 ^ 29 }
    requires b_small { unsigned_abs b ≤ 2 ^ 31 }
    requires c_small { unsigned_abs c ≤ 2 ^ 29 }
    requires real { pos 0 <ℤ discriminant a b c }
    ensures { result ≡ sign_at_instant p.now (Root a b c upper) }
{
    let slope = remainder_slope(p, a, b);
    let start = remainder_start(p, a, c);
    let whole = Sign::of(wide_difference_of_products(2 * a, start, b, slope));
    let surd = on_side(Sign::of(i128::from(slope)), upper);
    match whole.times(surd) {
        Sign::Minus => whole.times(resultant_sign(p, b, c, slope, start)),
        _ => whole.then(surd),
    }
}

/// The discriminant of a quadratic that has two real roots.
pub(crate) fn radicand(a: i64, b: i64, c: i64) -> u64
    requires a_small { unsigned_abs a ≤ 2 ^ 29 }
    requires b_small { unsigned_abs b ≤ 2 ^ 31 }
    requires c_small { unsigned_abs c ≤ 2 ^ 29 }
    requires real { pos 0 <ℤ discriminant a b c }
    ensures value { pos result ≡ discriminant a b c }
    ensures small { result < 2 ^ 63 }
{
    discriminant_of(a, b, c).unsigned_abs()
}

/// The sign of the slope of `p` at a root of `(a, b, c)`, the greater one if `upper`.
#[inline(never)]
pub(crate) fn slope_at_root(p: &Poly, a: i64, b: i64, c: i64, upper: bool) -> Sign
    requires a_positive { pos 0 <ℤ a }
    requires a_small { unsigned_abs a ≤ 2 ^ 29 }
    requires b_small { unsigned_abs b ≤ 2 ^ 31 }
    requires c_small { unsigned_abs c ≤ 2 ^ 29 }
    requires real { pos 0 <ℤ discriminant a b c }
    ensures { result ≡ sign_at_instant (derivative p.now) (Root a b c upper) }
{
    let slope = remainder_slope(p, a, b);
    if upper {
        pair_sign(slope, p.a(), radicand(a, b, c))
    } else {
        pair_sign(slope, -p.a(), radicand(a, b, c))
    }
}
