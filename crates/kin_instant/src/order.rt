//! The order of instants and of moments.
//!
//! Two fractions are compared by one cross product. An instant `w` is compared with an irrational root by the signs at
//! `w` of the root's quadratic and of its slope. A sign at another irrational root is that of a subresultant, at most
//! 128 bits wide; no root is ever approximated.

ghost use Rattle.std.specs.Prelude.{◌≡◌, ◌≤◌, ◌^◌, ◌+◌, ◌*ℤ◌, ◌↔◌, unsigned_abs};
ghost use Rattle.std.specs.Ordering.{MatchOrdering, int_cmp};
ghost use Rattle.kin_num.specs.declared.instant.Phase.TheVariants.{At, After};
ghost use Rattle.kin_num.specs.declared.instant.Shape.TheVariants.{Root};
ghost use Rattle.kin_num.specs.Quadratic.{IsSmall};
ghost use Rattle.kin_num.specs.Canonical.{IsCanonical, IsIrreducible};
ghost use Rattle.kin_num.specs.Order.{IsLess, IsEarlier};
ghost use Rattle.kin_instant.specs.Places.{place_of};
ghost use Rattle.kin_instant.specs.Roots.{quadratic};

use crate::sign::{slope_sign, value_sign};
use kin_algebra::sign::Sign;
use kin_num::instant::{Instant, Moment, Phase, Shape};
use kin_num::poly::Poly;
use kin_num::steps::Steps;
use std::cmp::Ordering;
use std::sync::ledger::Ledger;

/// `n / d` against `m / e`.
fn cross_order(n: i64, d: i64, m: i64, e: i64) -> Ordering
    requires n_small { unsigned_abs n ≤ 2 ^ 31 }
    requires d_small { unsigned_abs d ≤ 2 ^ 31 }
    requires m_small { unsigned_abs m ≤ 2 ^ 31 }
    requires e_small { unsigned_abs e ≤ 2 ^ 31 }
    ensures { result ≡ int_cmp (n *ℤ e) (m *ℤ d) }
{
    (n * e).cmp(&(m * d))
}

/// An instant against a root, by the signs of the root's quadratic and of its slope at the instant. Where the value is
/// negative the instant lies between the two roots.
fn place(value: Sign, slope: Sign, upper: bool) -> Ordering
    ensures { result ≡ place_of value slope upper }
{
    match (value, slope, upper) {
        (Sign::Minus, _, true) => Ordering::Less,
        (Sign::Minus, _, false) => Ordering::Greater,
        (Sign::Zero, Sign::Plus, true) | (Sign::Zero, Sign::Minus, false) => Ordering::Equal,
        (_, Sign::Plus, _) => Ordering::Greater,
        _ => Ordering::Less,
    }
}

/// `w` against a root of `(a, b, c)`. The slope is asked only where the value doesn't decide.
fn against_root(w: &Instant, a: i64, b: i64, c: i64, upper: bool) -> Ordering
    requires irreducible { IsIrreducible a b c }
    requires small { IsSmall (quadratic a b c) }
    ensures order { MatchOrdering result (IsLess w.now (Root a b c upper)) (w.now ≡ Root a b c upper) (IsLess (Root a b c upper) w.now) }
{
    let quadratic = Poly::new(a, b, c);
    let value = value_sign(&quadratic, w);
    let slope = match value {
        Sign::Minus => Sign::Zero,
        _ => slope_sign(&quadratic, w),
    };
    place(value, slope, upper)
}

/// The order of `x` and `y`.
fn relation(x: &Instant, y: &Instant) -> Ordering
    ensures order { MatchOrdering result (IsLess x.now y.now) (x.now ≡ y.now) (IsLess y.now x.now) }
    ensures left { IsCanonical x.now }
    ensures right { IsCanonical y.now }
{
    let left = x.shape();
    match y.shape() {
        Shape::Root { a, b, c, upper } => against_root(x, a, b, c, upper),
        Shape::Ratio { n: m, d: e } => match left {
            Shape::Ratio { n, d } => cross_order(n, d, m, e),
            Shape::Root { a, b, c, upper } => against_root(y, a, b, c, upper).reverse(),
        },
    }
}

/// `x` against `y`: `Less` exactly where `x` is the earlier one, and `Equal` exactly where their canonical forms are one.
pub fn compare(x: &Instant, y: &Instant) -> Ordering
    ensures less { (result ≡ Ordering.Less) ↔ IsLess x.now y.now }
    ensures equal { (result ≡ Ordering.Equal) ↔ (x.now ≡ y.now) }
    ensures greater { (result ≡ Ordering.Greater) ↔ IsLess y.now x.now }
{
    relation(x, y)
}

/// The phases of one instant: at it comes before just after it.
pub(crate) fn phase_order(x: Phase, y: Phase) -> Ordering
    ensures { MatchOrdering result ((x ≡ At) × (y ≡ After)) (x ≡ y) ((x ≡ After) × (y ≡ At)) }
{
    match (x, y) {
        (Phase::At, Phase::After) => Ordering::Less,
        (Phase::After, Phase::At) => Ordering::Greater,
        _ => Ordering::Equal,
    }
}

/// `x` against `y`, by their instants and then by their phases. Counts one step.
pub fn compare_moments<L: Ledger>(x: &Moment, y: &Moment, steps: &mut Steps<L>) -> Ordering
    ensures less { (result ≡ Ordering.Less) ↔ IsEarlier x.now y.now }
    ensures equal { (result ≡ Ordering.Equal) ↔ (x.now ≡ y.now) }
    ensures greater { (result ≡ Ordering.Greater) ↔ IsEarlier y.now x.now }
    ensures count { steps.new ≡ steps.old + 1 }
{
    steps.tick();
    match relation(&x.at, &y.at) {
        Ordering::Equal => phase_order(x.phase, y.phase),
        apart => apart,
    }
}
