//! Keys of moments, by which one comparison of whole numbers decides the order of most moments.
//!
//! A key has the whole part of `2^32` times the instant. Of two moments whose keys differ there, the one with the
//! lesser number is the earlier one. Two different fractions of denominators up to `2^16` lie at least `2^-32` apart, so
//! with equal numbers they are one. Any other instant has a vague key: another instant may have the same number. Nothing
//! is rounded up, and no floating point occurs.

ghost use Rattle.std.specs.Prelude.{◌≡◌, ◌⊎◌, ◌≤◌, ◌<◌, ◌^◌, ◌*◌, ◌<ℤ◌, true, pos, unsigned_abs, IfSome, IfNone};
ghost use Rattle.std.specs.Ordering.{MatchOrdering};
ghost use Rattle.kin_num.specs.declared.instant.Shape.TheVariants.{Ratio, Root};
ghost use Rattle.kin_num.specs.declared.instant.Moment.{Moment as Time};
ghost use Rattle.kin_num.specs.Canonical.{IsCanonical, IsIrreducible};
ghost use Rattle.kin_num.specs.Order.{IsEarlier};
ghost use Rattle.kin_instant.specs.Keys.{IsSpanOf, IsKeyOf, half_numerator_of, IsCutOff};

use crate::order::phase_order;
use crate::root_sign::radicand;
use crate::wide_root::fine_root;
use kin_num::instant::{Moment, Phase, Shape};
use std::cmp::Ordering;

/// The spans of a unit of time.
const FINENESS: u64 = 4_294_967_296;

/// Half of these.
const HALF: u64 = 2_147_483_648;

/// The greatest denominator of fractions that lie at least a span apart.
const COARSEST: i64 = 65_536;

/// What is known of a moment by whole numbers alone.
#[derive(Clone, Copy, Debug, PartialEq, Eq)]
pub struct Key {
    /// The whole part of `2^32` times the instant, and 0 for an instant before 0.
    pub span: u64,
    pub phase: Phase,
    /// Whether another instant may have this span.
    pub is_vague: bool,
}

/// The key of a moment. Takes a division, and at an irrational instant a whole square root.
#[inline(always)]
pub fn key_of(m: &Moment) -> Key
    ensures key { IsKeyOf result m.now }
    ensures canonical { IsCanonical m.now.at }
{
    match m.at.shape() {
        Shape::Ratio { n, d } => Key {
            span: span_of_ratio(n, d),
            phase: m.phase,
            is_vague: n < 0 || d > COARSEST,
        },
        Shape::Root { a, b, c, upper } => Key {
            span: span_of_root(a, b, c, upper),
            phase: m.phase,
            is_vague: true,
        },
    }
}

/// The order of two moments with these keys, as far as the keys decide it: `None` where the spans are equal and one of
/// them is vague.
pub fn order_by_keys(x: &Key, y: &Key) -> Option<Ordering>
    ensures told { (m n : Time) → IsCanonical m.at → IsCanonical n.at → IsKeyOf x.now m → IsKeyOf y.now n → IfSome result (λ o. MatchOrdering o (IsEarlier m n) (m ≡ n) (IsEarlier n m)) }
    ensures untold { IfNone result ((x.now.span ≡ y.now.span) × ((x.now.is_vague ≡ true) ⊎ (y.now.is_vague ≡ true))) }
{
    if x.span < y.span {
        return Some(Ordering::Less);
    }
    if x.span > y.span {
        return Some(Ordering::Greater);
    }
    if x.is_vague || y.is_vague {
        return None;
    }
    Some(phase_order(x.phase, y.phase))
}

/// The span of `n / d`.
fn span_of_ratio(n: i64, d: i64) -> u64
    requires n_small { unsigned_abs n ≤ 2 ^ 31 }
    requires d_positive { pos 0 <ℤ d }
    ensures { IsSpanOf result (Ratio n d) }
{
    if n <= 0 {
        return 0;
    }
    n.unsigned_abs() * FINENESS / d.unsigned_abs()
}

/// `2^32` times `a` times a root of `a*t^2 + b*t + c`, down to a whole number, and 0 where it is less. `root` is `2^32`
/// times the square root of the discriminant, down to a whole number. It and `2^32` times `b`, which is even, are halved
/// before they are added, since the whole sum doesn't fit 64 bits.
fn numerator(b: i64, root: u64, upper: bool) -> u64
    requires b_small { unsigned_abs b ≤ 2 ^ 31 }
    ensures { IsCutOff result (half_numerator_of b root upper) }
{
    let (other, half) = (b.unsigned_abs() * HALF, root / 2);
    match (upper, b > 0) {
        (true, true) => half.saturating_sub(other),
        (true, false) => other + half,
        (false, true) => 0,
        (false, false) => other.saturating_sub(half + 1),
    }
}

/// The span of a root of `a*t^2 + b*t + c`.
#[inline(always)]
fn span_of_root(a: i64, b: i64, c: i64, upper: bool) -> u64
    requires irreducible { IsIrreducible a b c }
    requires a_small { unsigned_abs a ≤ 2 ^ 29 }
    requires b_small { unsigned_abs b ≤ 2 ^ 31 }
    requires c_small { unsigned_abs c ≤ 2 ^ 29 }
    ensures { IsSpanOf result (Root a b c upper) }
{
    let root = fine_root(radicand(a, b, c));
    numerator(b, root, upper) / a.unsigned_abs()
}
