//! Motions and moments, as numbers give them.

ghost use Rattle.std.specs.Prelude.{◌≡◌, IsTrue, IsFalse, Some, IfOk, OnOk, IfErr, if◌then◌else◌};
ghost use Rattle.kin_num.specs.Order.{IsEarlier};
ghost use Rattle.kin_num.specs.Quadratic.{IsSmall, quadratic};
ghost use Rattle.kin_motion.specs.Course.{IsSlow};
ghost use Rattle.kin_motion.specs.Turning.{just_at};
ghost use Rattle.kin_instant.specs.Sides.{IsRootOn};
ghost use Rattle.kin_tracker.specs.Numbers.{IsRefusedMotion, IsAtFraction, IsRefusedFraction, IsAtRoot, IsRefusedRoot};
ghost use Rattle.kin_tracker.specs.Ranges.{IsFractionInRange};

use crate::ranges::{is_fraction_in_range, is_slow, is_small};
use crate::refusal::Refusal;
use kin_instant::order::compare;
use kin_instant::ratio::ratio;
use kin_instant::roots::Roots;
use kin_instant::solve::roots;
use kin_motion::Motion;
use kin_num::{Instant, Moment, Phase, Poly};
use std::cmp::Ordering;

/// The motion of a point that is at `(x + u*t, y + v*t)` at the time `t`. Each of the four numbers is in -8192..8192.
pub fn motion(x: i32, y: i32, u: i32, v: i32) -> Result<Motion, Refusal>
    ensures motion { IfOk result (λ motion. motion ≡ record { x = x; y = y; u = u; v = v }) }
    ensures slow { OnOk result (IsSlow (record { x = x; y = y; u = u; v = v })) }
    ensures refused { IfErr result (IsRefusedMotion (record { x = x; y = y; u = u; v = v })) }
{
    if !is_slow(x, y, u, v) {
        return Err(Refusal::BadNumber);
    }
    Ok(Motion::new(x, y, u, v))
}

/// The moment at the instant `n / d`, in lowest terms or not, where `n` is less than 2^31 in size and `d` is in 1..2^31 - 1.
pub fn fraction(n: i64, d: i64) -> Result<Moment, Refusal>
    ensures found { IfOk result (IsAtFraction n d) }
    ensures range { OnOk result (IsFractionInRange n d) }
    ensures refused { IfErr result (IsRefusedFraction n d) }
{
    if !is_fraction_in_range(n, d) {
        return Err(Refusal::BadNumber);
    }
    Ok(itself(ratio(n, d)))
}

/// The moment at the greater root of `a*t^2 + b*t + c`, or at the lesser one where `upper` is false. With one root both are
/// that one. `a` and `c` are in -2^29..2^29, and `b` is in -2^31..2^31.
pub fn root(a: i64, b: i64, c: i64, upper: bool) -> Result<Moment, Refusal>
    ensures found { IfOk result (IsAtRoot a b c upper) }
    ensures range { OnOk result (IsSmall (quadratic a b c)) }
    ensures refused { IfErr result (IsRefusedRoot a b c upper) }
{
    if !is_small(a, b, c) {
        return Err(Refusal::BadNumber);
    }
    match root_on(&Poly::new(a, b, c), upper) {
        Some(root) => Ok(itself(root)),
        None => Err(Refusal::NoRoot),
    }
}

/// The greater or the lesser root, if there is one.
fn root_on(p: &Poly, upper: bool) -> Option<Instant>
    ensures { IsRootOn p.now upper result }
{
    match roots(p) {
        Roots::Nowhere | Roots::All => None,
        Roots::One(root) => Some(root),
        Roots::Two(lesser, greater) => Some(named(lesser, greater, upper)),
    }
}

/// The one of two roots that `upper` names.
fn named(lesser: Instant, greater: Instant, upper: bool) -> Instant
    ensures { result ≡ (if upper then greater else lesser) }
{
    if upper { greater } else { lesser }
}

/// The moment at an instant, and not just after it.
fn itself(at: Instant) -> Moment
    ensures { result ≡ just_at at }
{
    Moment {
        at,
        phase: Phase::At,
    }
}

/// Whether a moment comes before another. Counts no step.
pub fn is_earlier(one: &Moment, other: &Moment) -> bool
    ensures yes { IsTrue result → IsEarlier one.now other.now }
    ensures no { IsFalse result → ¬ (IsEarlier one.now other.now) }
{
    match compare(&one.at, &other.at) {
        Ordering::Less => true,
        Ordering::Equal => one.phase == Phase::At && other.phase == Phase::After,
        Ordering::Greater => false,
    }
}
