//! The next root of a quadratic, after an instant or after a moment at which its sign is known.

ghost use Rattle.std.specs.Prelude.{◌≡◌, ◌≢◌, ◌⊎◌, ◌↔◌, ◌<ℤ◌, MatchOption, None, IfSome, IfNone, IsNone, IsTrue, IsFalse, pos};
ghost use lib.IntN.{neg_ℤ};
ghost use Rattle.kin_algebra.specs.declared.sign.Sign.TheVariants.{Minus, Zero, Plus};
ghost use Rattle.kin_algebra.specs.Signs.{opposite_of};
ghost use Rattle.kin_num.specs.Quadratic.{negated};
ghost use Rattle.kin_num.specs.Instants.{sign_at};
ghost use Rattle.kin_num.specs.Canonical.{IsCanonical};
ghost use Rattle.kin_num.specs.Order.{IsLess};
ghost use Rattle.kin_instant.specs.declared.roots.Roots.{Roots as Answer};
ghost use Rattle.kin_instant.specs.Roots.{AreRootsOf, IsFraction};
ghost use Rattle.kin_instant.specs.Sides.{root_on};
ghost use Rattle.kin_instant.specs.Places.{IsZeroPolynomial, IsNextRoot, HasNoRootAfter, KeepsSign};
ghost use Rattle.kin_instant.specs.Laws.{IsNext};

use crate::curve::{negative, root_on};
use crate::order::compare;
use crate::ratio::reduced;
use crate::roots::Roots;
use crate::sign::slope_sign;
use crate::solve::roots;
use kin_algebra::sign::Sign;
use kin_num::instant::{Instant, Moment};
use kin_num::poly::Poly;
use std::cmp::Ordering;

/// `r`, where it is later than `w`.
fn if_later(r: Instant, w: &Instant) -> Option<Instant>
    ensures { MatchOption result (¬ (IsLess w.now r)) (λ s. (s ≡ r) × IsLess w.now r) }
{
    match compare(w, &r) {
        Ordering::Less => Some(r),
        _ => None,
    }
}

/// The least root of `p` later than `w`. `None` exactly where `p` is zero or no root is later. Until then
/// `p` keeps the sign that it has at `w` or just after it, if it isn't zero there.
pub fn next_root(p: &Poly, w: &Instant) -> Option<Instant>
    ensures next { IfSome result (λ r. IsNextRoot p.now w.now r) }
    ensures none { IsNone result ↔ (IsZeroPolynomial p.now ⊎ HasNoRootAfter p.now w.now) }
    ensures kept { KeepsSign p.now w.now result }
{
    match roots(p) {
        Roots::Nowhere => None,
        Roots::All => None,
        Roots::One(r) => if_later(r, w),
        Roots::Two(r, s) => match if_later(r, w) {
            Some(r) => Some(r),
            None => if_later(s, w),
        },
    }
}

/// The least root of `p` later than the moment `m`, at which `p` has this sign, which isn't 0.
///
/// No two instants are compared, and a root is made only where it is still to come. A line whose slope has its sign
/// moves away from 0; any other line with a slope comes to its root. The sign of a curve decides whether the moment is
/// between its roots, and that of its slope whether it is before them.
#[inline(always)]
pub fn next_root_from(p: &Poly, m: &Moment, sign: Sign) -> Option<Instant>
    requires sign { sign_at p.now m.now ≡ sign }
    requires some { sign ≢ Zero }
    ensures next { IfSome result (λ r. IsNextRoot p.now m.now.at r) }
    ensures none { IfNone result (IsZeroPolynomial p.now ⊎ HasNoRootAfter p.now m.now.at) }
    ensures kept { KeepsSign p.now m.now.at result }
{
    if p.a() == 0 {
        line_root_from(p, m, sign)
    } else {
        curve_root_from(p, m, sign)
    }
}

/// The same for a curve.
#[inline(always)]
fn curve_root_from(p: &Poly, m: &Moment, sign: Sign) -> Option<Instant>
    requires curved { p.now.a ≢ pos 0 }
    requires sign { sign_at p.now m.now ≡ sign }
    requires some { sign ≢ Zero }
    ensures next { IfSome result (λ r. IsNextRoot p.now m.now.at r) }
    ensures none { IfNone result (IsZeroPolynomial p.now ⊎ HasNoRootAfter p.now m.now.at) }
    ensures kept { KeepsSign p.now m.now.at result }
{
    let (cup, sign) = as_cup(p, sign);
    cup_root_from(&cup, m, sign)
}

/// `p` and its sign, or `-p` and the opposite sign: that of the two whose first coefficient is positive.
#[inline(always)]
fn as_cup(p: &Poly, sign: Sign) -> (Poly, Sign)
    requires curved { p.now.a ≢ pos 0 }
    ensures cup { pos 0 <ℤ result.0.a }
    ensures same { ((result.0 ≡ p.now) × (result.1 ≡ sign)) ⊎ ((result.0 ≡ negated p.now) × (result.1 ≡ opposite_of sign)) }
{
    if p.a() > 0 {
        (*p, sign)
    } else {
        (negative(p), sign.opposite())
    }
}

/// The least root later than the moment `m` of a quadratic whose first coefficient is positive and that has this sign at
/// `m`, which isn't 0.
#[inline(always)]
fn cup_root_from(p: &Poly, m: &Moment, sign: Sign) -> Option<Instant>
    requires cup { pos 0 <ℤ p.now.a }
    requires sign { sign_at p.now m.now ≡ sign }
    requires some { sign ≢ Zero }
    ensures { IsNext p.now m.now.at result }
{
    match next_side(p, m, sign) {
        Some(upper) => root_on(p, upper),
        None => None,
    }
}

/// Which root comes next, the greater one or the lesser one, if there are any: the greater one between them, and the lesser
/// one before them, where the slope is negative.
fn next_side(p: &Poly, m: &Moment, sign: Sign) -> Option<bool>
    requires cup { pos 0 <ℤ p.now.a }
    requires sign { sign_at p.now m.now ≡ sign }
    requires some { sign ≢ Zero }
    ensures next { IfSome result (λ upper. (answer : Answer) → AreRootsOf p.now answer → IsNext p.now m.now.at (root_on upper answer)) }
    ensures none { IfNone result (IsNext p.now m.now.at None) }
{
    p.recall_small();
    m.at.recall_canonical();
    if let Sign::Minus = sign {
        return Some(true);
    }
    match slope_sign(p, &m.at) {
        Sign::Minus => Some(false),
        _ => None,
    }
}

/// The root of a line later than the moment `m`, at which the line has this sign, which isn't 0. It comes to 0 exactly where
/// its slope has the other sign. What it is at the instant 0 is asked only then.
#[inline(always)]
fn line_root_from(p: &Poly, m: &Moment, sign: Sign) -> Option<Instant>
    requires flat { p.now.a ≡ pos 0 }
    requires sign { sign_at p.now m.now ≡ sign }
    requires some { sign ≢ Zero }
    ensures next { IfSome result (λ r. IsNextRoot p.now m.now.at r) }
    ensures none { IfNone result (IsZeroPolynomial p.now ⊎ HasNoRootAfter p.now m.now.at) }
    ensures kept { KeepsSign p.now m.now.at result }
{
    p.recall_small();
    m.at.recall_canonical();
    if !comes_to_zero(p, sign) {
        return None;
    }
    Some(root_of_line(p))
}

/// Whether a line with this sign, which isn't 0, comes to 0.
fn comes_to_zero(p: &Poly, sign: Sign) -> bool
    ensures comes { IsTrue result → ((pos 0 <ℤ p.now.b) × (sign ≡ Minus)) ⊎ ((p.now.b <ℤ pos 0) × (sign ≡ Plus)) }
    ensures rises { IsFalse result → pos 0 <ℤ p.now.b → sign ≢ Minus }
    ensures falls { IsFalse result → p.now.b <ℤ pos 0 → sign ≢ Plus }
{
    match sign {
        Sign::Minus => p.b() > 0,
        Sign::Plus => p.b() < 0,
        Sign::Zero => false,
    }
}

/// Where a line with a slope is 0.
#[inline(always)]
fn root_of_line(p: &Poly) -> Instant
    requires sloped { p.now.b ≢ pos 0 }
    ensures rising { pos 0 <ℤ p.now.b → IsFraction (neg_ℤ p.now.c) p.now.b result }
    ensures falling { p.now.b <ℤ pos 0 → IsFraction p.now.c (neg_ℤ p.now.b) result }
    ensures canonical { IsCanonical result }
{
    p.recall_small();
    let (b, c) = (p.b(), p.c());
    let (n, d) = if b > 0 { (-c, b) } else { (c, -b) };
    reduced(n, d)
}
