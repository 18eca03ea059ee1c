//! The real roots of a quadratic, found.

ghost use Rattle.std.specs.Prelude.{◌≡◌, ◌≤◌, ◌^◌, ◌↔◌, ◌<ℤ◌, pos, unsigned_abs};
ghost use Rattle.kin_algebra.specs.declared.sign.Sign.TheVariants.{Zero};
ghost use Rattle.kin_num.specs.declared.instant.Shape.{Shape as InstantShape};
ghost use Rattle.kin_num.specs.Canonical.{IsCanonicalForm};
ghost use Rattle.kin_num.specs.Instants.{sign_at_instant};
ghost use Rattle.kin_instant.specs.Roots.{HasRoot, AreCanonical, IsRising, count_of, root_count, AreRootsOf, quadratic};

use crate::curve::{negative, root_on};
use crate::order::compare;
use crate::ratio::reduced;
use crate::roots::Roots;
use kin_num::poly::Poly;
use std::cmp::Ordering;

/// The root of `b*t + c`.
fn line_roots(b: i64, c: i64) -> Roots
    requires b_small { unsigned_abs b ≤ 2 ^ 31 }
    requires c_small { unsigned_abs c ≤ 2 ^ 29 }
    ensures { AreRootsOf (quadratic (pos 0) b c) result }
{
    if b > 0 {
        Roots::One(reduced(-c, b))
    } else if b < 0 {
        Roots::One(reduced(c, -b))
    } else if c == 0 {
        Roots::All
    } else {
        Roots::Nowhere
    }
}

/// The real roots of a quadratic whose first coefficient is positive.
fn quadratic_roots(p: &Poly) -> Roots
    requires { pos 0 <ℤ p.now.a }
    ensures { AreRootsOf p.now result }
{
    let Some(lower) = root_on(p, false) else {
        return Roots::Nowhere;
    };
    let Some(upper) = root_on(p, true) else {
        return Roots::Nowhere;
    };
    match compare(&lower, &upper) {
        Ordering::Less => Roots::Two(lower, upper),
        _ => Roots::One(upper),
    }
}

/// The real roots of `p`: `All` exactly for the zero polynomial, and in `Two` the lesser one first.
///
/// A root is a fraction exactly where the discriminant is a square. Each root is made alone. Takes no memory.
pub fn roots(p: &Poly) -> Roots
    ensures canonical { AreCanonical result }
    ensures exact { (w : InstantShape) → IsCanonicalForm w → (sign_at_instant p.now w ≡ Zero) ↔ HasRoot result w }
    ensures rising { IsRising result }
    ensures number { count_of result ≡ root_count p.now }
{
    let a = p.a();
    if a > 0 {
        quadratic_roots(p)
    } else if a < 0 {
        quadratic_roots(&negative(p))
    } else {
        line_roots(p.b(), p.c())
    }
}
