//! The lesser or the greater root of a quadratic, made alone, and in line where a fact of a curve is born.

ghost use Rattle.std.specs.Prelude.{◌≡◌, ◌≢◌, ◌≤◌, ◌<◌, ◌^◌, ◌*◌, ◌%◌, ℕ, IsTrue, ℤ, ◌<ℤ◌, ◌≤ℤ◌, ◌*ℤ◌, pos, unsigned_abs, Some, IfSome, IfNone};
ghost use Rattle.std.specs.Int.{◌∣◌};
ghost use Rattle.kin_num.specs.Quadratic.{IsSmall, negated};
ghost use Rattle.kin_num.specs.Canonical.{discriminant};
ghost use Rattle.kin_instant.specs.Roots.{quadratic};
ghost use Rattle.kin_instant.specs.Sides.{IsRootOn};

use crate::product::discriminant_of;
use crate::ratio::{exact_quotient, reduced};
use kin_num::divisor::gcd;
use kin_num::instant::{Instant, Shape};
use kin_num::poly::Poly;
use kin_num::root::isqrt;

/// `-p`.
#[inline(always)]
pub(crate) fn negative(p: &Poly) -> Poly
    ensures { result ≡ negated p.now }
{
    Poly::new(-p.a(), -p.b(), -p.c())
}

/// One of the two rational roots of a quadratic, or its double one, where `root` is the square root of the discriminant.
#[inline(always)]
fn rational_root(p: &Poly, root: i64, upper: bool) -> Instant
    requires a_positive { pos 0 <ℤ p.now.a }
    requires root_small { unsigned_abs root < 2 ^ 32 }
    requires root_positive { pos 0 ≤ℤ root }
    requires square { root *ℤ root ≡ discriminant p.now.a p.now.b p.now.c }
    ensures { IsRootOn p.now upper (Some result) }
{
    p.recall_small();
    let (a, b) = (p.a(), p.b());
    if upper {
        reduced(root - b, 2 * a)
    } else {
        reduced(-root - b, 2 * a)
    }
}

/// The greatest common divisor of three numbers, of which the first is positive.
#[inline(always)]
fn common_divisor(a: i64, b: i64, c: i64) -> i64
    requires a_positive { pos 0 <ℤ a }
    requires a_small { unsigned_abs a < 2 ^ 63 }
    ensures positive { pos 0 <ℤ result }
    ensures divides_a { unsigned_abs result ∣ unsigned_abs a }
    ensures divides_b { unsigned_abs result ∣ unsigned_abs b }
    ensures divides_c { unsigned_abs result ∣ unsigned_abs c }
    ensures greatest { (k : ℕ) → k ∣ unsigned_abs a → k ∣ unsigned_abs b → k ∣ unsigned_abs c → k ∣ unsigned_abs result }
{
    let divisor = gcd(b.unsigned_abs(), a.unsigned_abs());
    if divisor == 1 {
        return 1;
    }
    gcd(c.unsigned_abs(), divisor) as i64
}

/// One of the two irrational roots of a quadratic.
#[inline(always)]
fn irrational_root(a: i64, b: i64, c: i64, upper: bool) -> Instant
    requires a_positive { pos 0 <ℤ a }
    requires small { IsSmall (quadratic a b c) }
    requires real { pos 0 <ℤ discriminant a b c }
    requires irrational { (k : ℕ) → pos (k * k) ≢ discriminant a b c }
    ensures { IsRootOn (quadratic a b c) upper (Some result) }
{
    let divisor = common_divisor(a, b, c);
    let (a, b, c) = (
        exact_quotient(a, divisor),
        exact_quotient(b, divisor),
        exact_quotient(c, divisor),
    );
    Instant::of(Shape::Root { a, b, c, upper })
}

/// The square root of `x`, where it is a whole number.
#[inline(always)]
fn exact_root(x: u64) -> Option<u64>
    ensures some { IfSome result (λ r. r * r ≡ x) }
    ensures none { IfNone result ((k : ℕ) → k * k ≢ x) }
{
    if !may_be_square(x) {
        return None;
    }
    let root = isqrt(x);
    if root * root == x { Some(root) } else { None }
}

/// Whether `x` may be a square, by what it leaves when it is divided by 64 and by 63: of ten other numbers one may.
fn may_be_square(x: u64) -> bool
    ensures { (k : ℕ) → k * k ≡ x → IsTrue result }
{
    ends_as_square(x % 64) && is_square_by_63(x % 63)
}

/// What squares leave when they are divided by 64, each as a bit.
const ENDS: u64 = 144_680_414_395_695_635;

/// Whether a square leaves `rest` when it is divided by 64.
fn ends_as_square(rest: u64) -> bool
    requires rest { rest < 64 }
    ensures { (k : ℕ) → k * k % 64 ≡ rest → IsTrue result }
{
    (ENDS >> rest) & 1 == 1
}

/// What squares leave when they are divided by 63, each as a bit.
const RESTS: u64 = 288_872_697_407_275_667;

/// Whether a square leaves `rest` when it is divided by 63.
fn is_square_by_63(rest: u64) -> bool
    requires rest { rest < 63 }
    ensures { (k : ℕ) → k * k % 63 ≡ rest → IsTrue result }
{
    (RESTS >> rest) & 1 == 1
}

/// The greater or the lesser real root of a quadratic whose first coefficient is positive, if it has any.
#[inline(always)]
pub(crate) fn root_on(p: &Poly, upper: bool) -> Option<Instant>
    requires a_positive { pos 0 <ℤ p.now.a }
    ensures { IsRootOn p.now upper result }
{
    p.recall_small();
    let (a, b, c) = (p.a(), p.b(), p.c());
    let discriminant = discriminant_of(a, b, c);
    if discriminant < 0 {
        return None;
    }
    match exact_root(discriminant.unsigned_abs()) {
        Some(root) => Some(rational_root(p, root as i64, upper)),
        None => Some(irrational_root(a, b, c, upper)),
    }
}
