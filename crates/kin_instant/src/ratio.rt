//! Fractions in lowest terms.

ghost use Rattle.std.specs.Prelude.{◌≡◌, ◌≤◌, ◌<◌, ◌^◌, ◌*ℤ◌, ◌<ℤ◌, pos, unsigned_abs};
ghost use Rattle.std.specs.Int.{◌∣◌};
ghost use Rattle.kin_num.specs.Canonical.{IsCanonical, IsLowest};
ghost use Rattle.kin_instant.specs.Roots.{IsFraction, IsSmallInLowestTerms};

use kin_num::divisor::gcd;
use kin_num::instant::{Instant, Shape};

/// `x / divisor`, which leaves no remainder.
pub(crate) fn exact_quotient(x: i64, divisor: i64) -> i64
    requires positive { pos 0 <ℤ divisor }
    requires divides { unsigned_abs divisor ∣ unsigned_abs x }
    ensures { x ≡ result *ℤ divisor }
{
    if divisor == 1 { x } else { x / divisor }
}

/// The numerator and the denominator of `n / d` in lowest terms.
#[inline(always)]
fn lowest(n: i64, d: i64) -> (i64, i64)
    requires n_small { unsigned_abs n < 2 ^ 63 }
    requires d_small { unsigned_abs d < 2 ^ 63 }
    requires d_positive { pos 0 <ℤ d }
    ensures lowest { IsLowest result.0 result.1 }
    ensures same { result.0 *ℤ d ≡ n *ℤ result.1 }
{
    let divisor = gcd(n.unsigned_abs(), d.unsigned_abs()) as i64;
    (exact_quotient(n, divisor), exact_quotient(d, divisor))
}

/// The instant `n / d`, where its lowest terms are within the bounds of an instant. In line, since each line that comes to
/// 0 has one.
#[inline(always)]
pub(crate) fn reduced(n: i64, d: i64) -> Instant
    requires n_fits { unsigned_abs n < 2 ^ 63 }
    requires d_fits { unsigned_abs d < 2 ^ 63 }
    requires d_positive { pos 0 <ℤ d }
    requires small { IsSmallInLowestTerms n d }
    ensures value { IsFraction n d result }
    ensures canonical { IsCanonical result }
{
    let (n, d) = lowest(n, d);
    Instant::of(Shape::Ratio { n, d })
}

/// The instant `n / d`, for `|n| < 2^31` and `1 <= d < 2^31`.
#[inline(always)]
pub fn ratio(n: i64, d: i64) -> Instant
    requires n_small { unsigned_abs n < 2 ^ 31 }
    requires d_small { unsigned_abs d < 2 ^ 31 }
    requires d_positive { pos 0 <ℤ d }
    ensures value { IsFraction n d result }
    ensures canonical { IsCanonical result }
{
    reduced(n, d)
}
