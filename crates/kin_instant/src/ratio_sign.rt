//! The sign of a quadratic, and of its slope, at a fraction.

ghost use Rattle.std.specs.Prelude.{◌≡◌, ◌≤◌, ◌^◌, ◌<ℤ◌, pos, unsigned_abs};
ghost use Rattle.kin_num.specs.declared.instant.Shape.TheVariants.{Ratio};
ghost use Rattle.kin_num.specs.Instants.{sign_at_instant, derivative};

use crate::product::{sum_of_products, wide_sum_of_products};
use kin_algebra::sign::Sign;
use kin_num::poly::Poly;

/// The sign of `p` at `n / d`. A line takes two products.
#[inline(always)]
pub(crate) fn value_at_ratio(p: &Poly, n: i64, d: i64) -> Sign
    requires n_small { unsigned_abs n ≤ 2 ^ 31 }
    requires d_small { unsigned_abs d ≤ 2 ^ 31 }
    requires d_positive { pos 0 <ℤ d }
    ensures { result ≡ sign_at_instant p.now (Ratio n d) }
{
    if p.a() == 0 {
        return Sign::of(i128::from(sum_of_products(n, p.b(), d, p.c())));
    }
    let inner = sum_of_products(d, p.b(), n, p.a());
    Sign::of(wide_sum_of_products(inner, n, p.c() * d, d))
}

/// The sign of the slope of `p` at `n / d`.
#[inline(always)]
pub(crate) fn slope_at_ratio(p: &Poly, n: i64, d: i64) -> Sign
    requires n_small { unsigned_abs n ≤ 2 ^ 31 }
    requires d_small { unsigned_abs d ≤ 2 ^ 31 }
    requires d_positive { pos 0 <ℤ d }
    ensures { result ≡ sign_at_instant (derivative p.now) (Ratio n d) }
{
    Sign::of(i128::from(sum_of_products(d, p.b(), n, 2 * p.a())))
}
