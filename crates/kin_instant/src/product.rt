//! Sums and differences of two products: all that signs and comparisons ever form.

ghost use Rattle.std.specs.Prelude.{◌≡◌, ◌≤◌, ◌<◌, ◌^◌, ◌+◌, ◌*◌, ◌+ℤ◌, ◌-ℤ◌, ◌*ℤ◌, unsigned_abs};
ghost use Rattle.kin_num.specs.Canonical.{discriminant};

/// `a * b + c * d`.
pub(crate) fn sum_of_products(a: i64, b: i64, c: i64, d: i64) -> i64
    requires a_small { unsigned_abs a ≤ 2 ^ 31 }
    requires b_small { unsigned_abs b ≤ 2 ^ 31 }
    requires c_small { unsigned_abs c ≤ 2 ^ 31 }
    requires d_small { unsigned_abs d ≤ 2 ^ 30 }
    ensures value { result ≡ a *ℤ b +ℤ c *ℤ d }
    ensures size { unsigned_abs result ≤ unsigned_abs a * unsigned_abs b + unsigned_abs c * unsigned_abs d }
{
    a * b + c * d
}

/// `a * b - c * d`.
pub(crate) fn difference_of_products(a: i64, b: i64, c: i64, d: i64) -> i64
    requires a_small { unsigned_abs a ≤ 2 ^ 31 }
    requires b_small { unsigned_abs b ≤ 2 ^ 31 }
    requires c_small { unsigned_abs c ≤ 2 ^ 31 }
    requires d_small { unsigned_abs d ≤ 2 ^ 30 }
    ensures value { result ≡ a *ℤ b -ℤ c *ℤ d }
    ensures size { unsigned_abs result ≤ unsigned_abs a * unsigned_abs b + unsigned_abs c * unsigned_abs d }
{
    a * b - c * d
}

/// The discriminant of a quadratic.
#[inline(always)]
pub(crate) fn discriminant_of(a: i64, b: i64, c: i64) -> i64
    requires a_small { unsigned_abs a ≤ 2 ^ 29 }
    requires b_small { unsigned_abs b ≤ 2 ^ 31 }
    requires c_small { unsigned_abs c ≤ 2 ^ 29 }
    ensures { result ≡ discriminant a b c }
{
    difference_of_products(b, b, 4 * a, c)
}

/// `a * b + c * d`, twice as wide.
pub(crate) fn wide_sum_of_products(a: i64, b: i64, c: i64, d: i64) -> i128
    requires a_small { unsigned_abs a < 2 ^ 63 }
    requires b_small { unsigned_abs b < 2 ^ 63 }
    requires c_small { unsigned_abs c < 2 ^ 63 }
    requires d_small { unsigned_abs d < 2 ^ 63 }
    ensures { result ≡ a *ℤ b +ℤ c *ℤ d }
{
    i128::from(a) * i128::from(b) + i128::from(c) * i128::from(d)
}

/// `a * b - c * d`, twice as wide.
pub(crate) fn wide_difference_of_products(a: i64, b: i64, c: i64, d: i64) -> i128
    requires a_small { unsigned_abs a < 2 ^ 63 }
    requires b_small { unsigned_abs b < 2 ^ 63 }
    requires c_small { unsigned_abs c < 2 ^ 63 }
    requires d_small { unsigned_abs d < 2 ^ 63 }
    ensures { result ≡ a *ℤ b -ℤ c *ℤ d }
{
    i128::from(a) * i128::from(b) - i128::from(c) * i128::from(d)
}
