//! The sign of `u + v*sqrt(d)`.

ghost use Rattle.std.specs.Prelude.{◌≡◌, ◌≤◌, ◌<◌, ◌^◌, pos, unsigned_abs, ◌+◌, ◌*◌, ◌-ℤ◌, ◌*ℤ◌};
ghost use Rattle.kin_algebra.specs.Signs.{pair_sign_of, norm_of};

use kin_algebra::sign::Sign;

/// A product that fits.
fn product(a: i128, b: i128) -> i128
    requires fits { unsigned_abs a * unsigned_abs b < 2 ^ 127 }
    ensures value { result ≡ a *ℤ b }
    ensures size { unsigned_abs result ≡ unsigned_abs a * unsigned_abs b }
{
    a * b
}

/// A difference that fits.
fn difference(a: i128, b: i128) -> i128
    requires fits { unsigned_abs a + unsigned_abs b < 2 ^ 127 }
    ensures value { result ≡ a -ℤ b }
    ensures size { unsigned_abs result ≤ unsigned_abs a + unsigned_abs b }
{
    a - b
}

/// The square of `u` less that of `v*sqrt(d)`.
fn norm(u: i128, v: i128, d: i128) -> i128
    requires u_small { unsigned_abs u < 2 ^ 63 }
    requires v_small { unsigned_abs v ≤ 2 ^ 31 }
    requires d_small { unsigned_abs d < 2 ^ 63 }
    ensures { result ≡ norm_of u v d }
{
    difference(product(u, u), product(product(v, v), d))
}

/// The sign of `u + v*sqrt(d)`. No root is taken: where `u` and `v` have opposite signs, `u*u` is compared with `v*v*d`.
pub fn pair_sign(u: i64, v: i64, d: u64) -> Sign
    requires u_small { unsigned_abs u < 2 ^ 63 }
    requires v_small { unsigned_abs v ≤ 2 ^ 31 }
    requires d_small { d < 2 ^ 63 }
    ensures { result ≡ pair_sign_of u v (pos d) }
{
    let (u, v, d) = (i128::from(u), i128::from(v), i128::from(d));
    if d == 0 {
        return Sign::of(u);
    }
    match (Sign::of(u), Sign::of(v)) {
        (Sign::Zero, second) => second,
        (Sign::Plus, Sign::Minus) => Sign::of(norm(u, v, d)),
        (Sign::Minus, Sign::Plus) => Sign::of(norm(u, v, d)).opposite(),
        (first, _) => first,
    }
}
