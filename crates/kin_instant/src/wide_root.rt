//! Whole square roots of numbers of 127 bits.

ghost use Rattle.std.specs.Prelude.{◌<◌, ◌≤◌, ◌+◌, ◌*◌, ◌^◌};
ghost use Rattle.kin_num.specs.Roots.{IsWholeRoot};

use kin_num::root::isqrt_of_wide;

/// Half a span of digits.
const HALF: u64 = 2_147_483_648;

/// The whole part of `2^32` times the square root of `square`.
pub(crate) fn fine_root(square: u64) -> u64
    requires some { 0 < square }
    requires small { square < 2 ^ 63 }
    ensures { IsWholeRoot (square * 2 ^ 64) result }
{
    let spare = square.leading_zeros() / 2;
    longer_root(square << (2 * spare)) >> spare
}

/// The whole part of `2^32` times the square root of `x`, by Zimmermann's method: the root of `x` has the first half of
/// the digits, and what is left of `x`, divided by twice that root, gives the other half or one more.
fn longer_root(x: u64) -> u64
    requires wide { 2 ^ 62 ≤ x }
    ensures { IsWholeRoot (x * 2 ^ 64) result }
{
    let root = isqrt_of_wide(x);
    let rest = (x - root * root) * HALF;
    let (digits, left) = (rest / root, rest % root);
    if u128::from(digits) * u128::from(digits) > u128::from(left) * 8_589_934_592 {
        root * 4_294_967_296 + (digits - 1)
    } else {
        root * 4_294_967_296 + digits
    }
}
