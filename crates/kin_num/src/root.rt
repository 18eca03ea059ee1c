//! Whole square roots.

ghost use Rattle.std.specs.Prelude.{◌≡◌, ◌+◌, ◌*◌, ◌/◌, ◌<◌, ◌≤◌, ◌^◌};
ghost use Rattle.kin_num.specs.Roots.{IsWholeRoot};

/// The greatest whole number whose square is at most `x`. Takes three divisions.
pub fn isqrt(x: u64) -> u64
    ensures { IsWholeRoot x result }
{
    if x == 0 {
        return 0;
    }
    let spare = x.leading_zeros() / 2;
    isqrt_of_wide(x << (2 * spare)) >> spare
}

/// The same for a number that fills its 64 bits or all but one. Takes three divisions: Heron's method has twice as many
/// right digits after each, and three are enough for all but the last unit.
pub fn isqrt_of_wide(x: u64) -> u64
    requires wide { 2 ^ 62 ≤ x }
    ensures { IsWholeRoot x result }
{
    let guess = nearer(x, nearer(x, nearer(x, guess_above(x))));
    if guess > GREATEST {
        return guess - 1;
    }
    if guess * guess > x { guess - 1 } else { guess }
}

/// The greatest whole root of a number of 64 bits.
const GREATEST: u64 = 4_294_967_295;

/// A better guess at the root of `x`, by Heron's method.
fn nearer(x: u64, guess: u64) -> u64
    requires some { 0 < guess }
    requires fits { guess ≤ 2 ^ 33 }
    requires wide { 2 ^ 31 ≤ guess }
    ensures { result ≡ (guess + x / guess) / 2 }
{
    (guess + x / guess) / 2
}

/// A number that isn't below the root of `x`: a tangent of the parabola, which touches it within the wide numbers, so that
/// it is at most an eleventh too great for them.
fn guess_above(x: u64) -> u64
    ensures { result ≡ x / 2 ^ 34 * 3 + 1431655768 }
{
    (x >> 34) * 3 + 1_431_655_768
}
