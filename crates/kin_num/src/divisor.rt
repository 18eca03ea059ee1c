//! The greatest common divisor.

ghost use Rattle.std.specs.Int.{IsGcd};

/// The least number that takes more than 32 bits.
const LONG: u64 = 4_294_967_296;

/// The greatest common divisor of `x` and `y`, by Euclid's algorithm. `gcd(0, 0)` is 0.
pub fn gcd(x: u64, y: u64) -> u64
    ensures { IsGcd x y result }
{
    if x < LONG && y < LONG {
        u64::from(short_gcd(x as u32, y as u32))
    } else {
        long_gcd(x, y)
    }
}

/// The same for short numbers, whose division is the cheapest.
fn short_gcd(x: u32, y: u32) -> u32
    ensures { IsGcd x y result }
{
    if y == 0 { x } else { short_gcd(y, x % y) }
}

/// The same for long numbers.
fn long_gcd(x: u64, y: u64) -> u64
    ensures { IsGcd x y result }
{
    if y == 0 { x } else { long_gcd(y, x % y) }
}
