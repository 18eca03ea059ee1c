//! Greatest common divisors.

use kin_num::gcd;

#[test]
fn divisors_at_the_bounds(rt: HostRuntime) {
    for (x, y, divisor) in [
        (0, 0, 0),
        (0, u64::MAX, u64::MAX),
        (u64::MAX, u64::MAX, u64::MAX),
        // Euler's factor of 2^32 + 1
        (u64::MAX, 641 * 641, 641),
        // neighbouring Fibonacci numbers, the slowest case (Lamé)
        (12200160415121876738, 7540113804746346429, 1),
    ] {
        assert_eq!(rt; gcd(x, y), divisor, "of {x} and {y}");
    }
}
