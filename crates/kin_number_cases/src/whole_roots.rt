//! Whole square roots.

use kin_num::isqrt;

#[test]
fn roots_around_the_greatest_square(rt: HostRuntime) {
    let top: u64 = (1 << 32) - 1;
    for (x, root) in [
        (0, 0),
        (u64::MAX, top),
        (top * top, top),
        (top * top - 1, top - 1),
    ] {
        assert_eq!(rt; isqrt(x), root, "of {x}");
    }
}

#[test]
fn roots_around_each_power(rt: HostRuntime) {
    for (x, root) in [
        (1, 1),
        (3, 1),
        (0xFFFF, 0xFF),
        (0x1_0000, 0x100),
        (0xFF_FFFF, 0xFFF),
        (0x100_0000, 0x1000),
        (0xFFFF_FFFF, 0xFFFF),
        (0x1_0000_0000, 0x1_0000),
        (0xFFFF_FFFF_FFFF, 0xFF_FFFF),
        (0x1_0000_0000_0000, 0x100_0000),
    ] {
        assert_eq!(rt; isqrt(x), root, "of {x}");
    }
}
