//! The signs of sums `u + v*sqrt(d)`.

use kin_num::{Sign, pair_sign};

/// The sign, where the numbers are in their ranges.
fn sign_of(u: i64, v: i64, d: u64) -> Option<Sign> {
    if u.unsigned_abs() < 1 << 63 && v.unsigned_abs() <= 1 << 31 && d < 1 << 63 {
        Some(pair_sign(u, v, d))
    } else {
        None
    }
}

#[test]
fn signs_of_sums(rt: HostRuntime) {
    for (u, v, d, sign) in [
        (-3, 2, 2, Sign::Minus),
        (-2, 2, 2, Sign::Plus),
        (-2, 1, 4, Sign::Zero),
        (5, -7, 0, Sign::Plus),
    ] {
        assert_eq!(rt; sign_of(u, v, d), Some(sign), "of {u} + {v}*sqrt({d})");
    }
}

#[test]
fn signs_at_the_bounds(rt: HostRuntime) {
    let (most_u, most_v, most_d) = (i64::MAX, 1 << 31, (1 << 63) - 1);
    let level = 1 << 62;
    for (u, v, d, sign) in [
        (most_u, -most_v, most_d, Sign::Plus),
        (-most_u, most_v, most_d, Sign::Minus),
        (-most_u, -most_v, most_d, Sign::Minus),
        (level, -most_v, most_d, Sign::Minus),
        (level, -most_v, level as u64, Sign::Zero),
        (level, -most_v, level as u64 - 1, Sign::Plus),
    ] {
        assert_eq!(rt; sign_of(u, v, d), Some(sign), "of {u} + {v}*sqrt({d})");
    }
}
