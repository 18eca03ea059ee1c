//! Moments.

ghost use Rattle.std.specs.Prelude.{◌<◌, ◌^◌, unsigned_abs};

use kin_instant::ratio::ratio;
use kin_instant::roots::Roots;
use kin_instant::solve::roots;
use kin_num::{Moment, Phase, Poly};

pub fn at(second: i64) -> Moment
    requires { unsigned_abs second < 2 ^ 31 }
{
    Moment {
        at: ratio(second, 1),
        phase: Phase::At,
    }
}

pub fn after(second: i64) -> Moment
    requires { unsigned_abs second < 2 ^ 31 }
{
    Moment {
        at: ratio(second, 1),
        phase: Phase::After,
    }
}

/// At so many parts of a second, if there are any.
pub fn at_fraction(number: u16, parts: u16) -> Option<Moment> {
    if parts == 0 {
        return None;
    }
    Some(Moment {
        at: ratio(i64::from(number), i64::from(parts)),
        phase: Phase::At,
    })
}

/// At the greater root of `t^2 - 2`.
pub fn at_the_root_of_two() -> Moment {
    let root = match roots(&Poly::new(1, 0, -2)) {
        Roots::Two(_, greater) => greater,
        _ => ratio(0, 1),
    };
    Moment {
        at: root,
        phase: Phase::At,
    }
}
