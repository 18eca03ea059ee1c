//! Moments at whole seconds.

ghost use Rattle.std.specs.Prelude.{◌<◌, ◌^◌, unsigned_abs};

use kin_instant::ratio::ratio;
use kin_num::{Moment, Phase};

pub fn moment(second: i64, phase: Phase) -> Moment
    requires { unsigned_abs second < 2 ^ 31 }
{
    Moment {
        at: ratio(second, 1),
        phase,
    }
}
