//! Motions as plain numbers.

ghost use Rattle.std.specs.Prelude.{◌≡◌};
ghost use Rattle.kin_c.specs.Questions.{motion_numbers};

use kin_motion::Motion;

/// The motion of a point that is at `(x + u*t, y + v*t)` at the time `t`.
#[repr(C)]
#[derive(Clone, Copy)]
pub struct KinMotion {
    pub x: i32,
    pub y: i32,
    pub u: i32,
    pub v: i32,
}

impl KinMotion {
    /// The numbers of a motion.
    pub(crate) fn of(motion: &Motion) -> KinMotion
        ensures { result ≡ motion_numbers motion.now }
    {
        KinMotion {
            x: motion.x(),
            y: motion.y(),
            u: motion.u(),
            v: motion.v(),
        }
    }
}
