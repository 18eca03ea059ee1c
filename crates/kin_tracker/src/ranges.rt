//! The ranges of numbers, as tests.

ghost use Rattle.std.specs.Prelude.{IsTrue, IsFalse};
ghost use Rattle.kin_num.specs.Quadratic.{IsSmall, quadratic};
ghost use Rattle.kin_motion.specs.Boxes.{IsRectInRange};
ghost use Rattle.kin_motion.specs.Course.{IsSlow};
ghost use Rattle.kin_tracker.specs.Ranges.{IsFractionInRange, IsLegInRange, IsSlowVelocity};

use kin_motion::{Motion, Rect};

/// The greatest size of a border of a rectangle.
const BORDER: u32 = 1 << 24;

/// Whether `(u, v)` is a velocity that a motion may have.
pub(crate) fn is_slow_velocity(u: i32, v: i32) -> bool
    ensures yes { IsTrue result → IsSlowVelocity u v }
    ensures no { IsFalse result → ¬ (IsSlowVelocity u v) }
{
    u.unsigned_abs() <= Motion::LIMIT && v.unsigned_abs() <= Motion::LIMIT
}

/// Whether a leg may begin at this instant with this velocity.
pub(crate) fn is_leg_in_range(at: u32, u: i32, v: i32) -> bool
    ensures yes { IsTrue result → IsLegInRange at u v }
    ensures no { IsFalse result → ¬ (IsLegInRange at u v) }
{
    at < 1 << 31 && is_slow_velocity(u, v)
}

/// Whether a motion may have these four numbers.
pub(crate) fn is_slow(x: i32, y: i32, u: i32, v: i32) -> bool
    ensures yes { IsTrue result → IsSlow (record { x = x; y = y; u = u; v = v }) }
    ensures no { IsFalse result → ¬ (IsSlow (record { x = x; y = y; u = u; v = v })) }
{
    x.unsigned_abs() <= Motion::LIMIT
        && y.unsigned_abs() <= Motion::LIMIT
        && u.unsigned_abs() <= Motion::LIMIT
        && v.unsigned_abs() <= Motion::LIMIT
}

/// Whether the points in this rectangle may be asked for.
pub(crate) fn is_rect_in_range(rect: &Rect) -> bool
    ensures yes { IsTrue result → IsRectInRange rect.now }
    ensures no { IsFalse result → ¬ (IsRectInRange rect.now) }
{
    rect.x1.unsigned_abs() <= BORDER
        && rect.x2.unsigned_abs() <= BORDER
        && rect.y1.unsigned_abs() <= BORDER
        && rect.y2.unsigned_abs() <= BORDER
}

/// Whether `n / d` may be an instant.
pub(crate) fn is_fraction_in_range(n: i64, d: i64) -> bool
    ensures yes { IsTrue result → IsFractionInRange n d }
    ensures no { IsFalse result → ¬ (IsFractionInRange n d) }
{
    n.unsigned_abs() < 1 << 31 && 0 < d && d < 1 << 31
}

/// Whether `a*t^2 + b*t + c` is a polynomial that the engine forms.
pub(crate) fn is_small(a: i64, b: i64, c: i64) -> bool
    ensures yes { IsTrue result → IsSmall (quadratic a b c) }
    ensures no { IsFalse result → ¬ (IsSmall (quadratic a b c)) }
{
    a.unsigned_abs() <= 1 << 29 && b.unsigned_abs() <= 1 << 31 && c.unsigned_abs() <= 1 << 29
}
