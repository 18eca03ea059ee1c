//! The points in a rectangle.

ghost use Rattle.std.specs.Prelude.{◌≡◌, ◌≤◌, ◌+ℤ◌, ◌*ℤ◌, ◌*◌, ◌^◌, unsigned_abs, IfOk};
ghost use Rattle.kin_motion.specs.Boxes.{is_at_least, is_inside, is_not_minus, points_in, IsRectInRange};
ghost use Rattle.kin_motion.specs.Course.{live_of, motion_limit};
ghost use Rattle.kin_motion.specs.Numbers.{IsIn};
ghost use Rattle.kin_plain.specs.Sides.{is_between_x, is_between_y};

use crate::lists::put;
use kin_instant::sign::sign_at;
use kin_motion::{Motions, Rect};
use kin_num::memory::NoMemory;
use kin_num::steps::Steps;
use kin_num::{Moment, Poly, Sign};
use std::alloc::Global;
use std::sync::ledger::Ledger;

/// Whether the sign is + or 0.
fn is_not_minus(sign: Sign) -> bool
    ensures { result ≡ is_not_minus sign }
{
    match sign {
        Sign::Minus => false,
        Sign::Zero | Sign::Plus => true,
    }
}

/// A number once, not at all, or turned round.
fn times(d: i32, x: i32) -> i64
    requires d_small { unsigned_abs d ≤ 1 }
    requires x_small { unsigned_abs x ≤ motion_limit }
    ensures value { result ≡ d *ℤ x }
    ensures size { unsigned_abs result ≤ motion_limit }
{
    i64::from(d) * i64::from(x)
}

/// How far a point is along a direction.
fn along(dx: i32, x: i32, dy: i32, y: i32) -> i64
    requires dx_small { unsigned_abs dx ≤ 1 }
    requires x_small { unsigned_abs x ≤ motion_limit }
    requires dy_small { unsigned_abs dy ≤ 1 }
    requires y_small { unsigned_abs y ≤ motion_limit }
    ensures value { result ≡ dx *ℤ x +ℤ dy *ℤ y }
    ensures size { unsigned_abs result ≤ 2 * motion_limit }
{
    times(dx, x) + times(dy, y)
}

/// Whether `dx*x + dy*y + off` is at least 0 for a live point at a moment.
fn is_at_least<L: Ledger>(
    motions: &Motions,
    now: &Moment,
    dx: i32,
    dy: i32,
    off: i32,
    no: u32,
    steps: &mut Steps<L>,
) -> bool
    requires dx_small { unsigned_abs dx ≤ 1 }
    requires dy_small { unsigned_abs dy ≤ 1 }
    requires off_small { unsigned_abs off ≤ 2 ^ 24 }
    requires live { IsIn no (live_of motions.now) }
    ensures { result ≡ is_at_least motions.now now.now dx dy off no }
{
    let motion = motions.of_live(no);
    let slope = along(dx, motion.u(), dy, motion.v());
    let start = along(dx, motion.x(), dy, motion.y());
    let ahead = Poly::new(0, slope, start + i64::from(off));
    is_not_minus(sign_at(&ahead, now, steps))
}

/// Whether a live point is between the left and the right side of a rectangle.
fn is_between_x<L: Ledger>(
    motions: &Motions,
    now: &Moment,
    rect: &Rect,
    no: u32,
    steps: &mut Steps<L>,
) -> bool
    requires rect { IsRectInRange rect.now }
    requires live { IsIn no (live_of motions.now) }
    ensures { result ≡ is_between_x motions.now now.now rect.now no }
{
    is_at_least(motions, now, 1, 0, -rect.x1, no, steps)
        && is_at_least(motions, now, -1, 0, rect.x2, no, steps)
}

/// Whether a live point is between the lower and the upper side of a rectangle.
fn is_between_y<L: Ledger>(
    motions: &Motions,
    now: &Moment,
    rect: &Rect,
    no: u32,
    steps: &mut Steps<L>,
) -> bool
    requires rect { IsRectInRange rect.now }
    requires live { IsIn no (live_of motions.now) }
    ensures { result ≡ is_between_y motions.now now.now rect.now no }
{
    is_at_least(motions, now, 0, 1, -rect.y1, no, steps)
        && is_at_least(motions, now, 0, -1, rect.y2, no, steps)
}

/// Whether a live point is on or within the border of a rectangle.
fn is_inside<L: Ledger>(
    motions: &Motions,
    now: &Moment,
    rect: &Rect,
    no: u32,
    steps: &mut Steps<L>,
) -> bool
    requires rect { IsRectInRange rect.now }
    requires live { IsIn no (live_of motions.now) }
    ensures { result ≡ is_inside motions.now now.now rect.now no }
{
    let by_x = is_between_x(motions, now, rect, no, steps);
    let by_y = is_between_y(motions, now, rect, no, steps);
    by_x & by_y
}

/// The live numbers on or within the border of a rectangle, rising.
pub fn points_in<L: Ledger>(
    alloc: Global,
    motions: &Motions,
    now: &Moment,
    rect: &Rect,
    live: &[u32],
    steps: &mut Steps<L>,
) -> Result<Vec<u32>, NoMemory>
    requires rect { IsRectInRange rect.now }
    requires live { live.now ≡ live_of motions.now }
    ensures { IfOk result (λ inside. inside.items ≡ points_in motions.now now.now rect.now) }
{
    let mut inside = Vec::new(alloc);
    for no in live {
        if is_inside(motions, now, rect, *no, steps) {
            put(&mut inside, *no)?;
        }
    }
    Ok(inside)
}
