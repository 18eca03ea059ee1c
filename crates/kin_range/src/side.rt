//! The sides of a rectangle.

ghost use Rattle.std.specs.Prelude.{◌≡◌, ◌≤◌, ◌*◌, ◌+ℤ◌, ◌*ℤ◌, unsigned_abs};
ghost use Rattle.kin_motion.specs.Boxes.{is_not_minus, IsRectInRange};
ghost use Rattle.kin_motion.specs.Course.{live_of, motion_limit};
ghost use Rattle.kin_motion.specs.Numbers.{IsIn};
ghost use Rattle.kin_range.specs.Sides.{is_within, left_of, right_of, bottom_of, top_of};

use kin_instant::sign::sign_at;
use kin_motion::{Motions, Rect};
use kin_num::steps::Steps;
use kin_num::{Moment, Poly, Sign};
use std::marker::Model;
use std::sync::ledger::Ledger;

/// A side of a rectangle. A point is within it where `dx*x + dy*y + off` isn't negative.
#[derive(Clone, Copy)]
pub(crate) struct Side {
    dx: i32,
    dy: i32,
    off: i32,
}

impl Model for Side {
    ghost use Rattle.kin_range.specs.Sides.{Side, IsAlongAxis};

    ghost Value = { Side };

    ghost view = { λ s. record { dx = s.dx; dy = s.dy; off = s.off } };

    ghost invariant = { λ s. IsAlongAxis (record { dx = s.dx; dy = s.dy; off = s.off }) };

    ghost inverse = { λ s. record { dx = s.dx; dy = s.dy; off = s.off } };
}

/// Whether it is + or 0.
fn is_not_minus(sign: Sign) -> bool
    ensures { result ≡ is_not_minus sign }
{
    match sign {
        Sign::Minus => false,
        Sign::Zero | Sign::Plus => true,
    }
}

/// A number once, not at all, or turned round.
fn times(d: i32, x: i32) -> i64
    requires d_small { unsigned_abs d ≤ 1 }
    requires x_small { unsigned_abs x ≤ motion_limit }
    ensures value { result ≡ d *ℤ x }
    ensures size { unsigned_abs result ≤ motion_limit }
{
    i64::from(d) * i64::from(x)
}

/// How far a point is along a direction.
fn along(dx: i32, x: i32, dy: i32, y: i32) -> i64
    requires dx_small { unsigned_abs dx ≤ 1 }
    requires x_small { unsigned_abs x ≤ motion_limit }
    requires dy_small { unsigned_abs dy ≤ 1 }
    requires y_small { unsigned_abs y ≤ motion_limit }
    ensures value { result ≡ dx *ℤ x +ℤ dy *ℤ y }
    ensures size { unsigned_abs result ≤ 2 * motion_limit }
{
    times(dx, x) + times(dy, y)
}

impl Side {
    /// The points from `x1` on.
    pub fn left(rect: &Rect) -> Side
        requires rect { IsRectInRange rect.now }
        ensures { result ≡ left_of rect.now }
    {
        Side {
            dx: 1,
            dy: 0,
            off: -rect.x1,
        }
    }

    /// The points up to `x2`.
    pub fn right(rect: &Rect) -> Side
        requires rect { IsRectInRange rect.now }
        ensures { result ≡ right_of rect.now }
    {
        Side {
            dx: -1,
            dy: 0,
            off: rect.x2,
        }
    }

    /// The points from `y1` on.
    pub fn bottom(rect: &Rect) -> Side
        requires rect { IsRectInRange rect.now }
        ensures { result ≡ bottom_of rect.now }
    {
        Side {
            dx: 0,
            dy: 1,
            off: -rect.y1,
        }
    }

    /// The points up to `y2`.
    pub fn top(rect: &Rect) -> Side
        requires rect { IsRectInRange rect.now }
        ensures { result ≡ top_of rect.now }
    {
        Side {
            dx: 0,
            dy: -1,
            off: rect.y2,
        }
    }

    /// Whether a live point is within it at a moment, phase included.
    pub fn has<L: Ledger>(
        self,
        motions: &Motions,
        no: u32,
        now: &Moment,
        steps: &mut Steps<L>,
    ) -> bool
        requires live { IsIn no (live_of motions.now) }
        ensures { result ≡ is_within motions.now now.now self no }
    {
        let motion = motions.of_live(no);
        let slope = along(self.dx, motion.u(), self.dy, motion.v());
        let start = along(self.dx, motion.x(), self.dy, motion.y());
        let ahead = Poly::new(0, slope, start + i64::from(self.off));
        is_not_minus(sign_at(&ahead, now, steps))
    }
}
