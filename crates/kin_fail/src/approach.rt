//! When two points come within a distance of each other.

ghost use Rattle.std.specs.Prelude.{◌≡◌, ◌≤◌, ◌*◌, ◌^◌, ◌-ℤ◌, ◌*ℤ◌, ◌≤ℤ◌, pos, unsigned_abs, IfSome, IfNone};
ghost use Rattle.kin_motion.specs.Sizes.{step_limit, product_limit, sum_limit};
ghost use Rattle.kin_fail.specs.Approach.{clearance, IsFirstWithin, StayApart};

use crate::first_fail::first_fail;
use kin_instant::sign::sign_at;
use kin_motion::poly::{combined, way};
use kin_motion::{Fact, Form, Motion};
use kin_num::{Moment, Poly, Sign, Steps};
use std::sync::ledger::Ledger;

/// That a clearance is above 0. Only the sign matters, and not the form.
const APART: Fact = Fact {
    form: Form::Turn { i: 0, j: 0, k: 0 },
    sign: Sign::Plus,
};

/// The square of a distance.
fn square(distance: u32) -> i64
    requires { distance ≤ step_limit }
    ensures value { result ≡ pos (distance * distance) }
    ensures size { unsigned_abs result ≤ product_limit }
    ensures low { pos 0 ≤ℤ result }
{
    i64::from(distance * distance)
}

/// `a*t^2 + 2*b*t + c - square`.
fn lowered(a: i64, b: i64, c: i64, square: i64) -> Poly
    requires a_small { unsigned_abs a ≤ sum_limit }
    requires b_small { unsigned_abs b ≤ sum_limit }
    requires c_small { unsigned_abs c ≤ sum_limit }
    requires c_low { pos 0 ≤ℤ c }
    requires square_small { unsigned_abs square ≤ product_limit }
    requires square_low { pos 0 ≤ℤ square }
    ensures { result ≡ record { a = a; b = pos 2 *ℤ b; c = c -ℤ square } }
{
    Poly::new(a, 2 * b, c - square)
}

/// The squared distance of two points, less that of `distance`.
fn clearance(one: &Motion, other: &Motion, distance: u32) -> Poly
    requires { distance ≤ step_limit }
    ensures { result ≡ clearance distance one.now other.now }
{
    let x = way(one.x(), other.x());
    let y = way(one.y(), other.y());
    let u = way(one.u(), other.u());
    let v = way(one.v(), other.v());
    lowered(
        combined(u, u, v, v),
        combined(u, x, v, y),
        combined(x, x, y, y),
        square(distance),
    )
}

/// The first moment from now on at which two points are no farther apart than `distance`, which is
/// at most 16384. `None` exactly where there is none.
pub fn first_within<L: Ledger>(
    one: &Motion,
    other: &Motion,
    distance: u32,
    now: &Moment,
    steps: &mut Steps<L>,
) -> Option<Moment>
    requires { distance ≤ step_limit }
    ensures some { IfSome result (IsFirstWithin distance one.now other.now now.now) }
    ensures none { IfNone result (StayApart distance one.now other.now now.now) }
{
    now.at.recall_canonical();
    let clearance = clearance(one, other, distance);
    match sign_at(&clearance, now, steps) {
        Sign::Plus => first_fail(&APART, &clearance, now, steps),
        _ => Some(*now),
    }
}
