//! The polynomial that a form names.

ghost use Rattle.std.specs.Prelude.{◌≡◌, ◌≤◌, ◌^◌, ◌+ℤ◌, ◌-ℤ◌, ◌*ℤ◌, unsigned_abs, Some};
ghost use Rattle.kin_motion.specs.Course.{live_of, motion_limit, motion_of, IsSlow};
ghost use Rattle.kin_motion.specs.declared.form.Form.TheVariants.{Line, Turn, Slope, Dist};
ghost use Rattle.kin_motion.specs.Forms.{IsAskable, polynomial_of, product, minus, difference, along, square_of_step, x_step, y_step};
ghost use Rattle.kin_num.specs.Quadratic.{quadratic_sum};
ghost use Rattle.kin_motion.specs.Numbers.{IsIn};
ghost use Rattle.kin_motion.specs.Sizes.{IsShort, IsWithin, IsLengthWithin, step_limit, product_limit, sum_limit};

use crate::form::Form;
use crate::motion::{Motion, Motions};
use kin_num::poly::Poly;
use std::marker::Model;

/// `slope*t + start`.
#[derive(Clone, Copy)]
struct Linear {
    slope: i64,
    start: i64,
}

impl Model for Linear {
    ghost use Rattle.kin_motion.specs.Forms.{Linear};

    ghost Value = { Linear };

    ghost view = { λ p. record { slope = p.slope; start = p.start } };

    ghost inverse = { λ p. record { slope = p.slope; start = p.start } };
}

/// The step from one point to another.
#[derive(Clone, Copy)]
struct Step {
    x: Linear,
    y: Linear,
}

/// How far it is from one coordinate to another.
pub fn way(from: i32, to: i32) -> i64
    requires from_small { unsigned_abs from ≤ motion_limit }
    requires to_small { unsigned_abs to ≤ motion_limit }
    ensures value { result ≡ to -ℤ from }
    ensures size { unsigned_abs result ≤ step_limit }
{
    i64::from(to) - i64::from(from)
}

/// The step from point `i` to point `j`.
fn step_between(motions: &Motions, i: u32, j: u32) -> Step
    requires i_live { IsIn i (live_of motions.now) }
    requires j_live { IsIn j (live_of motions.now) }
    ensures x { result.x ≡ x_step motions.now i j }
    ensures y { result.y ≡ y_step motions.now i j }
    ensures x_short { IsShort result.x }
    ensures y_short { IsShort result.y }
{
    let (from, to) = (motions.of_live(i), motions.of_live(j));
    Step {
        x: Linear {
            slope: way(from.u(), to.u()),
            start: way(from.x(), to.x()),
        },
        y: Linear {
            slope: way(from.v(), to.v()),
            start: way(from.y(), to.y()),
        },
    }
}

/// A product of two coordinates of steps.
pub fn times(x: i64, y: i64) -> i64
    requires x_small { unsigned_abs x ≤ step_limit }
    requires y_small { unsigned_abs y ≤ step_limit }
    ensures value { result ≡ x *ℤ y }
    ensures size { unsigned_abs result ≤ product_limit }
{
    x * y
}

/// A sum of two products of coordinates.
pub fn combined(a: i64, x: i64, b: i64, y: i64) -> i64
    requires a_small { unsigned_abs a ≤ step_limit }
    requires x_small { unsigned_abs x ≤ step_limit }
    requires b_small { unsigned_abs b ≤ step_limit }
    requires y_small { unsigned_abs y ≤ step_limit }
    ensures value { result ≡ a *ℤ x +ℤ b *ℤ y }
    ensures size { unsigned_abs result ≤ sum_limit }
{
    times(a, x) + times(b, y)
}

fn product(p: Linear, q: Linear) -> Poly
    requires p_short { IsShort p }
    requires q_short { IsShort q }
    ensures value { result ≡ product p q }
    ensures size { IsWithin product_limit result }
{
    Poly::new(
        times(p.slope, q.slope),
        combined(p.slope, q.start, p.start, q.slope),
        times(p.start, q.start),
    )
}

/// A sum of two products.
fn sum(p: Poly, q: Poly) -> Poly
    requires p_small { IsWithin product_limit p }
    requires q_small { IsWithin product_limit q }
    ensures value { result ≡ quadratic_sum p q }
    ensures size { IsWithin sum_limit result }
{
    Poly::new(p.a() + q.a(), p.b() + q.b(), p.c() + q.c())
}

/// A difference of two products.
fn difference(p: Poly, q: Poly) -> Poly
    requires p_small { IsWithin product_limit p }
    requires q_small { IsWithin product_limit q }
    ensures { result ≡ difference p q }
{
    Poly::new(p.a() - q.a(), p.b() - q.b(), p.c() - q.c())
}

/// A difference of two squared lengths. As their outer coefficients aren't negative, no outer coefficient of the
/// difference is greater in size than the greater of the two that it comes from.
fn difference_of_lengths(p: Poly, q: Poly) -> Poly
    requires p_small { IsLengthWithin sum_limit p }
    requires q_small { IsLengthWithin sum_limit q }
    ensures { result ≡ difference p q }
{
    Poly::new(p.a() - q.a(), p.b() - q.b(), p.c() - q.c())
}

/// The squared length of a step.
fn square(step: Step) -> Poly
    requires x_short { IsShort step.x }
    requires y_short { IsShort step.y }
    ensures value { result ≡ quadratic_sum (product step.x step.x) (product step.y step.y) }
    ensures size { IsLengthWithin sum_limit result }
{
    sum(product(step.x, step.x), product(step.y, step.y))
}

/// `dx*x + dy*y + off` along a step.
fn along(dx: i64, dy: i64, off: i64, step: Step) -> Poly
    requires dx_small { unsigned_abs dx ≤ 16 }
    requires dy_small { unsigned_abs dy ≤ 16 }
    requires off_small { unsigned_abs off ≤ 2 ^ 16 }
    requires x_short { IsShort step.x }
    requires y_short { IsShort step.y }
    ensures { result ≡ along dx dy off step.x step.y }
{
    let b = combined(dx, step.x.slope, dy, step.y.slope);
    let c = combined(dx, step.x.start, dy, step.y.start);
    Poly::new(0, b, c + off)
}

/// The polynomial of a turn.
#[inline(never)]
#[tactic(auto, unfolding(crate::specs::Forms::polynomial_of))]
fn of_turn(motions: &Motions, i: u32, j: u32, k: u32) -> Poly
    requires askable { IsAskable (live_of motions.now) (Turn i j k) }
    ensures { result ≡ polynomial_of motions.now (Turn i j k) }
{
    let (there, on) = (step_between(motions, i, j), step_between(motions, i, k));
    difference(product(there.x, on.y), product(there.y, on.x))
}

/// The polynomial of a comparison of slopes.
#[inline(never)]
#[tactic(auto, unfolding(crate::specs::Forms::polynomial_of))]
fn of_slope(motions: &Motions, i: u32, j: u32, k: u32, l: u32) -> Poly
    requires askable { IsAskable (live_of motions.now) (Slope i j k l) }
    ensures { result ≡ polynomial_of motions.now (Slope i j k l) }
{
    let (first, second) = (step_between(motions, i, j), step_between(motions, k, l));
    difference(product(first.y, second.x), product(second.y, first.x))
}

/// The polynomial of a comparison of distances.
#[inline(always)]
#[tactic(auto, unfolding(crate::specs::Forms::polynomial_of))]
fn of_dist(motions: &Motions, i: u32, j: u32, k: u32, l: u32) -> Poly
    requires askable { IsAskable (live_of motions.now) (Dist i j k l) }
    ensures { result ≡ polynomial_of motions.now (Dist i j k l) }
{
    let (first, second) = (step_between(motions, i, j), step_between(motions, k, l));
    difference_of_lengths(square(second), square(first))
}

/// The polynomial of a line. It is made in line, so that its degree, at most one, is known at the call.
#[inline(always)]
#[tactic(auto, unfolding(crate::specs::Forms::polynomial_of))]
pub fn poly_of_line(motions: &Motions, dx: i32, dy: i32, off: i32, i: u32, j: u32) -> Poly
    requires askable { IsAskable (live_of motions.now) (Line dx dy off i j) }
    ensures { result ≡ polynomial_of motions.now (Line dx dy off i j) }
{
    let step = step_between(motions, i, j);
    along(i64::from(dx), i64::from(dy), i64::from(off), step)
}

/// The polynomial that a form names. Each named number is live. A line's direction is in -16..16 along x
/// and y, and its offset in -2^16..2^16.
#[inline(always)]
#[tactic(auto, unfolding(crate::specs::Forms::polynomial_of))]
pub fn poly_of(form: &Form, motions: &Motions) -> Poly
    requires askable { IsAskable (live_of motions.now) form.now }
    ensures { result ≡ polynomial_of motions.now form.now }
{
    match *form {
        Form::Line { dx, dy, off, i, j } => poly_of_line(motions, dx, dy, off, i, j),
        Form::Turn { i, j, k } => of_turn(motions, i, j, k),
        Form::Slope { i, j, k, l } => of_slope(motions, i, j, k, l),
        Form::Dist { i, j, k, l } => of_dist(motions, i, j, k, l),
    }
}
