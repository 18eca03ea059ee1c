//! Ends of boxes along an axis.

ghost use Rattle.std.specs.Prelude.{◌≡◌, ◌≤◌, ◌<◌, ◌+◌, ◌*◌, ◌^◌, unsigned_abs, pos};
ghost use Rattle.kin_motion.specs.BoxFacts.{kind, point, offset, end_form, ties, end_leads, end_before};
ghost use Rattle.kin_motion.specs.Numbers.{IsIn};
ghost use Rattle.kin_motion.specs.Overlaps.{reaches, meet_along};

use kin_motion::form::Form;
use kin_motion::signs::Signs;
use kin_num::Sign;
use kin_num::steps::Steps;
use std::sync::ledger::Ledger;

/// A direction, and how long all boxes are along it. The low end of the box of a point is at the point.
#[derive(Clone, Copy, Debug, Drop)]
pub struct Axis {
    dx: i32,
    dy: i32,
    size: i32,
    ghost dx_small: { unsigned_abs dx ≤ 16 },
    ghost dy_small: { unsigned_abs dy ≤ 16 },
    ghost size_small: { unsigned_abs size ≤ 2 ^ 16 },
}

/// 0 for the low end of a box, 1 for the high one. The ends of the box of `i` are `2*i` and `2*i + 1`.
fn kind(end: u32) -> u32
    ensures { result ≡ kind end }
{
    end % 2
}

/// The point whose box has the end.
fn point(end: u32) -> u32
    ensures { result ≡ point end }
{
    end / 2
}

/// The part, below 4, of the fact of two neighbours: by their kinds.
pub fn part(a: u32, b: u32) -> u32
    ensures value { result ≡ 2 * kind a + kind b }
    ensures low { result < 4 }
{
    2 * kind(a) + kind(b)
}

/// Whether the first of two ends at one place is before the other: a low end is before a high one, and then the lesser
/// point is first.
fn wins_tie(a: u32, b: u32) -> bool
    ensures { result ≡ ties (kind a) (point a) (kind b) (point b) }
{
    kind(a) < kind(b) || (kind(a) == kind(b) && point(a) < point(b))
}

/// Whether the end `a` is before the end `b`, by the sign of how far `b` is beyond `a`.
fn leads(sign: Sign, a: u32, b: u32) -> bool
    ensures { result ≡ end_leads sign a b }
{
    match sign {
        Sign::Minus => false,
        Sign::Zero => wins_tie(a, b),
        Sign::Plus => true,
    }
}

impl Axis {
    /// The x axis, where boxes are this wide.
    pub fn x(width: i32) -> Axis
        requires { unsigned_abs width ≤ 2 ^ 16 }
        ensures dx { result.dx ≡ pos 1 }
        ensures dy { result.dy ≡ pos 0 }
        ensures size { result.size ≡ width }
    {
        Axis {
            dx: 1,
            dy: 0,
            size: width,
        }
    }

    /// The y axis, where boxes are this high.
    pub fn y(height: i32) -> Axis
        requires { unsigned_abs height ≤ 2 ^ 16 }
        ensures dx { result.dx ≡ pos 0 }
        ensures dy { result.dy ≡ pos 1 }
        ensures size { result.size ≡ height }
    {
        Axis {
            dx: 0,
            dy: 1,
            size: height,
        }
    }

    /// How much farther the end `b` lies from its point than the end `a` from its own.
    fn offset(&self, a: u32, b: u32) -> i32
        ensures { result ≡ offset self.now.size a b }
    {
        if kind(a) < kind(b) {
            self.size
        } else if kind(b) < kind(a) {
            -self.size
        } else {
            0
        }
    }

    /// How far the end `b` is beyond the end `a`.
    pub fn form(&self, a: u32, b: u32) -> Form
        ensures { result ≡ end_form self.now.dx self.now.dy self.now.size a b }
    {
        Form::Line {
            dx: self.dx,
            dy: self.dy,
            off: self.offset(a, b),
            i: point(a),
            j: point(b),
        }
    }

    /// Whether the end `a` is before the end `b`.
    pub fn is_before<O: Signs, L: Ledger>(
        &self,
        now: &O,
        a: u32,
        b: u32,
        steps: &mut Steps<L>,
    ) -> bool
        requires a_live { IsIn (point a) (O.scene now.now).live }
        requires b_live { IsIn (point b) (O.scene now.now).live }
        ensures { result ≡ end_before (O.scene now.now) self.now.dx self.now.dy self.now.size a b }
    {
        leads(now.sign(&self.form(a, b), steps), a, b)
    }

    /// Whether the high end of the box of `j` isn't before the low end of the box of `i`.
    fn reaches<O: Signs, L: Ledger>(&self, now: &O, i: u32, j: u32, steps: &mut Steps<L>) -> bool
        requires i_live { IsIn i (O.scene now.now).live }
        requires j_live { IsIn j (O.scene now.now).live }
        ensures { result ≡ reaches (O.scene now.now) self.now.dx self.now.dy self.now.size i j }
    {
        let beyond = Form::Line {
            dx: self.dx,
            dy: self.dy,
            off: self.size,
            i,
            j,
        };
        now.sign(&beyond, steps) != Sign::Minus
    }

    /// Whether the boxes of `i` and `j` have a place in common along the axis.
    pub fn meet<O: Signs, L: Ledger>(&self, now: &O, i: u32, j: u32, steps: &mut Steps<L>) -> bool
        requires i_live { IsIn i (O.scene now.now).live }
        requires j_live { IsIn j (O.scene now.now).live }
        ensures { result ≡ meet_along (O.scene now.now) self.now.dx self.now.dy self.now.size i j }
    {
        self.reaches(now, i, j, steps) && self.reaches(now, j, i, steps)
    }
}
