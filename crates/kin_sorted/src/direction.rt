//! Points along a direction.

ghost use Rattle.std.specs.Prelude.{◌≤◌, ◌^◌, unsigned_abs, ◌≡◌};

use crate::ranked::Ranked;
use kin_motion::fact::Placed;
use kin_motion::form::Form;
use kin_num::Sign;

/// Points in their order along `(dx, dy)`. Both parts are in -16..16. Ties go to the lesser number. An item
/// is the number of a point, which is its slot, and numbers are below `slots`.
#[derive(Clone, Copy, Debug, PartialEq, Eq, Drop)]
pub struct Direction {
    pub dx: i32,
    pub dy: i32,
    pub slots: u16,
    ghost dx_small: { unsigned_abs dx ≤ 16 },
    ghost dy_small: { unsigned_abs dy ≤ 16 },
    ghost few: { slots ≤ 2 ^ 15 },
}

impl Direction {
    pub fn new(dx: i32, dy: i32, slots: u16) -> Direction
        requires dx { unsigned_abs dx ≤ 16 }
        requires dy { unsigned_abs dy ≤ 16 }
        requires few { slots ≤ 2 ^ 15 }
        ensures dx { result.dx ≡ dx }
        ensures dy { result.dy ≡ dy }
        ensures slots { result.slots ≡ slots }
    {
        Direction { dx, dy, slots }
    }
}

impl Ranked for Direction {
    ghost use Rattle.kin_motion.specs.Directions.{along};
    ghost use Rattle.kin_sorted.specs.DirectionLaws.{along_ranked};

    type Item = u32;

    ghost ranks = { λ d. along d.slots d.dx d.dy };

    ghost slot_of = { λ d i. i };

    ghost law = { λ d. along_ranked d.slots d.dx d.dy d.few d.dx_small d.dy_small };

    #[inline(always)]
    fn slots(&self) -> usize {
        self.slots as usize
    }

    #[inline(always)]
    fn slot(&self, item: u32) -> u32 {
        item
    }

    #[inline(always)]
    fn item(&self, slot: u32) -> u32 {
        slot
    }

    #[inline(always)]
    fn part(&self, _left: u32, _right: u32) -> u32 {
        0
    }

    #[inline(always)]
    fn form(&self, left: u32, right: u32) -> Form {
        Form::Line {
            dx: self.dx,
            dy: self.dy,
            off: 0,
            i: left,
            j: right,
        }
    }

    #[inline(always)]
    fn leads(&self, sign: Sign, left: u32, right: u32) -> bool {
        match sign {
            Sign::Minus => false,
            Sign::Zero => left < right,
            Sign::Plus => true,
        }
    }

    #[inline(always)]
    fn left(&self, placed: &Placed) -> Option<u32> {
        let Form::Line { i, .. } = placed.fact.form else {
            return None;
        };
        Some(i)
    }
}
