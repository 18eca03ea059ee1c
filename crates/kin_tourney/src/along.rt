//! Points by how far they lie along a direction.

ghost use Rattle.std.specs.Prelude.{◌≤◌, unsigned_abs};

use crate::keyed::Keyed;
use kin_motion::fact::Fact;
use kin_motion::form::Form;
use kin_num::Sign;

/// The fact of two points along a direction, or none, in 12 bytes.
#[derive(Clone, Copy)]
pub struct AlongBrief {
    i: u32,
    j: u32,
    dx: i8,
    dy: i8,
    sign: Option<Sign>,
}

const _: () = prove!(size_of::<AlongBrief>() == 12);

/// The key of the extreme point along `(dx, dy)`: the farther point wins, and at a tie the lesser
/// number. Both parts are in -16..16. Items are point numbers.
#[derive(Clone, Copy, Debug, PartialEq, Eq, Drop)]
pub struct Along {
    pub dx: i32,
    pub dy: i32,
    ghost dx_small: { unsigned_abs dx ≤ 16 },
    ghost dy_small: { unsigned_abs dy ≤ 16 },
}

impl Keyed for Along {
    ghost use Rattle.std.specs.Prelude.{[], ◌∷◌};
    ghost use Rattle.kin_motion.specs.Extremes.{along_key};
    ghost use Rattle.kin_tourney.specs.AlongLaws.{along_askable, along_total, along_transitive};
    ghost use Rattle.kin_tourney.specs.Briefs.{along_fact};

    type Item = u32;

    type Brief = AlongBrief;

    ghost names = { λ i. i ∷ [] };

    ghost key = { λ k. along_key k.dx k.dy };

    ghost fact_of = { along_fact };

    ghost askable = { λ k. along_askable k.dx k.dy k.dx_small k.dy_small };

    ghost total = { λ k. along_total k.dx k.dy };

    ghost transitive = { λ k. along_transitive k.dx k.dy };

    fn form(&self, left: &u32, right: &u32) -> Form {
        Form::Line {
            dx: self.dx,
            dy: self.dy,
            off: 0,
            i: *left,
            j: *right,
        }
    }

    fn left_wins(&self, sign: Sign, left: &u32, right: &u32) -> bool {
        match sign {
            Sign::Minus => true,
            Sign::Zero => *left < *right,
            Sign::Plus => false,
        }
    }

    fn no_fact() -> AlongBrief {
        AlongBrief {
            i: 0,
            j: 0,
            dx: 0,
            dy: 0,
            sign: None,
        }
    }

    #[inline(always)]
    fn brief(&self, sign: Sign, left: &u32, right: &u32) -> AlongBrief {
        AlongBrief {
            i: *left,
            j: *right,
            dx: self.dx as i8,
            dy: self.dy as i8,
            sign: Some(sign),
        }
    }

    #[inline(always)]
    fn fact(brief: &AlongBrief) -> Option<Fact> {
        let sign = brief.sign?;
        let form = Form::Line {
            dx: brief.dx as i32,
            dy: brief.dy as i32,
            off: 0,
            i: brief.i,
            j: brief.j,
        };
        Some(Fact { form, sign })
    }

    #[inline(always)]
    fn is_same(one: &AlongBrief, other: &AlongBrief) -> bool {
        match (one.sign, other.sign) {
            (Some(sign), Some(other_sign)) => {
                sign == other_sign
                    && one.i == other.i
                    && one.j == other.j
                    && one.dx == other.dx
                    && one.dy == other.dy
            }
            _ => false,
        }
    }
}
