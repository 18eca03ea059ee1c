//! Slopes of two breakpoints with their signs.

ghost use Rattle.std.specs.Prelude.{◌≡◌, ◌↔◌, IsTrue};
ghost use Rattle.kin_diameter.specs.Seen.{seen, compared, slope_fact};

use crate::breakpoint::Breakpoint;
use kin_motion::fact::{Fact, Placed};
use kin_motion::form::Form;
use kin_num::Sign;

/// The form `Slope` of these numbers with its sign, in 10 bytes.
#[derive(Clone, Copy, Debug, PartialEq, Eq)]
pub(crate) struct Slope {
    i: u16,
    j: u16,
    k: u16,
    l: u16,
    sign: Sign,
}

const _: () = prove!(size_of::<Slope>() == 10);

impl Slope {
    /// The form that is positive where the first breakpoint is steeper, with its sign.
    pub fn new(one: Breakpoint, other: Breakpoint, sign: Sign) -> Slope
        ensures { slope_fact result ≡ compared (seen one) (seen other) sign }
    {
        Slope {
            i: one.left,
            j: one.right,
            k: other.left,
            l: other.right,
            sign,
        }
    }

    /// Whether it is the same form with the same sign.
    pub fn is(self, other: Slope) -> bool
        ensures { IsTrue result ↔ (self ≡ other) }
    {
        self.i == other.i
            && self.j == other.j
            && self.k == other.k
            && self.l == other.l
            && self.sign == other.sign
    }

    /// It as a fact of part 0.
    pub fn fact(self) -> Placed
        ensures { result ≡ slope_fact self }
    {
        let form = Form::Slope {
            i: self.i as u32,
            j: self.j as u32,
            k: self.k as u32,
            l: self.l as u32,
        };
        Placed {
            part: 0,
            fact: Fact {
                form,
                sign: self.sign,
            },
        }
    }
}
