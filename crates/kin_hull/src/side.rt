//! The upper tree and the lower tree, and the place of the facts of each among those of the hull.

ghost use Rattle.std.specs.Prelude.{◌≡◌, ◌<◌, ◌^◌};
ghost use Rattle.kin_motion.specs.ReflectedFacts.{reflected_fact};
ghost use Rattle.kin_hull.specs.Sides.{outward, inward};

use kin_motion::fact::{Fact, Placed};
use kin_motion::form::Form;

/// One of the trees of a hull.
#[derive(Clone, Copy, Debug, PartialEq, Eq)]
pub enum Side {
    /// The tree of upper chains.
    Upper,
    /// The tree of upper chains of the points reflected in the x axis.
    Lower,
}

/// The fact as it is seen of the points reflected in the x axis.
fn reflected(fact: Fact) -> Fact
    ensures { result ≡ reflected_fact fact }
{
    let changes_sides = match fact.form {
        Form::Line { dy, .. } => dy != 0,
        Form::Turn { .. } | Form::Slope { .. } => true,
        Form::Dist { .. } => false,
    };
    let sign = if changes_sides {
        fact.sign.opposite()
    } else {
        fact.sign
    };
    Fact {
        form: fact.form,
        sign,
    }
}

impl Side {
    /// A fact of this tree among those of the hull. Those of node v are in part 2v for the upper
    /// tree and in part 2v + 1 for the lower tree, there with their real signs.
    pub(crate) fn outward(self, placed: Placed) -> Placed
        requires { placed.part < 2 ^ 16 }
        ensures { result ≡ outward self placed }
    {
        match self {
            Side::Upper => Placed {
                part: 2 * placed.part,
                fact: placed.fact,
            },
            Side::Lower => Placed {
                part: 2 * placed.part + 1,
                fact: reflected(placed.fact),
            },
        }
    }

    /// A fact of the hull that is of this tree, as it is in the tree.
    pub(crate) fn inward(self, placed: Placed) -> Placed
        ensures { result ≡ inward self placed }
    {
        let fact = match self {
            Side::Upper => placed.fact,
            Side::Lower => reflected(placed.fact),
        };
        Placed {
            part: placed.part / 2,
            fact,
        }
    }
}
