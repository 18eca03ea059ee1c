//! What is remembered at an outer end.

ghost use Rattle.std.specs.Prelude.{◌≡◌, ◌↔◌, IsTrue, pos, option_to_list};
ghost use Rattle.kin_motion.specs.declared.form.Form.TheVariants.{Line};
ghost use Rattle.kin_overlay.specs.Remembered.{y_facts};

use kin_motion::fact::Fact;
use kin_motion::form::Form;
use kin_num::Sign;

/// The form that is positive where `b` is to the right of `a`.
pub fn x_line(a: u32, b: u32) -> Form
    ensures { result ≡ Line (pos 1) (pos 0) (pos 0) a b }
{
    Form::Line {
        dx: 1,
        dy: 0,
        off: 0,
        i: a,
        j: b,
    }
}

/// The form that is positive where `b` is higher than `a`.
pub fn y_line(a: u32, b: u32) -> Form
    ensures { result ≡ Line (pos 0) (pos 1) (pos 0) a b }
{
    Form::Line {
        dx: 0,
        dy: 1,
        off: 0,
        i: a,
        j: b,
    }
}

/// An outer end of both chains, with what is remembered at it.
#[derive(Clone, Copy, Debug, PartialEq, Eq)]
pub struct End {
    /// The outermost point of A.
    pub a: u32,
    /// The outermost point of B.
    pub b: u32,
    /// `+` where that of B is to the right.
    pub x: Sign,
    /// `+` where that of B is higher. It is asked where both have the same x.
    pub y: Option<Sign>,
}

impl End {
    /// Whether it is the same end, with the same signs.
    pub fn is(self, other: End) -> bool
        ensures { IsTrue result ↔ (self ≡ other) }
    {
        self.a == other.a && self.b == other.b && self.x == other.x && self.y == other.y
    }

    /// The fact by x.
    pub fn x_fact(&self) -> Fact
        ensures { result ≡ record { form = Line (pos 1) (pos 0) (pos 0) self.now.a self.now.b; sign = self.now.x } }
    {
        Fact {
            form: x_line(self.a, self.b),
            sign: self.x,
        }
    }

    /// The fact by y, if there is one.
    pub fn y_fact(&self) -> Option<Fact>
        ensures { option_to_list result ≡ y_facts self.now.a self.now.b self.now.y }
    {
        let sign = self.y?;
        Some(Fact {
            form: y_line(self.a, self.b),
            sign,
        })
    }
}
