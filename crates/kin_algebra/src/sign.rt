//! Signs as values.

ghost use Rattle.std.specs.Prelude.{◌≡◌};
ghost use Rattle.kin_algebra.specs.Signs.{sign_of, opposite_of, product_of, first_of};

/// The sign of a number.
#[derive(Clone, Copy, Debug, PartialEq, Eq)]
pub enum Sign {
    Minus,
    Zero,
    Plus,
}

impl Sign {
    /// The sign of `x`.
    pub fn of(x: i128) -> Sign
        ensures { result ≡ sign_of x }
    {
        if x < 0 {
            Sign::Minus
        } else if x > 0 {
            Sign::Plus
        } else {
            Sign::Zero
        }
    }

    /// The sign of the negated number.
    pub fn opposite(self) -> Sign
        ensures { result ≡ opposite_of self }
    {
        match self {
            Sign::Minus => Sign::Plus,
            Sign::Zero => Sign::Zero,
            Sign::Plus => Sign::Minus,
        }
    }

    /// The sign of the product of two numbers.
    pub fn times(self, other: Sign) -> Sign
        ensures { result ≡ product_of self other }
    {
        match self {
            Sign::Minus => other.opposite(),
            Sign::Zero => Sign::Zero,
            Sign::Plus => other,
        }
    }

    /// This sign, or the next one where this is zero.
    pub fn then(self, next: Sign) -> Sign
        ensures { result ≡ first_of self next }
    {
        match self {
            Sign::Zero => next,
            own => own,
        }
    }
}
