//! The two halves of a merge.

ghost use Rattle.std.specs.Prelude.{◌≡◌};
ghost use Rattle.kin_motion.specs.Merges.{is_of, other};
ghost use Rattle.kin_overlay.specs.Seen.{half_of};

/// One of the two halves of a merge. `Overlay::build` and `Overlay::edit` ask for every number of A
/// to be less than every number of B.
#[derive(Clone, Copy, Debug, PartialEq, Eq)]
pub enum Half {
    A,
    B,
}

impl Half {
    /// Whether it is the same half.
    #[inline(always)]
    pub fn is(self, other: Half) -> bool
        ensures { result ≡ is_of (half_of self) (half_of other) }
    {
        match (self, other) {
            (Half::A, Half::A) | (Half::B, Half::B) => true,
            _ => false,
        }
    }

    /// The other half.
    pub fn other(self) -> Half
        ensures { half_of result ≡ other (half_of self) }
    {
        match self {
            Half::A => Half::B,
            Half::B => Half::A,
        }
    }
}
