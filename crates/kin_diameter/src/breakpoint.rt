//! Breakpoints of both chains.

ghost use Rattle.std.specs.Prelude.{◌≡◌, reverse, option_map, IfSome};
ghost use Rattle.kin_motion.specs.Merges.{Half.{A}, is_of, breakpoints_of, slope_form};
ghost use Rattle.kin_motion.specs.Sweeps.{breakpoints_back};
ghost use Rattle.kin_diameter.specs.declared.breakpoint.Chain.TheVariants.{Upper, Lower};
ghost use Rattle.kin_diameter.specs.Merging.{first_of, AreLow};
ghost use Rattle.kin_diameter.specs.Seen.{half_of, seen};

use kin_motion::form::Form;

/// One of the two chains of a hull.
#[derive(Clone, Copy, Debug, PartialEq, Eq)]
pub(crate) enum Chain {
    Upper,
    Lower,
}

impl Chain {
    /// Whether it is the same chain.
    pub fn is(self, other: Chain) -> bool
        ensures { result ≡ is_of (half_of self) (half_of other) }
    {
        match (self, other) {
            (Chain::Upper, Chain::Upper) | (Chain::Lower, Chain::Lower) => true,
            _ => false,
        }
    }
}

/// Two neighbours of a chain, the left one first, in 6 bytes.
#[derive(Clone, Copy, Debug, PartialEq, Eq)]
pub(crate) struct Breakpoint {
    pub chain: Chain,
    pub left: u16,
    pub right: u16,
}

const _: () = prove!(size_of::<Breakpoint>() == 6);

impl Breakpoint {
    /// The leftmost breakpoint of the upper chain, or of the end of it that is given.
    pub fn first(upper: &[u32]) -> Option<Breakpoint>
        requires { AreLow upper.now }
        ensures value { option_map seen result ≡ first_of (breakpoints_of A upper.now) }
        ensures chain { IfSome result (λ e. e.chain ≡ Upper) }
    {
        let (left, rest) = upper.split_first()?;
        let (right, _) = rest.split_first()?;
        Some(Breakpoint {
            chain: Chain::Upper,
            left: *left as u16,
            right: *right as u16,
        })
    }

    /// The rightmost breakpoint of the lower chain, or of the front of it that is given.
    pub fn last(lower: &[u32]) -> Option<Breakpoint>
        requires { AreLow lower.now }
        ensures value { option_map seen result ≡ first_of (breakpoints_back (reverse lower.now)) }
        ensures chain { IfSome result (λ e. e.chain ≡ Lower) }
    {
        let (right, rest) = lower.split_last()?;
        let (left, _) = rest.split_last()?;
        Some(Breakpoint {
            chain: Chain::Lower,
            left: *left as u16,
            right: *right as u16,
        })
    }

    /// The form that is positive where this one is steeper than the other.
    pub fn slope(self, other: Breakpoint) -> Form
        ensures { result ≡ slope_form (seen self) (seen other) }
    {
        Form::Slope {
            i: self.left as u32,
            j: self.right as u32,
            k: other.left as u32,
            l: other.right as u32,
        }
    }
}
