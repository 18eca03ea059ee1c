//! Breakpoints of chains.

ghost use Rattle.std.specs.Prelude.{◌≡◌, ◌↔◌, ◌||◌, nat_eq, IsTrue, option_map};
ghost use Rattle.kin_motion.specs.declared.form.Form.TheVariants.{Turn};
ghost use Rattle.kin_motion.specs.Merges.{breakpoints_of, slope_form};
ghost use Rattle.kin_overlay.specs.Lists.{first_of};
ghost use Rattle.kin_overlay.specs.Seen.{half_of, seen};

use crate::half::Half;
use kin_motion::form::Form;

/// Two neighbours of a chain, from left to right.
#[derive(Clone, Copy, Debug, PartialEq, Eq)]
pub struct Breakpoint {
    pub half: Half,
    pub left: u32,
    pub right: u32,
}

impl Breakpoint {
    /// The first breakpoint of a chain, if it has one.
    pub fn first(half: Half, chain: &[u32]) -> Option<Breakpoint>
        ensures { option_map seen result ≡ first_of (breakpoints_of (half_of half) chain.now) }
    {
        if chain.len() < 2 {
            return None;
        }
        Some(Breakpoint {
            half,
            left: chain[0],
            right: chain[1],
        })
    }

    /// Whether it is the same breakpoint.
    #[inline(always)]
    pub fn is(self, other: Breakpoint) -> bool
        ensures { IsTrue result ↔ (self ≡ other) }
    {
        self.half == other.half && self.left == other.left && self.right == other.right
    }

    /// Whether this number is one of its points.
    #[inline(always)]
    pub fn names(self, no: u32) -> bool
        ensures { result ≡ (nat_eq no self.left || nat_eq no self.right) }
    {
        no == self.left || no == self.right
    }

    /// The form that is positive where the point lies above the line through both.
    pub fn turn(self, to: u32) -> Form
        ensures { result ≡ Turn self.left self.right to }
    {
        Form::Turn {
            i: self.left,
            j: self.right,
            k: to,
        }
    }

    /// The form that is positive where this one is steeper than the other.
    pub fn slope(self, other: Breakpoint) -> Form
        ensures { result ≡ slope_form (seen self) (seen other) }
    {
        Form::Slope {
            i: self.left,
            j: self.right,
            k: other.left,
            l: other.right,
        }
    }
}
