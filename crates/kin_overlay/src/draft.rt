//! A breakpoint with what is still known of it.

ghost use Rattle.std.specs.Prelude.{◌≡◌, true, false, None, IfSome, IsSome, IsNone};
ghost use Rattle.kin_motion.specs.declared.form.Form.TheVariants.{Turn};
ghost use Rattle.kin_motion.specs.Scene.{Scene};
ghost use Rattle.kin_motion.specs.Merges.{slope_form};
ghost use Rattle.kin_overlay.specs.Sketches.{spot_of, is_known, is_told, IsFit};
ghost use Rattle.kin_overlay.specs.Spans.{draft_by};

use crate::breakpoint::Breakpoint;
use crate::record::{Next, Record};
use kin_num::Sign;

/// A current point of the other half, with the sign of the turn to it.
#[derive(Clone, Copy, Debug, PartialEq, Eq)]
pub struct Across {
    pub to: u32,
    pub turn: Sign,
}

/// A breakpoint with the facts that are still known of it.
#[derive(Clone, Copy, Debug, PartialEq, Eq)]
pub struct Draft {
    pub at: Breakpoint,
    /// The turn, where it is known.
    pub across: Option<Across>,
    /// The slope with a breakpoint of the other half, where it is known.
    pub next: Option<Next>,
}

impl Draft {
    /// A breakpoint of which nothing is known.
    pub fn new(at: Breakpoint) -> Draft
        ensures { result ≡ record { at = at; across = None; next = None } }
    {
        Draft {
            at,
            across: None,
            next: None,
        }
    }

    /// A breakpoint with all that its record remembers.
    #[inline(always)]
    pub fn by(noted: &Record) -> Draft
        ensures { result ≡ draft_by noted.now }
    {
        Draft {
            at: noted.at,
            across: Some(Across {
                to: noted.across,
                turn: noted.turn,
            }),
            next: noted.next,
        }
    }

    /// The sign of the turn to a point, where it is known.
    #[inline(always)]
    pub fn turn_to(&self, point: u32) -> Option<Sign>
        ensures some { IfSome result (λ sign. (s : Scene) → IsFit s self.now → sign ≡ s.sign (Turn self.now.at.left self.now.at.right point)) }
        ensures some_known { IsSome result → is_told self.now point ≡ true }
        ensures none { IsNone result → is_told self.now point ≡ false }
    {
        let across = self.across?;
        if across.to != point {
            return None;
        }
        Some(across.turn)
    }

    /// The sign of the slope form of it and another one, where it is known.
    #[inline(always)]
    pub fn slope_to(&self, other: &Draft) -> Option<Sign>
        ensures some { IfSome result (λ sign. (s : Scene) → IsFit s self.now → sign ≡ s.sign (slope_form (spot_of self.now) (spot_of other.now))) }
        ensures some_known { IsSome result → is_known self.now other.now ≡ true }
        ensures none { IsNone result → is_known self.now other.now ≡ false }
    {
        let next = self.next?;
        if next.at.left != other.at.left {
            return None;
        }
        if next.at.right != other.at.right {
            return None;
        }
        Some(next.slope)
    }
}
