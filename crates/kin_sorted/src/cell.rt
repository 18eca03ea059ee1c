//! What a row has for a slot beside its place, in 4 bytes.

ghost use Rattle.std.specs.Prelude.{◌≡◌, ◌<◌, ◌^◌, None, Some};
ghost use Rattle.kin_algebra.specs.declared.sign.Sign.TheVariants.{Zero};
ghost use Rattle.kin_sorted.specs.Cells.{link_in, no_slot};

use crate::link::Link;
use kin_num::Sign;

/// The right slot where there is no link. It is no slot: a row has room for at most `2^15`.
const NO_SLOT: u16 = u16::MAX;

/// What a row has for a slot beside its place.
#[derive(Clone, Copy, Debug, PartialEq, Eq)]
pub struct Cell {
    /// The right slot of the live fact whose left slot it is, or `NO_SLOT` where there is no such fact.
    right: u16,
    /// The sign of that fact as it was reported. It says nothing where there is no such fact.
    reported: Sign,
    /// The sign of the form with the right neighbour.
    pub sign: Sign,
}

impl Cell {
    /// The cell of an item that isn't in the row.
    pub fn vacant() -> Cell
        ensures { result ≡ record { right = no_slot; reported = Zero; sign = Zero } }
    {
        Cell {
            right: NO_SLOT,
            reported: Sign::Zero,
            sign: Sign::Zero,
        }
    }

    /// The link that was reported, if there is one.
    #[inline(always)]
    pub fn link(self) -> Option<Link>
        ensures { result ≡ link_in self }
    {
        if self.right == NO_SLOT {
            return None;
        }
        Some(Link {
            right: self.right as u32,
            sign: self.reported,
        })
    }

    /// Writes the link as it is reported.
    #[inline(always)]
    pub fn link_to(&mut self, link: Link)
        requires { link.right < 2 ^ 15 }
        ensures link { link_in self.new ≡ Some link }
        ensures sign { self.new.sign ≡ self.old.sign }
    {
        self.right = link.right as u16;
        self.reported = link.sign;
    }

    /// Takes the link away.
    pub fn unlink(&mut self)
        ensures link { link_in self.new ≡ None }
        ensures sign { self.new.sign ≡ self.old.sign }
    {
        self.right = NO_SLOT;
    }
}
