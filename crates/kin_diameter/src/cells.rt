//! The cells of a sweep.

ghost use Rattle.std.specs.Prelude.{◌≡◌, ◌<◌, ◌^◌, ◌∷◌, ℕ, List, map, reverse, OnOk};
ghost use Rattle.kin_motion.specs.Merges.{Half.{A, B}, Breakpoint as Spot, own_of, breakpoints_of};
ghost use Rattle.kin_motion.specs.Sweeps.{breakpoints_back, cell_pairs};
ghost use Rattle.kin_diameter.specs.Cells.{IsLow, cell_at, cells_from};
ghost use Rattle.kin_diameter.specs.Merging.{AreLow};
ghost use Rattle.kin_diameter.specs.Seen.{seen};

use crate::breakpoint::{Breakpoint, Chain};
use kin_num::memory::NoMemory;
use kin_pairs::Pair;

/// The points that are current in a cell, and the slot that it has.
#[derive(Clone, Copy, Debug, PartialEq, Eq)]
pub(crate) struct Current {
    slot: u32,
    upper: u32,
    lower: u32,
}

impl Current {
    fn pair(self) -> Pair
        requires low { IsLow self }
        ensures { result ≡ cell_at self }
    {
        Pair::new(self.slot, self.upper, self.lower)
    }

    /// What is current after a breakpoint: of the upper chain its right point, of the lower one its left point.
    fn after(self, at: Breakpoint) -> Current
        requires low { IsLow self }
        requires left { at.left < 2 ^ 12 }
        requires right { at.right < 2 ^ 12 }
        ensures low { IsLow result }
        ensures rest { (es : List Spot) → cells_from self (seen at ∷ es) ≡ cell_at self ∷ cells_from result es }
    {
        let (left, right) = (at.left as u32, at.right as u32);
        match at.chain {
            Chain::Upper => Current {
                slot: 2 * right,
                upper: right,
                lower: self.lower,
            },
            Chain::Lower => Current {
                slot: 2 * left + 1,
                upper: self.upper,
                lower: left,
            },
        }
    }
}

/// The cells of a sweep of these chains, both given from left to right, in their order. Slot `2p` is that of the first
/// cell, where p is the first upper point, and of one that an upper breakpoint to p begins; slot `2q + 1` is that of one
/// that a lower breakpoint to q begins. The memory of the list before is used again.
pub(crate) fn list_cells(
    upper: &[u32],
    lower: &[u32],
    breakpoints: &[Breakpoint],
    cells: &mut Vec<Pair>,
) -> Result<(), NoMemory>
    requires upper { AreLow upper.now }
    requires lower { AreLow lower.now }
    requires of_upper { own_of A (map seen breakpoints.now) ≡ breakpoints_of A upper.now }
    requires of_lower { own_of B (map seen breakpoints.now) ≡ breakpoints_back (reverse lower.now) }
    ensures { OnOk result (cells.new.items ≡ cell_pairs upper.now (reverse lower.now) (map seen breakpoints.now)) }
{
    cells.clear();
    let Some((first, _)) = upper.split_first() else {
        return Ok(());
    };
    let Some((last, _)) = lower.split_last() else {
        return Ok(());
    };
    let mut current = Current {
        slot: 2 * *first,
        upper: *first,
        lower: *last,
    };
    for at in breakpoints {
        cells.push(current.pair()).map_err(|_| NoMemory)?;
        current = current.after(*at);
    }
    cells.push(current.pair()).map_err(|_| NoMemory)?;
    Ok(())
}
