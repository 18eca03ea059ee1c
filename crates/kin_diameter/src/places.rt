//! Which cell has which slot.

ghost use Rattle.std.specs.Prelude.{◌≡◌, ℕ, None, length};
ghost use Rattle.kin_motion.specs.Tournaments.{item_in};
ghost use Rattle.kin_diameter.specs.Seats.{AreWithin, HoldCells};

use kin_pairs::Pair;

/// Puts cells in their places. All are free before.
pub(crate) fn lay_out(places: &mut [Option<Pair>], cells: &[Pair])
    requires free { (i : ℕ) → item_in places.old i ≡ None }
    requires within { AreWithin (length places.old) cells.now }
    ensures room { length places.new ≡ length places.old }
    ensures held { HoldCells cells.now places.new }
{
    for cell in cells {
        places[cell.slot() as usize] = Some(*cell);
    }
}

/// Frees the places of these cells. No other place is taken before.
pub(crate) fn free_all(places: &mut [Option<Pair>], cells: &[Pair])
    requires held { HoldCells cells.now places.old }
    requires within { AreWithin (length places.old) cells.now }
    ensures room { length places.new ≡ length places.old }
    ensures free { (i : ℕ) → item_in places.new i ≡ None }
{
    for cell in cells {
        places[cell.slot() as usize] = None;
    }
}
