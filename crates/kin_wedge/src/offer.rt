//! Whether a number can change a candidate.

ghost use Rattle.std.specs.Prelude.{◌%◌, ℕ, ◌≡◌, ◌+◌, ◌*◌, ◌<◌, ◌^◌, Some, true, length, slice_get};
ghost use Rattle.kin_motion.specs.Octants.{Octant as Bounds, octants};
ghost use Rattle.kin_wedge.specs.Rows.{row_of, AreRows};
ghost use Rattle.kin_wedge.specs.Seen.{rows_of};
ghost use Rattle.kin_wedge.specs.Touched.{ComesFirst};

use crate::octant::third_of;
use crate::orders::Orders;
use crate::table::Table;

/// Whether no candidate comes before the member that has this place in the order that ranks an octant.
/// A true answer promises nothing: a false one only saves work.
#[inline(always)]
pub fn leads(orders: &Orders, table: &Table, apex: u32, w: u32, rank: usize) -> bool
    requires rows { AreRows (rows_of orders.now.lists.items) }
    requires octant { w < 8 }
    requires slot { 8 * apex + w < length table.now }
    requires small { length table.now < 2 ^ 32 }
    ensures { (no : ℕ) (o : Bounds) → slice_get (row_of (rows_of orders.now.lists.items) (w % 4 + 4)) rank ≡ Some no → slice_get octants w ≡ Some o → ComesFirst (rows_of orders.now.lists.items) table.now o apex w no → result ≡ true }
{
    match table.candidate(8 * apex + w) {
        Some(best) => !orders.place_comes_after(third_of(w), best, rank),
        None => true,
    }
}
