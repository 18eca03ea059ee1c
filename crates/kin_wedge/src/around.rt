//! What a number that enters or leaves can have changed.

ghost use Rattle.std.specs.Prelude.{◌≡◌, ℕ, ◌+◌, ◌*◌, ◌<◌, ◌≤◌, ◌^◌, Some, true, length, slice_get, OnOk};
ghost use Rattle.kin_motion.specs.Octants.{Octant as Bounds, octants};
ghost use Rattle.kin_wedge.specs.Passages.{IsNumberOf, IsLookedUp, IsLost, IsMarkOffered, IsOfferedAround, IsOfferedFrom};
ghost use Rattle.kin_wedge.specs.Rows.{row_of, AreAlike, AreRows, HaveSlots};
ghost use Rattle.kin_wedge.specs.Seen.{rows_of};
ghost use Rattle.kin_wedge.specs.Sides.{AreParted, AreRanks, IsSpot};
ghost use Rattle.kin_wedge.specs.Touched.{HasTouched};

use crate::orders::Orders;
use crate::sides::Spot;
use crate::table::Table;
use crate::touch::Touches;
use kin_list::Mark;
use kin_num::memory::NoMemory;

/// Offers a member to those at some places of the first order, each in the octant that it is in.
#[inline(always)]
fn offer_from(
    orders: &Orders,
    table: &Table,
    touches: &mut Touches,
    no: u32,
    spot: Spot,
    ranks: [usize; 4],
    from: usize,
    to: usize,
) -> Result<(), NoMemory>
    requires rows { AreRows (rows_of orders.now.lists.items) }
    requires parted { AreParted (rows_of orders.now.lists.items) }
    requires members { HaveSlots (rows_of orders.now.lists.items) (length table.now) }
    requires alike { AreAlike (rows_of orders.now.lists.items) }
    requires small { length table.now < 2 ^ 32 }
    requires spot { IsSpot (rows_of orders.now.lists.items) no spot }
    requires ranks { AreRanks (rows_of orders.now.lists.items) no ranks }
    requires range { from ≤ to }
    requires within { to ≤ length (row_of (rows_of orders.now.lists.items) 0) }
    ensures offered { OnOk result (IsOfferedFrom (rows_of orders.now.lists.items) table.now no from to touches.new.all.items) }
    ensures touched { OnOk result (HasTouched table.now touches.old.all.items touches.new.all.items) }
{
    let apexes = orders.list(0).items();
    for k in from..to {
        let apex = apexes[k];
        let w = orders.octant_of(orders.spot_at(k, apex), spot);
        touches.offer(orders, table, apex, w, no, ranks[w as usize % 4])?;
    }
    Ok(())
}

/// Offers a number to all members, each in the octant that it is in.
fn offer_to_all(
    orders: &Orders,
    table: &Table,
    touches: &mut Touches,
    no: u32,
) -> Result<(), NoMemory>
    requires rows { AreRows (rows_of orders.now.lists.items) }
    requires parted { AreParted (rows_of orders.now.lists.items) }
    requires members { HaveSlots (rows_of orders.now.lists.items) (length table.now) }
    requires alike { AreAlike (rows_of orders.now.lists.items) }
    requires small { length table.now < 2 ^ 32 }
    ensures offered { OnOk result (IsOfferedAround (rows_of orders.now.lists.items) table.now no touches.new.all.items) }
    ensures touched { OnOk result (HasTouched table.now touches.old.all.items touches.new.all.items) }
{
    // A number that isn't a member is in no octant.
    let Some(place) = orders.place_in(0, no) else {
        return Ok(());
    };
    let place = place as usize;
    let spot = orders.spot_at(place, no);
    let ranks = orders.ranks(no);
    let end = orders.list(0).items().len();
    // In the first order it lies on one side of all apexes before it, and on the other side of all others.
    offer_from(orders, table, touches, no, spot, ranks, 0, place)?;
    offer_from(orders, table, touches, no, spot, ranks, place, end)?;
    Ok(())
}

/// Notes what a number that enters can have changed.
fn note_entering(
    orders: &Orders,
    table: &Table,
    touches: &mut Touches,
    no: u32,
) -> Result<(), NoMemory>
    requires rows { AreRows (rows_of orders.now.lists.items) }
    requires parted { AreParted (rows_of orders.now.lists.items) }
    requires members { HaveSlots (rows_of orders.now.lists.items) (length table.now) }
    requires alike { AreAlike (rows_of orders.now.lists.items) }
    requires small { length table.now < 2 ^ 32 }
    requires slot { 8 * no + 7 < length table.now }
    ensures looked_up { OnOk result (IsLookedUp no touches.new.all.items) }
    ensures offered { OnOk result (IsOfferedAround (rows_of orders.now.lists.items) table.now no touches.new.all.items) }
    ensures touched { OnOk result (HasTouched table.now touches.old.all.items touches.new.all.items) }
{
    offer_to_all(orders, table, touches, no)?;
    touches.add_apex(table, no)?;
    Ok(())
}

/// Notes what a number that leaves can have changed.
fn note_leaving(table: &Table, touches: &mut Touches, no: u32) -> Result<(), NoMemory>
    requires small { length table.now < 2 ^ 32 }
    requires slot { 8 * no + 7 < length table.now }
    ensures looked_up { OnOk result (IsLookedUp no touches.new.all.items) }
    ensures lost { OnOk result (IsLost table.now no touches.new.all.items) }
    ensures touched { OnOk result (HasTouched table.now touches.old.all.items touches.new.all.items) }
{
    touches.add_lost(table, no)?;
    touches.add_apex(table, no)?;
    Ok(())
}

/// Notes what the number of a mark can have changed.
pub fn note_mark(
    orders: &Orders,
    table: &Table,
    touches: &mut Touches,
    mark: Mark,
) -> Result<(), NoMemory>
    requires rows { AreRows (rows_of orders.now.lists.items) }
    requires parted { AreParted (rows_of orders.now.lists.items) }
    requires members { HaveSlots (rows_of orders.now.lists.items) (length table.now) }
    requires alike { AreAlike (rows_of orders.now.lists.items) }
    requires small { length table.now < 2 ^ 32 }
    requires slot { (i : ℕ) → IsNumberOf mark i → 8 * i + 7 < length table.now }
    ensures offered { OnOk result (IsMarkOffered mark (rows_of orders.now.lists.items) table.now touches.new.all.items) }
    ensures touched { OnOk result (HasTouched table.now touches.old.all.items touches.new.all.items) }
{
    match mark {
        Mark::Enters(no) => note_entering(orders, table, touches, no),
        Mark::Leaves(no) => note_leaving(table, touches, no),
        _ => Ok(()),
    }
}
