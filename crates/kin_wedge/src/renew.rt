//! Touched slots get their candidates.

ghost use Rattle.std.specs.Prelude.{◌≡◌, ℕ, ◌/◌, ◌%◌, ◌<◌, Option, Some, length, slice_get, slice_set, Contains, []};
ghost use Rattle.kin_motion.specs.Octants.{Octant as Bounds, octants};
ghost use Rattle.kin_wedge.specs.Rows.{AreAlike, AreRows, AreRanked, HaveSlots};
ghost use Rattle.kin_wedge.specs.Seen.{rows_of};
ghost use Rattle.kin_wedge.specs.Touched.{IsRenewed, IsOnItsWay, IsAnswered, offers_for};
ghost use Rattle.kin_wedge.specs.declared.touch.Touch.{Touch as Touched};

use crate::octant::orders_of;
use crate::orders::Orders;
use crate::table::Table;
use crate::touch::Touch;

/// Gives a touched slot its candidate after one offer.
pub fn renew(orders: &Orders, table: &mut Table, touch: Touch)
    requires rows { AreRows (rows_of orders.now.lists.items) }
    requires alike { AreAlike (rows_of orders.now.lists.items) }
    requires ranked { AreRanked (rows_of orders.now.lists.items) }
    requires members { HaveSlots (rows_of orders.now.lists.items) (length table.old) }
    requires slot { touch.slot < length table.old }
    ensures renewed { (o : Bounds) (old : Option ℕ) → slice_get octants (touch.slot % 8) ≡ Some o → slice_get table.old touch.slot ≡ Some old → (new : Option ℕ) × (table.new ≡ slice_set table.old touch.slot new) × IsRenewed (rows_of orders.now.lists.items) o (touch.slot / 8) old touch.offer new }
    ensures written { (new : Option ℕ) × (table.new ≡ slice_set table.old touch.slot new) }
    ensures length { length table.new ≡ length table.old }
{
    let around = orders_of(touch.slot % 8);
    let old = table.candidate(touch.slot);
    let new = orders.renewed(around, touch.slot / 8, old, touch.offer);
    if old != new {
        table.put(touch.slot, new);
    }
}

/// Gives all touched slots their candidates.
pub fn renew_all(orders: &Orders, table: &mut Table, touches: &[Touch])
    requires rows { AreRows (rows_of orders.now.lists.items) }
    requires alike { AreAlike (rows_of orders.now.lists.items) }
    requires ranked { AreRanked (rows_of orders.now.lists.items) }
    requires members { HaveSlots (rows_of orders.now.lists.items) (length table.old) }
    requires slots { (t : Touched) → Contains touches.now t → t.slot < length table.old }
    ensures answered { (slot : ℕ) (o : Bounds) → slice_get octants (slot % 8) ≡ Some o → IsOnItsWay (rows_of orders.now.lists.items) o slot table.old (offers_for slot touches.now) → IsAnswered (rows_of orders.now.lists.items) o slot table.new }
    ensures kept { (slot : ℕ) → offers_for slot touches.now ≡ [] → slice_get table.new slot ≡ slice_get table.old slot }
    ensures length { length table.new ≡ length table.old }
{
    for touch in touches {
        renew(orders, table, *touch);
    }
}
