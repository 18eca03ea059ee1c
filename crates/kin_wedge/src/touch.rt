//! Slots whose candidate may change.

ghost use Rattle.std.specs.Prelude.{◌≡◌, ◌≢◌, ℕ, ◌+◌, ◌*◌, ◌%◌, ◌<◌, ◌≤◌, ◌^◌, [], Option, Some, None, true, length, slice_get, OnOk};
ghost use Rattle.kin_motion.specs.Records.{stands_before};
ghost use Rattle.kin_motion.specs.Octants.{Octant as Bounds, octants};
ghost use Rattle.kin_motion.specs.Numbers.{is_in};
ghost use Rattle.kin_wedge.specs.Passages.{AreAllLookedUp};
ghost use Rattle.kin_wedge.specs.Rows.{row_of, is_in_wedge, AreAlike, AreRows, HaveSlots};
ghost use Rattle.kin_wedge.specs.Seen.{reading_seen, rows_of};
ghost use Rattle.kin_wedge.specs.Sides.{AreParted};
ghost use Rattle.kin_wedge.specs.Touched.{AreLeft, IsOffered, IsOfferedIn, IsOfferedWithin, ComesFirst, HasTouched, HasOfferedBoth};

use crate::octant::{Reading, back, bounded_by, forward, orders_of};
use crate::offer::leads;
use crate::orders::Orders;
use crate::table::Table;
use kin_num::memory::NoMemory;
use std::alloc::Global;

/// A slot whose candidate may change, with the candidate that it had.
#[derive(Clone, Copy, Debug)]
pub struct Touch {
    pub slot: u32,
    pub old: Option<u32>,
    /// The number that may be the new candidate, or `None` where it has to be looked up.
    pub offer: Option<u32>,
}

/// The touched slots of one settle.
#[derive(Drop)]
pub struct Touches {
    all: Vec<Touch>,
}

impl Touches {
    pub fn new(alloc: Global) -> Touches
        ensures { result.all.items ≡ [] }
    {
        Touches {
            all: Vec::new(alloc),
        }
    }

    pub fn clear(&mut self)
        ensures { self.new.all.items ≡ [] }
    {
        self.all.clear();
    }

    pub fn all(&self) -> &[Touch]
        ensures { result.now ≡ self.now.all.items }
    {
        &self.all
    }

    /// Touches the slot of an apex and an octant.
    pub fn add(
        &mut self,
        table: &Table,
        apex: u32,
        w: u32,
        offer: Option<u32>,
    ) -> Result<(), NoMemory>
        requires slot { 8 * apex + w < length table.now }
        requires small { length table.now < 2 ^ 32 }
        ensures offered { OnOk result (IsOffered self.new.all.items (8 * apex + w) offer) }
        ensures touched { OnOk result (HasTouched table.now self.old.all.items self.new.all.items) }
    {
        let slot = 8 * apex + w;
        let old = table.candidate(slot);
        // Room comes before what it is for, so that the touch is written in its place.
        self.all.reserve(1)?;
        self.all.push_reserved(Touch { slot, old, offer });
        Ok(())
    }

    /// Offers a number to the slot of an apex and an octant, where that is asked for.
    pub fn add_if(
        &mut self,
        is_wanted: bool,
        table: &Table,
        apex: u32,
        w: u32,
        no: u32,
    ) -> Result<(), NoMemory>
        requires slot { 8 * apex + w < length table.now }
        requires small { length table.now < 2 ^ 32 }
        ensures offered { OnOk result (is_wanted ≡ true → IsOffered self.new.all.items (8 * apex + w) (Some no)) }
        ensures touched { OnOk result (HasTouched table.now self.old.all.items self.new.all.items) }
    {
        if is_wanted {
            self.add(table, apex, w, Some(no))
        } else {
            Ok(())
        }
    }

    /// Notes all slots of an apex for a look-up.
    pub fn add_apex(&mut self, table: &Table, apex: u32) -> Result<(), NoMemory>
        requires slot { 8 * apex + 7 < length table.now }
        requires small { length table.now < 2 ^ 32 }
        ensures offered { OnOk result ((w : ℕ) → w < 8 → IsOffered self.new.all.items (8 * apex + w) None) }
        ensures touched { OnOk result (HasTouched table.now self.old.all.items self.new.all.items) }
    {
        for w in 0..8 {
            self.add(table, apex, w, None)?;
        }
        Ok(())
    }

    /// Notes all slots of all members for a look-up.
    pub fn add_all(&mut self, orders: &Orders, table: &Table) -> Result<(), NoMemory>
        requires count { 0 < length orders.now.lists.items }
        requires members { HaveSlots (rows_of orders.now.lists.items) (length table.now) }
        requires small { length table.now < 2 ^ 32 }
        ensures all { OnOk result (AreAllLookedUp (rows_of orders.now.lists.items) self.new.all.items) }
        ensures touched { OnOk result (HasTouched table.now self.old.all.items self.new.all.items) }
    {
        for apex in orders.list(0).items() {
            self.add_apex(table, *apex)?;
        }
        Ok(())
    }

    /// Notes the slots of an octant whose candidate a number is for a look-up.
    fn add_lost_in(&mut self, table: &Table, w: u32, no: u32) -> Result<(), NoMemory>
        requires octant { w < 8 }
        requires small { length table.now < 2 ^ 32 }
        ensures offered { OnOk result ((apex : ℕ) → slice_get table.now (8 * apex + w) ≡ Some (Some no) → IsOffered self.new.all.items (8 * apex + w) None) }
        ensures touched { OnOk result (HasTouched table.now self.old.all.items self.new.all.items) }
    {
        for apex in table.hits(no, w) {
            self.add(table, apex, w, None)?;
        }
        Ok(())
    }

    /// Notes all slots whose candidate a number is for a look-up.
    pub fn add_lost(&mut self, table: &Table, no: u32) -> Result<(), NoMemory>
        requires small { length table.now < 2 ^ 32 }
        ensures offered { OnOk result ((slot : ℕ) → slice_get table.now slot ≡ Some (Some no) → IsOffered self.new.all.items slot None) }
        ensures touched { OnOk result (HasTouched table.now self.old.all.items self.new.all.items) }
    {
        for w in 0..8 {
            self.add_lost_in(table, w, no)?;
        }
        Ok(())
    }

    /// Offers a member to the slots of an octant whose candidate another is and that it is in.
    #[inline(always)]
    fn offer_in(
        &mut self,
        orders: &Orders,
        table: &Table,
        w: u32,
        of: u32,
        no: u32,
    ) -> Result<(), NoMemory>
        requires rows { AreRows (rows_of orders.now.lists.items) }
        requires alike { AreAlike (rows_of orders.now.lists.items) }
        requires member { is_in no (row_of (rows_of orders.now.lists.items) 0) ≡ true }
        requires octant { w < 8 }
        requires small { length table.now < 2 ^ 32 }
        ensures offered { OnOk result (IsOfferedIn (rows_of orders.now.lists.items) table.now self.new.all.items w of no) }
        ensures touched { OnOk result (HasTouched table.now self.old.all.items self.new.all.items) }
    {
        let octant = orders_of(w);
        for apex in table.hits(of, w) {
            let wanted = orders.has_member(octant, apex, no);
            self.add_if(wanted, table, apex, w, no)?;
        }
        Ok(())
    }

    /// Offers two members to the slots whose candidate the other is, in the octants that an order ranks. The
    /// second comes after the first in the order.
    #[inline(always)]
    fn offer_past(
        &mut self,
        orders: &Orders,
        table: &Table,
        part: u32,
        first: u32,
        second: u32,
    ) -> Result<(), NoMemory>
        requires rows { AreRows (rows_of orders.now.lists.items) }
        requires alike { AreAlike (rows_of orders.now.lists.items) }
        requires low { 4 ≤ part }
        requires high { part < 8 }
        requires behind { stands_before (row_of (rows_of orders.now.lists.items) part) first second ≡ true }
        requires small { length table.now < 2 ^ 32 }
        ensures offered { OnOk result (HasOfferedBoth (rows_of orders.now.lists.items) table.now part first second self.new.all.items) }
        ensures touched { OnOk result (HasTouched table.now self.old.all.items self.new.all.items) }
    {
        // Of the two octants that the order ranks, one reads it forward and one backward.
        self.offer_in(orders, table, part - 4, second, first)?;
        self.offer_in(orders, table, part, first, second)?;
        Ok(())
    }

    /// Offers a member to an octant of an apex, where no candidate comes before it. It is in no other octant of
    /// the apex, and has this place in the order that ranks this one.
    #[inline(always)]
    pub fn offer(
        &mut self,
        orders: &Orders,
        table: &Table,
        apex: u32,
        w: u32,
        no: u32,
        rank: usize,
    ) -> Result<(), NoMemory>
        requires rows { AreRows (rows_of orders.now.lists.items) }
        requires octant { w < 8 }
        requires there { (v : ℕ) (o : Bounds) → slice_get octants v ≡ Some o → is_in_wedge (rows_of orders.now.lists.items) o apex no ≡ true → w ≡ v }
        requires rank { slice_get (row_of (rows_of orders.now.lists.items) (w % 4 + 4)) rank ≡ Some no }
        requires slot { 8 * apex + 7 < length table.now }
        requires small { length table.now < 2 ^ 32 }
        ensures offered { OnOk result ((v : ℕ) (o : Bounds) → slice_get octants v ≡ Some o → ComesFirst (rows_of orders.now.lists.items) table.now o apex v no → IsOffered self.new.all.items (8 * apex + v) (Some no)) }
        ensures touched { OnOk result (HasTouched table.now self.old.all.items self.new.all.items) }
    {
        let wanted = leads(orders, table, apex, w, rank);
        self.add_if(wanted, table, apex, w, no)?;
        Ok(())
    }

    /// Notes a slot of an apex for a look-up, if a number was the candidate there.
    #[inline(always)]
    fn leave(&mut self, table: &Table, apex: u32, w: u32, no: u32) -> Result<(), NoMemory>
        requires slot { 8 * apex + w < length table.now }
        requires small { length table.now < 2 ^ 32 }
        ensures offered { OnOk result (slice_get table.now (8 * apex + w) ≡ Some (Some no) → IsOffered self.new.all.items (8 * apex + w) None) }
        ensures touched { OnOk result (HasTouched table.now self.old.all.items self.new.all.items) }
    {
        if table.holds(8 * apex + w, no) {
            self.add(table, apex, w, None)
        } else {
            Ok(())
        }
    }

    /// Notes the slots of an apex whose candidate a number was for a look-up, in the octants that an order as it
    /// is read bounds.
    #[inline(always)]
    fn leave_both(
        &mut self,
        reading: Reading,
        table: &Table,
        apex: u32,
        no: u32,
    ) -> Result<(), NoMemory>
        requires part { reading.part < 4 }
        requires slot { 8 * apex + 7 < length table.now }
        requires small { length table.now < 2 ^ 32 }
        ensures left { OnOk result (AreLeft table.now self.new.all.items (reading_seen reading) apex no) }
        ensures touched { OnOk result (HasTouched table.now self.old.all.items self.new.all.items) }
    {
        let (first, second) = bounded_by(reading);
        self.leave(table, apex, first, no)?;
        self.leave(table, apex, second, no)?;
        Ok(())
    }

    /// Offers two members to each other's slots in the octants that an order bounds and that they are in now.
    /// The second comes after the first in the order.
    #[inline(always)]
    fn offer_within(
        &mut self,
        orders: &Orders,
        table: &Table,
        part: u32,
        first: u32,
        second: u32,
    ) -> Result<(), NoMemory>
        requires part { part < 4 }
        requires behind { stands_before (row_of (rows_of orders.now.lists.items) part) first second ≡ true }
        requires rows { AreRows (rows_of orders.now.lists.items) }
        requires parted { AreParted (rows_of orders.now.lists.items) }
        requires alike { AreAlike (rows_of orders.now.lists.items) }
        requires members { HaveSlots (rows_of orders.now.lists.items) (length table.now) }
        requires small { length table.now < 2 ^ 32 }
        ensures first { OnOk result (IsOfferedWithin (rows_of orders.now.lists.items) table.now self.new.all.items part first second) }
        ensures second { OnOk result (IsOfferedWithin (rows_of orders.now.lists.items) table.now self.new.all.items part second first) }
        ensures touched { OnOk result (HasTouched table.now self.old.all.items self.new.all.items) }
    {
        let Some(w) = orders.octant_behind(part, first, second) else {
            return Ok(());
        };
        let rank = orders.place_of_member(w % 4 + 4, second);
        self.offer(orders, table, first, w, second, rank)?;
        // Around the second the first is in the opposite octant.
        let v = (w + 4) % 8;
        let rank = orders.place_of_member(v % 4 + 4, first);
        self.offer(orders, table, second, v, first, rank)?;
        Ok(())
    }

    /// Offers two members to each other's slots that they enter by an exchange in an order that bounds octants,
    /// and notes those that they leave for a look-up. The second comes after the first in the order.
    fn offer_across(
        &mut self,
        orders: &Orders,
        table: &Table,
        part: u32,
        first: u32,
        second: u32,
    ) -> Result<(), NoMemory>
        requires part { part < 4 }
        requires behind { stands_before (row_of (rows_of orders.now.lists.items) part) first second ≡ true }
        requires rows { AreRows (rows_of orders.now.lists.items) }
        requires parted { AreParted (rows_of orders.now.lists.items) }
        requires alike { AreAlike (rows_of orders.now.lists.items) }
        requires members { HaveSlots (rows_of orders.now.lists.items) (length table.now) }
        requires small { length table.now < 2 ^ 32 }
        ensures offered { OnOk result (HasOfferedBoth (rows_of orders.now.lists.items) table.now part first second self.new.all.items) }
        ensures touched { OnOk result (HasTouched table.now self.old.all.items self.new.all.items) }
    {
        self.offer_within(orders, table, part, first, second)?;
        // An octant that one of them has left reads the order the other way.
        self.leave_both(back(part), table, first, second)?;
        self.leave_both(forward(part), table, second, first)?;
        Ok(())
    }

    /// Offers the two members of an exchange in an order: each to the other's slots, if the order
    /// bounds octants, or else to the slots whose candidate the other is in the octants that it ranks.
    pub fn add_exchange(
        &mut self,
        orders: &Orders,
        table: &Table,
        part: u32,
        a: u32,
        b: u32,
    ) -> Result<(), NoMemory>
        requires rows { AreRows (rows_of orders.now.lists.items) }
        requires parted { AreParted (rows_of orders.now.lists.items) }
        requires alike { AreAlike (rows_of orders.now.lists.items) }
        requires members { HaveSlots (rows_of orders.now.lists.items) (length table.now) }
        requires a { is_in a (row_of (rows_of orders.now.lists.items) 0) ≡ true }
        requires b { is_in b (row_of (rows_of orders.now.lists.items) 0) ≡ true }
        requires apart { a ≢ b }
        requires part { part < 8 }
        requires small { length table.now < 2 ^ 32 }
        ensures offered { OnOk result (HasOfferedBoth (rows_of orders.now.lists.items) table.now part a b self.new.all.items) }
        ensures touched { OnOk result (HasTouched table.now self.old.all.items self.new.all.items) }
    {
        let (first, second) = orders.as_they_stand(part, a, b);
        if part < 4 {
            self.offer_across(orders, table, part, first, second)
        } else {
            self.offer_past(orders, table, part, first, second)
        }
    }
}
