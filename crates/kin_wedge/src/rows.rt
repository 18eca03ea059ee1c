//! The rows of the eight orders as they were before a settle follow the exchanges.

ghost use Rattle.std.specs.Prelude.{◌≡◌, ℕ, suc, ◌+◌, ◌*◌, ◌^◌, ◌<◌, ◌≤◌, Some, [], true, length, slice_get, IfOk, OnOk};
ghost use Rattle.kin_motion.specs.Numbers.{is_in, IsOnce};
ghost use Rattle.kin_motion.specs.Sets.{AreDistinct};
ghost use Rattle.kin_list.specs.declared.mark.Mark.TheVariants.{Rest};
ghost use Rattle.kin_list.specs.Listing.{staying, lasting, without};
ghost use Rattle.kin_list.specs.Rows.{exchange, exchanged};
ghost use Rattle.kin_wedge.specs.Parts.{swaps_of, AreQuiet};
ghost use Rattle.kin_wedge.specs.Passages.{AreAllLookedUp, AreExchangesOffered, AreVacantRows};
ghost use Rattle.kin_wedge.specs.Rows.{row_of, AreAlike, AreRows, HaveSlots, WereExchanged};
ghost use Rattle.kin_wedge.specs.Seen.{rows_of};
ghost use Rattle.kin_wedge.specs.Sides.{AreParted};
ghost use Rattle.kin_wedge.specs.Touched.{HasTouched, HasOfferedBoth};

use crate::orders::Orders;
use crate::push::push;
use crate::table::Table;
use crate::touch::Touches;
use kin_list::{KinList, Mark};
use kin_num::memory::NoMemory;
use std::alloc::Global;
use std::marker::Model;

/// More exchanges than this many for each member count as many. An exchange takes about as long as the look-up of a slot
/// where few are near, so eight would do for most points; a look-up may also go over all members.
const MANY: usize = 64;

/// Whether a list is as it was before it settled.
fn stands_still(mark: Mark, list: &KinList) -> bool
    ensures { result ≡ true → (mark ≡ Rest) × (list.now.swaps ≡ []) }
{
    match mark {
        Mark::Rest => list.swaps().is_empty(),
        _ => false,
    }
}

/// Makes one exchange in a row, and notes the slots that it can have touched.
fn follow_one(
    row: &mut Vec<u32>,
    part: u32,
    place: u32,
    orders: &Orders,
    table: &Table,
    touches: &mut Touches,
) -> Result<(), NoMemory>
    requires rows { AreRows (rows_of orders.now.lists.items) }
    requires parted { AreParted (rows_of orders.now.lists.items) }
    requires alike { AreAlike (rows_of orders.now.lists.items) }
    requires members { HaveSlots (rows_of orders.now.lists.items) (length table.now) }
    requires part { part < 8 }
    requires still_there { (x : ℕ) → is_in x row.old.items ≡ true → is_in x (row_of (rows_of orders.now.lists.items) 0) ≡ true }
    requires once { IsOnce row.old.items }
    requires small { length table.now < 2 ^ 32 }
    ensures row { OnOk result (row.new.items ≡ exchange place row.old.items) }
    ensures offered { OnOk result ((a b : ℕ) → slice_get row.old.items place ≡ Some a → slice_get row.old.items (suc place) ≡ Some b → HasOfferedBoth (rows_of orders.now.lists.items) table.now part a b touches.new.all.items) }
    ensures touched { OnOk result (HasTouched table.now touches.old.all.items touches.new.all.items) }
{
    let place = place as usize;
    if place + 1 >= row.len() {
        return Ok(());
    }
    touches.add_exchange(orders, table, part, row[place], row[place + 1])?;
    row.swap(place, place + 1);
    Ok(())
}

/// Makes the exchanges of one list in its row.
pub fn follow_row(
    row: &mut Vec<u32>,
    part: u32,
    swaps: &[u32],
    orders: &Orders,
    table: &Table,
    touches: &mut Touches,
) -> Result<(), NoMemory>
    requires rows { AreRows (rows_of orders.now.lists.items) }
    requires parted { AreParted (rows_of orders.now.lists.items) }
    requires alike { AreAlike (rows_of orders.now.lists.items) }
    requires members { HaveSlots (rows_of orders.now.lists.items) (length table.now) }
    requires part { part < 8 }
    requires still_there { (x : ℕ) → is_in x row.old.items ≡ true → is_in x (row_of (rows_of orders.now.lists.items) 0) ≡ true }
    requires once { IsOnce row.old.items }
    requires small { length table.now < 2 ^ 32 }
    ensures row { OnOk result (row.new.items ≡ exchanged swaps.now row.old.items) }
    ensures offered { OnOk result ((a b : ℕ) → WereExchanged swaps.now row.old.items a b → HasOfferedBoth (rows_of orders.now.lists.items) table.now part a b touches.new.all.items) }
    ensures touched { OnOk result (HasTouched table.now touches.old.all.items touches.new.all.items) }
{
    for place in swaps {
        follow_one(row, part, *place, orders, table, touches)?;
    }
    Ok(())
}

/// The numbers of one order as they were before a settle.
#[derive(Drop)]
pub struct Row {
    numbers: Vec<u32>,
}

impl Model for Row {
    ghost use Rattle.std.specs.Prelude.{ℕ, List};

    ghost Value = { List ℕ };

    ghost view = { λ r. r.numbers.items };
}

impl Row {
    /// No numbers.
    fn new(alloc: Global) -> Row
        ensures { result ≡ [] }
    {
        Row {
            numbers: Vec::new(alloc),
        }
    }

    /// Takes out the number of a mark that leaves.
    fn let_go(&mut self, mark: Mark)
        ensures { self.new ≡ staying mark self.old }
    {
        if let Mark::Leaves(no) = mark {
            take_out(&mut self.numbers, no);
        }
    }

    /// Takes in the number of a mark that has entered a list, at its place there.
    fn take_in(&mut self, mark: Mark, list: &KinList) -> Result<(), NoMemory>
        requires once { AreDistinct list.now.items }
        requires others { self.old ≡ lasting mark list.now.items }
        ensures { OnOk result (self.new ≡ list.now.items) }
    {
        let Mark::Enters(no) = mark else {
            return Ok(());
        };
        let Some(place) = list.place_of(no) else {
            return Ok(());
        };
        let Ok(()) = self.numbers.insert(place as usize, no) else {
            return Err(NoMemory);
        };
        Ok(())
    }

    /// Becomes that of a list.
    fn copy(&mut self, list: &KinList) -> Result<(), NoMemory>
        ensures { OnOk result (self.new ≡ list.now.items) }
    {
        self.numbers.clear();
        self.numbers.extend_from_slice(list.items())?;
        Ok(())
    }

    /// Makes the exchanges of a list, and notes the slots that they can have touched, unless all slots are looked up anyway.
    fn follow(
        &mut self,
        is_looked_up: bool,
        mark: Mark,
        part: u32,
        list: &KinList,
        orders: &Orders,
        table: &Table,
        touches: &mut Touches,
    ) -> Result<(), NoMemory>
        requires looked_up { is_looked_up ≡ true → AreAllLookedUp (rows_of orders.now.lists.items) touches.old.all.items }
        requires rows { AreRows (rows_of orders.now.lists.items) }
        requires parted { AreParted (rows_of orders.now.lists.items) }
        requires alike { AreAlike (rows_of orders.now.lists.items) }
        requires members { HaveSlots (rows_of orders.now.lists.items) (length table.now) }
        requires part { part < 8 }
        requires list { list.now.items ≡ row_of (rows_of orders.now.lists.items) part }
        requires exchanges { exchanged list.now.swaps (staying mark self.old) ≡ lasting mark list.now.items }
        requires small { length table.now < 2 ^ 32 }
        ensures row { OnOk result (self.new ≡ list.now.items) }
        ensures offered { OnOk result ((a b : ℕ) → WereExchanged list.now.swaps (staying mark self.old) a b → HasOfferedBoth (rows_of orders.now.lists.items) table.now part a b touches.new.all.items) }
        ensures touched { OnOk result (HasTouched table.now touches.old.all.items touches.new.all.items) }
    {
        if is_looked_up {
            return self.copy(list);
        }
        self.let_go(mark);
        follow_row(
            &mut self.numbers,
            part,
            list.swaps(),
            orders,
            table,
            touches,
        )?;
        self.take_in(mark, list)
    }
}

/// Takes out a number.
fn take_out(row: &mut Vec<u32>, no: u32)
    ensures { row.new.items ≡ without no row.old.items }
{
    row.retain(|x| *x != no);
}

/// Notes all slots for a look-up where the lists of the parts from the first to before the second have made many exchanges,
/// and answers whether it has. That takes less than to follow them one by one, as where many points meet.
fn look_up_all(
    from: usize,
    end: usize,
    orders: &Orders,
    table: &Table,
    touches: &mut Touches,
) -> Result<bool, NoMemory>
    requires count { length orders.now.lists.items ≡ 8 }
    requires end { end ≤ 8 }
    requires members { HaveSlots (rows_of orders.now.lists.items) (length table.now) }
    requires small { length table.now < 2 ^ 32 }
    ensures all { IfOk result (λ is. is ≡ true → AreAllLookedUp (rows_of orders.now.lists.items) touches.new.all.items) }
    ensures touched { OnOk result (HasTouched table.now touches.old.all.items touches.new.all.items) }
{
    let mut exchanges = 0_usize;
    for part in from..end {
        exchanges = exchanges.saturating_add(orders.list(part as u32).swaps().len());
    }
    if exchanges / MANY <= orders.list(0).items().len() {
        return Ok(false);
    }
    touches.add_all(orders, table)?;
    Ok(true)
}

/// The rows of the eight orders as they were before a settle.
#[derive(Drop)]
pub struct Rows {
    rows: Vec<Row>,
}

impl Rows {
    /// Eight empty rows.
    pub fn new(alloc: Global) -> Result<Rows, NoMemory>
        ensures { IfOk result (λ r. AreVacantRows r.rows.items) }
    {
        let mut rows = Vec::new(alloc);
        for part in 0..8u32 {
            let _ = part;
            push(&mut rows, Row::new(alloc))?;
        }
        Ok(Rows { rows })
    }

    /// Brings all rows to the orders as they are now, and notes the slots that their exchanges can
    /// have touched.
    pub fn follow(
        &mut self,
        mark: Mark,
        orders: &Orders,
        table: &Table,
        touches: &mut Touches,
    ) -> Result<(), NoMemory>
        requires orders { AreRows (rows_of orders.now.lists.items) }
        requires parted { AreParted (rows_of orders.now.lists.items) }
        requires alike { AreAlike (rows_of orders.now.lists.items) }
        requires members { HaveSlots (rows_of orders.now.lists.items) (length table.now) }
        requires count { length orders.now.lists.items ≡ 8 }
        requires rows { length self.old.rows.items ≡ 8 }
        requires quiet { AreQuiet mark orders.now.mail.boxes.items orders.now.lists.items }
        requires exchanges { (part : ℕ) → exchanged (row_of (swaps_of orders.now.lists.items) part) (staying mark (row_of self.old.rows.items part)) ≡ lasting mark (row_of (rows_of orders.now.lists.items) part) }
        requires small { length table.now < 2 ^ 32 }
        ensures rows { OnOk result (self.new.rows.items ≡ rows_of orders.now.lists.items) }
        ensures offered { OnOk result (AreExchangesOffered mark (swaps_of orders.now.lists.items) self.old.rows.items (rows_of orders.now.lists.items) table.now touches.new.all.items) }
        ensures touched { OnOk result (HasTouched table.now touches.old.all.items touches.new.all.items) }
    {
        let (from, end) = orders.span(mark);
        let is_looked_up = look_up_all(from, end, orders, table, touches)?;
        for part in from..end {
            let part = part as u32;
            let list = orders.list(part);
            if !stands_still(mark, list) {
                let row = &mut self.rows[part as usize];
                row.follow(is_looked_up, mark, part, list, orders, table, touches)?;
            }
        }
        Ok(())
    }
}
