//! The candidates follow the orders.

ghost use Rattle.std.specs.Prelude.{◌≡◌, ℕ, ◌+◌, ◌*◌, ◌<◌, ◌≤◌, ◌^◌, [], None, true, length, replicate, Contains, IfOk, OnOk};
ghost use Rattle.kin_wedge.specs.Parts.{swaps_of, AreQuiet};
ghost use Rattle.kin_wedge.specs.Passages.{AreAnswered, AreChanged, AreExchangesOffered, AreVacantRows, IsMarkOffered, IsNumberOf, IsPassage, changed_slots};
ghost use Rattle.kin_wedge.specs.Rows.{AreAlike, AreRows, AreRanked, HaveSlots};
ghost use Rattle.kin_wedge.specs.Seen.{rows_of};
ghost use Rattle.kin_wedge.specs.Sides.{AreParted};
ghost use Rattle.kin_wedge.specs.Touched.{AreKnown};
ghost use Rattle.kin_wedge.specs.declared.touch.Touch.{Touch as Touched};

use crate::around::note_mark;
use crate::changed::list_changed;
use crate::orders::Orders;
use crate::renew::renew_all;
use crate::rows::Rows;
use crate::table::{Table, new_table};
use crate::touch::Touches;
use kin_list::Mark;
use kin_num::memory::NoMemory;
use std::alloc::Global;

/// The candidates, with what it takes to follow the orders.
#[derive(Drop)]
pub struct Candidates {
    pub(crate) table: Table,
    pub(crate) rows: Rows,
    /// The slots that the last settle can have touched, with the candidates that they had before it.
    pub(crate) touches: Touches,
    ghost touched: { (t : Touched) → Contains touches.all.items t → t.slot < length table },
}

/// Notes the slots that a settle of the orders can have touched.
fn note(
    rows: &mut Rows,
    touches: &mut Touches,
    table: &Table,
    mark: Mark,
    orders: &Orders,
) -> Result<(), NoMemory>
    requires rows { AreRows (rows_of orders.now.lists.items) }
    requires parted { AreParted (rows_of orders.now.lists.items) }
    requires alike { AreAlike (rows_of orders.now.lists.items) }
    requires members { HaveSlots (rows_of orders.now.lists.items) (length table.now) }
    requires old_rows { length rows.old.rows.items ≡ 8 }
    requires small { length table.now < 2 ^ 32 }
    requires quiet { AreQuiet mark orders.now.mail.boxes.items orders.now.lists.items }
    requires passage { IsPassage mark (swaps_of orders.now.lists.items) rows.old.rows.items (rows_of orders.now.lists.items) }
    requires slot { (i : ℕ) → IsNumberOf mark i → 8 * i + 7 < length table.now }
    ensures rows { OnOk result (rows.new.rows.items ≡ rows_of orders.now.lists.items) }
    ensures exchanges { OnOk result (AreExchangesOffered mark (swaps_of orders.now.lists.items) rows.old.rows.items (rows_of orders.now.lists.items) table.now touches.new.all.items) }
    ensures number { OnOk result (IsMarkOffered mark (rows_of orders.now.lists.items) table.now touches.new.all.items) }
    ensures known { OnOk result (AreKnown table.now touches.new.all.items) }
{
    touches.clear();
    rows.follow(mark, orders, table, touches)?;
    note_mark(orders, table, touches, mark)?;
    Ok(())
}

impl Candidates {
    /// No candidates, with eight slots for each number below `2^size`.
    pub fn new(alloc: Global, size: u32) -> Result<Candidates, NoMemory>
        requires { size ≤ 12 }
        ensures table { IfOk result (λ c. c.table ≡ replicate (8 * 2 ^ size) None) }
        ensures rows { IfOk result (λ c. AreVacantRows c.rows.rows.items) }
        ensures touches { IfOk result (λ c. c.touches.all.items ≡ []) }
    {
        Ok(Candidates {
            table: new_table(alloc, size)?,
            rows: Rows::new(alloc)?,
            touches: Touches::new(alloc),
        })
    }

    /// Brings the candidates to the orders as they are now. `mark` was set before they settled.
    pub fn follow(&mut self, mark: Mark, orders: &Orders) -> Result<(), NoMemory>
        requires rows { AreRows (rows_of orders.now.lists.items) }
        requires ranked { AreRanked (rows_of orders.now.lists.items) }
        requires parted { AreParted (rows_of orders.now.lists.items) }
        requires alike { AreAlike (rows_of orders.now.lists.items) }
        requires members { HaveSlots (rows_of orders.now.lists.items) (length self.old.table) }
        requires old_rows { length self.old.rows.rows.items ≡ 8 }
        requires small { length self.old.table < 2 ^ 32 }
        requires quiet { AreQuiet mark orders.now.mail.boxes.items orders.now.lists.items }
        requires passage { IsPassage mark (swaps_of orders.now.lists.items) self.old.rows.rows.items (rows_of orders.now.lists.items) }
        requires slot { (i : ℕ) → IsNumberOf mark i → 8 * i + 7 < length self.old.table }
        requires answered { AreAnswered self.old.rows.rows.items self.old.table }
        ensures rows { OnOk result (self.new.rows.rows.items ≡ rows_of orders.now.lists.items) }
        ensures answered { OnOk result (AreAnswered (rows_of orders.now.lists.items) self.new.table) }
        ensures changed { OnOk result (AreChanged self.old.table self.new.table (changed_slots self.new.table self.new.touches.all.items)) }
        ensures length { length self.new.table ≡ length self.old.table }
    {
        let Ok(()) = note(&mut self.rows, &mut self.touches, &self.table, mark, orders) else {
            self.touches.clear();
            return Err(NoMemory);
        };
        let touches = self.touches.all();
        renew_all(orders, &mut self.table, touches);
        Ok(())
    }

    /// Lists the slots whose candidate the last settle has changed, rising and each once.
    pub fn list_changed(&self, slots: &mut Vec<u32>) -> Result<(), NoMemory>
        ensures { OnOk result (slots.new.items ≡ changed_slots self.now.table self.now.touches.all.items) }
    {
        list_changed(&self.table, self.touches.all(), slots)
    }
}
