//! What waits for the next `settle`.

ghost use Rattle.std.specs.Prelude.{◌≡◌, ◌↔◌, [], Some, false, length, slice_get, IsTrue, IfSome, IsNone, OnOk, OnErr};
ghost use Rattle.kin_motion.specs.Numbers.{is_in, IsOnce};
ghost use Rattle.kin_sorted.specs.Marks.{with_entering, with_leaving, without};
ghost use Rattle.kin_sorted.specs.Sorting.{unmarked};

use std::alloc::{AllocError, Global};
use std::marker::Model;

/// The slots of different items that wait to enter, and of those that wait to leave.
#[derive(Drop)]
pub struct Marks {
    entering: Vec<u32>,
    leaving: Vec<u32>,
}

impl Model for Marks {
    ghost use Rattle.kin_sorted.specs.Marks.{Marks as Marked};

    ghost Value = { Marked };

    ghost view = { λ m. record { entering = m.entering.items; leaving = m.leaving.items } };
}

/// The place of a slot in a list. A list of marks is short.
fn place_in(list: &[u32], slot: u32) -> Option<usize>
    ensures some { IfSome result (λ p. slice_get list.now p ≡ Some slot) }
    ensures none { IsNone result → is_in slot list.now ≡ false }
{
    for place in 0..list.len() {
        if list[place] == slot {
            return Some(place);
        }
    }
    None
}

/// Takes a slot out of a list, if it is there.
fn take_from(list: &mut Vec<u32>, slot: u32) -> bool
    requires { IsOnce list.old.items }
    ensures found { result ≡ is_in slot list.old.items }
    ensures taken { IsTrue result → list.new.items ≡ without slot list.old.items }
    ensures same { result ≡ false → list.new.items ≡ list.old.items }
{
    match place_in(list, slot) {
        Some(place) => {
            list.remove(place);
            true
        }
        None => false,
    }
}

impl Marks {
    pub fn new(alloc: Global) -> Marks
        ensures { result ≡ unmarked }
    {
        Marks {
            entering: Vec::new(alloc),
            leaving: Vec::new(alloc),
        }
    }

    #[inline(always)]
    pub fn is_empty(&self) -> bool
        ensures { IsTrue result ↔ (self.now ≡ unmarked) }
    {
        self.entering.is_empty() && self.leaving.is_empty()
    }

    pub fn entering(&self) -> &[u32]
        ensures { result.now ≡ self.now.entering }
    {
        &self.entering
    }

    pub fn leaving(&self) -> &[u32]
        ensures { result.now ≡ self.now.leaving }
    {
        &self.leaving
    }

    /// Marks an item as entering, or takes back that it leaves.
    pub fn enter(&mut self, slot: u32) -> Result<(), AllocError>
        requires { IsOnce self.old.leaving }
        ensures ok { OnOk result (self.new ≡ with_entering slot self.old) }
        ensures err { OnErr result (self.new ≡ self.old) }
    {
        if take_from(&mut self.leaving, slot) {
            return Ok(());
        }
        self.entering.push(slot)?;
        Ok(())
    }

    /// Marks an item as leaving, or takes back that it enters.
    pub fn leave(&mut self, slot: u32) -> Result<(), AllocError>
        requires { IsOnce self.old.entering }
        ensures ok { OnOk result (self.new ≡ with_leaving slot self.old) }
        ensures err { OnErr result (self.new ≡ self.old) }
    {
        if take_from(&mut self.entering, slot) {
            return Ok(());
        }
        self.leaving.push(slot)?;
        Ok(())
    }

    pub fn clear(&mut self)
        ensures { self.new ≡ unmarked }
    {
        self.entering.clear();
        self.leaving.clear();
    }
}
