//! Slots that point at numbers.

ghost use Rattle.std.specs.Prelude.{◌≡◌, ℕ, ◌<◌, ◌≤◌, ◌^◌, ◌+◌, ◌++◌, ◌∷◌, [], Some, None, length, replicate, slice_get, slice_set, IfOk, OnOk, OnErr};
ghost use Rattle.kin_pointers.specs.Pointing.{AreSlotsOf, IsStruck, lists_of};

use kin_num::memory::NoMemory;
use std::alloc::Global;
use std::marker::Model;

/// A slot that points: at which number, and where in that number's list the slot is.
#[derive(Clone, Copy)]
pub struct Pointer {
    pub target: u32,
    pub place: u32,
}

/// Slots, each of which points at a number or at none.
#[derive(Drop)]
pub struct Pointers {
    alloc: Global,
    held: Vec<Option<Pointer>>,
    /// The slots that point at each number, in no order.
    lists: Vec<Vec<u32>>,
}

impl Model for Pointers {
    ghost use Rattle.std.specs.Prelude.{map};
    ghost use Rattle.kin_pointers.specs.Pointing.{Pointing, pointing, AreMutual, lists_of};

    ghost Value = { Pointing };

    ghost view = { λ p. pointing p.held.items (lists_of p.lists.items) };

    ghost invariant = { λ p. AreMutual p.held.items (lists_of p.lists.items) };
}

impl Pointers {
    /// No slots, over the numbers below `numbers`.
    pub fn new(alloc: Global, numbers: usize) -> Result<Pointers, NoMemory>
        ensures { IfOk result (λ p. p ≡ record { targets = []; numbers = numbers }) }
    {
        let lists = empty_lists(alloc, numbers)?;
        Ok(Pointers {
            alloc,
            held: Vec::new(alloc),
            lists,
        })
    }

    /// One more slot, which points at none. Its number is how many there were.
    pub fn add_slot(&mut self) -> Result<(), NoMemory>
        ensures ok { OnOk result (self.new ≡ record self.old { targets = self.old.targets ++ None ∷ [] }) }
        ensures err { OnErr result (self.new ≡ self.old) }
    {
        add_none(&mut self.held)?;
        Ok(())
    }

    /// One more number, at which no slot points.
    pub fn add_number(&mut self) -> Result<(), NoMemory>
        ensures ok { OnOk result (self.new ≡ record self.old { numbers = self.old.numbers + 1 }) }
        ensures err { OnErr result (self.new ≡ self.old) }
    {
        add_empty(&mut self.lists, self.alloc)?;
        Ok(())
    }

    /// How many slots there are.
    pub fn slots(&self) -> usize
        ensures { result ≡ length self.now.targets }
    {
        self.held.len()
    }

    /// How many numbers there are.
    pub fn numbers(&self) -> usize
        ensures { result ≡ self.now.numbers }
    {
        self.lists.len()
    }

    /// At which number a slot points.
    pub fn target(&self, slot: u32) -> Option<u32>
        requires { slot < length self.now.targets }
        ensures { slice_get self.now.targets slot ≡ Some result }
    {
        self.held[slot as usize].map(|p| p.target)
    }

    /// Lets a slot that points at none point at a number.
    pub fn point(&mut self, slot: u32, target: u32) -> Result<(), NoMemory>
        requires vacant { slice_get self.old.targets slot ≡ Some None }
        requires target { target < self.old.numbers }
        ensures ok { OnOk result (self.new ≡ record self.old { targets = slice_set self.old.targets slot (Some target) }) }
        ensures err { OnErr result (self.new ≡ self.old) }
    {
        let place = append(&mut self.lists[target as usize], slot)?;
        self.held[slot as usize] = Some(Pointer { target, place });
        Ok(())
    }

    /// Lets a slot point at none.
    pub fn release(&mut self, slot: u32)
        requires { slot < length self.old.targets }
        ensures { self.new ≡ record self.old { targets = slice_set self.old.targets slot None } }
    {
        if let Some(pointer) = self.held[slot as usize] {
            let moved = strike(&mut self.lists[pointer.target as usize], pointer.place);
            // The slot itself may be the last one of its list.
            self.held[moved as usize] = Some(pointer);
            self.held[slot as usize] = None;
        }
    }

    /// The slots that point at a number, in no order.
    pub fn slots_of(&self, number: u32) -> &[u32]
        requires { number < self.now.numbers }
        ensures { AreSlotsOf self.now number result.now }
    {
        &self.lists[number as usize]
    }
}

/// One more slot, which points at none.
fn add_none(held: &mut Vec<Option<Pointer>>) -> Result<(), NoMemory>
    ensures ok { OnOk result (held.new.items ≡ held.old.items ++ None ∷ []) }
    ensures err { OnErr result (held.new.items ≡ held.old.items) }
{
    held.push(None).map_err(|_| NoMemory)
}

/// One more list, which is empty.
fn add_empty(lists: &mut Vec<Vec<u32>>, alloc: Global) -> Result<(), NoMemory>
    ensures ok { OnOk result (lists_of lists.new.items ≡ lists_of lists.old.items ++ [] ∷ []) }
    ensures err { OnErr result (lists.new.items ≡ lists.old.items) }
{
    lists.push(Vec::new(alloc)).map_err(|_| NoMemory)
}

/// Empty lists, so many.
fn empty_lists(alloc: Global, count: usize) -> Result<Vec<Vec<u32>>, NoMemory>
    ensures { IfOk result (λ lists. lists_of lists.items ≡ replicate count []) }
{
    let mut lists = Vec::with_capacity(alloc, count)?;
    for number in 0..count {
        let _ = number;
        lists.push(Vec::new(alloc)).map_err(|_| NoMemory)?;
    }
    Ok(lists)
}

/// Puts an item after all others. Answers its place.
pub(crate) fn append(list: &mut Vec<u32>, item: u32) -> Result<u32, NoMemory>
    ensures ok { IfOk result (λ place. (place ≡ length list.old.items) × (list.new.items ≡ list.old.items ++ item ∷ [])) }
    ensures few { OnOk result (length list.new.items ≤ 2 ^ 32) }
    ensures err { OnErr result (list.new.items ≡ list.old.items) }
{
    let place = u32::try_from(list.len()).map_err(|_| NoMemory)?;
    list.push(item).map_err(|_| NoMemory)?;
    Ok(place)
}

/// Takes the item at a place out, and puts the last one there, which it answers.
pub(crate) fn strike(list: &mut Vec<u32>, place: u32) -> u32
    requires { place < length list.old.items }
    ensures { IsStruck list.old.items list.new.items place result }
{
    let last = list[list.len() - 1];
    list.swap_remove(place as usize);
    last
}
