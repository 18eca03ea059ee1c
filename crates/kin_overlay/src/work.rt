//! The buffers of builds and repairs.

ghost use Rattle.std.specs.Prelude.{◌≡◌, []};

use crate::edit::ChainEdit;
use crate::list::BreakpointList;
use crate::merge::Drawing;
use crate::notes::Pad;
use std::alloc::Global;
use std::marker::Model;
use std::mem::swap;

/// What a repair writes. One serves for many merges, one after another: what is in it doesn't matter,
/// so a contract sees nothing of it.
#[derive(Drop)]
pub struct Work {
    pub(crate) drawing: Drawing,
    /// The list that is made.
    pub(crate) list: BreakpointList,
    /// What is read again of a chain.
    pub(crate) points: Vec<u32>,
    /// A buffer for numbers.
    pub(crate) spare: Vec<u32>,
    /// The memory of notes that no merge needs now.
    pub(crate) notes: Pad,
    /// The memory of two lists of edits that no merge needs now: while a node makes its own, those of a
    /// half of it are in use.
    edits: Vec<ChainEdit>,
    more_edits: Vec<ChainEdit>,
}

impl Model for Work {
    ghost Value = { Unit {0} };

    ghost view = { λ w. tt };
}

impl Work {
    pub fn new(alloc: Global) -> Work {
        Work {
            drawing: Drawing::new(alloc),
            list: BreakpointList::new(alloc),
            points: Vec::new(alloc),
            spare: Vec::new(alloc),
            notes: Pad::none(),
            edits: Vec::new(alloc),
            more_edits: Vec::new(alloc),
        }
    }

    /// Gives an empty list of edits the memory of one that was given back, if it has none of its own.
    #[inline(always)]
    pub fn lend(&mut self, edits: &mut Vec<ChainEdit>)
        ensures { edits.new.items ≡ edits.old.items }
    {
        if edits.capacity() > 0 || !edits.is_empty() {
            return;
        }
        if self.edits.capacity() > 0 {
            self.edits.clear();
            swap(&mut self.edits, edits);
        } else {
            self.more_edits.clear();
            swap(&mut self.more_edits, edits);
        }
    }

    /// Empties a list of edits and takes its memory, if a place is free or has less. Then the list gets what was there.
    #[inline(always)]
    pub fn take_back(&mut self, edits: &mut Vec<ChainEdit>)
        ensures { edits.new.items ≡ [] }
    {
        if edits.is_empty() && edits.capacity() == 0 {
            return;
        }
        edits.clear();
        if self.edits.capacity() == 0 {
            self.edits.clear();
            swap(&mut self.edits, edits);
        } else if self.more_edits.capacity() < edits.capacity() {
            self.more_edits.clear();
            swap(&mut self.more_edits, edits);
        }
    }

    /// Takes the memory of a list of edits back where the list is empty.
    pub fn reclaim(&mut self, edits: &mut Vec<ChainEdit>)
        ensures { edits.new.items ≡ edits.old.items }
    {
        if edits.is_empty() {
            self.take_back(edits);
        }
    }
}
