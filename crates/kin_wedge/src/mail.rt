//! The failed facts of each list.

ghost use Rattle.std.specs.Prelude.{◌≡◌, ℕ, ◌<◌, ◌≤◌, [], ◌∷◌, ◌++◌, cond, filter, map, length, IfOk, OnOk};
ghost use Rattle.kin_wedge.specs.Parts.{in_part, is_of_part, told_to};

use crate::push::push;
use kin_motion::{Letters, Placed};
use kin_num::memory::NoMemory;
use std::alloc::Global;
use std::marker::Model;

/// The failed facts of each list of a structure. The memory is kept from settle to settle.
#[derive(Drop)]
pub struct Mail {
    boxes: Vec<Letters>,
    /// All lists that have failed facts are of the parts from this one on,
    from: usize,
    /// and before this one.
    end: usize,
    ghost from_within: { from ≤ length boxes.items },
    ghost end_within: { end ≤ length boxes.items },
    ghost before: { (part : ℕ) → part < from → told_to boxes.items part ≡ [] },
    ghost behind: { (part : ℕ) → end ≤ part → told_to boxes.items part ≡ [] },
}

impl Mail {
    /// No failed facts, for `count` lists.
    pub fn new(alloc: Global, count: u32) -> Result<Mail, NoMemory>
        ensures { IfOk result (λ m. length m.boxes.items ≡ count) }
    {
        let mut boxes = Vec::new(alloc);
        for part in 0..count {
            let _ = part;
            push(&mut boxes, Letters::new(alloc))?;
        }
        let end = boxes.len();
        Ok(Mail {
            boxes,
            from: 0,
            end,
        })
    }

    fn clear(&mut self)
        ensures cleared { (part : ℕ) → told_to self.new.boxes.items part ≡ [] }
        ensures count { length self.new.boxes.items ≡ length self.old.boxes.items }
    {
        for part in self.from..self.end {
            self.boxes[part].clear();
        }
        self.from = self.boxes.len();
        self.end = 0;
    }

    /// Gives a fact to the list of its part, if there is one.
    fn tell(&mut self, placed: &Placed) -> Result<(), NoMemory>
        ensures told { OnOk result ((part : ℕ) → part < length self.old.boxes.items → told_to self.new.boxes.items part ≡ cond (is_of_part part placed.now) (told_to self.old.boxes.items part ++ in_part 0 placed.now ∷ []) (told_to self.old.boxes.items part)) }
        ensures count { length self.new.boxes.items ≡ length self.old.boxes.items }
    {
        let part = placed.part as usize;
        if part >= self.boxes.len() {
            return Ok(());
        }
        self.from = self.from.min(part);
        self.end = self.end.max(part + 1);
        self.boxes[part].add(0, &placed.fact)
    }

    /// Sorts failed facts: each list gets those of its part.
    pub fn sort(&mut self, failed: &[Placed]) -> Result<(), NoMemory>
        ensures told { OnOk result ((part : ℕ) → part < length self.old.boxes.items → told_to self.new.boxes.items part ≡ map (in_part 0) (filter (is_of_part part) failed.now)) }
        ensures count { length self.new.boxes.items ≡ length self.old.boxes.items }
    {
        self.clear();
        for placed in failed {
            self.tell(placed)?;
        }
        Ok(())
    }

    /// From the first of these parts to before the second: no other list has a failed fact.
    pub(crate) fn span(&self) -> (usize, usize)
        ensures from { result.0 ≤ length self.now.boxes.items }
        ensures end { result.1 ≤ length self.now.boxes.items }
        ensures before { (part : ℕ) → part < result.0 → told_to self.now.boxes.items part ≡ [] }
        ensures behind { (part : ℕ) → result.1 ≤ part → told_to self.now.boxes.items part ≡ [] }
    {
        (self.from, self.end)
    }

    /// The failed facts of the list of a part.
    pub fn told(&self, part: u32) -> &[Placed]
        requires { part < length self.now.boxes.items }
        ensures { result.now ≡ told_to self.now.boxes.items part }
    {
        self.boxes[part as usize].facts()
    }
}
