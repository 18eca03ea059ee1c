//! The failed facts of each structure.

ghost use Rattle.std.specs.Prelude.{◌≡◌, ℕ, ◌<◌, ◌≤◌, [], ◌∷◌, ◌++◌, cond, length, OnOk};
ghost use Rattle.kin_cert.specs.Mails.{gathered, is_of, placed_of, told_to};

use kin_fail::owned::Owned;
use kin_motion::{Letters, Placed};
use kin_num::NoMemory;
use std::alloc::Global;
use std::marker::Model;

/// The failed facts of each structure, in a box each. The memory is kept from moment to moment.
#[derive(Drop)]
pub struct Mail {
    alloc: Global,
    boxes: Vec<Letters>,
}

impl Model for Mail {
    ghost use Rattle.std.specs.Prelude.{List};
    ghost use Rattle.kin_motion.specs.declared.fact.Placed.{Placed as Put};

    ghost Value = { List (List Put) };

    ghost view = { λ m. m.boxes.items };
}

impl Mail {
    /// No boxes.
    pub fn new(alloc: Global) -> Mail
        ensures { result ≡ [] }
    {
        Mail {
            alloc,
            boxes: Vec::new(alloc),
        }
    }

    // Takes all facts out.
    fn clear(&mut self)
        ensures { (k : ℕ) → told_to self.new k ≡ [] }
    {
        for k in 0..self.boxes.len() {
            self.boxes[k].clear();
        }
    }

    // Makes so many empty boxes at least.
    fn reach(&mut self, count: usize) -> Result<(), NoMemory>
        requires { (k : ℕ) → told_to self.old k ≡ [] }
        ensures empty { OnOk result ((k : ℕ) → told_to self.new k ≡ []) }
        ensures count { OnOk result (count ≤ length self.new) }
    {
        for _ in self.boxes.len()..count {
            let letters = Letters::new(self.alloc);
            self.boxes.push(letters).map_err(|_| NoMemory)?;
        }
        Ok(())
    }

    // Takes all facts out, and makes so many boxes at least.
    pub(crate) fn empty(&mut self, count: usize) -> Result<(), NoMemory>
        ensures empty { OnOk result ((k : ℕ) → told_to self.new k ≡ []) }
        ensures count { OnOk result (count ≤ length self.new) }
    {
        self.clear();
        self.reach(count)
    }

    // Puts a fact into the box of its structure, if there is one.
    #[inline(always)]
    pub(crate) fn tell(&mut self, owned: &Owned) -> Result<(), NoMemory>
        ensures told { OnOk result ((k : ℕ) → k < length self.old → told_to self.new k ≡ cond (is_of k owned.now) (told_to self.old k ++ placed_of owned.now ∷ []) (told_to self.old k)) }
        ensures count { length self.new ≡ length self.old }
    {
        let k = owned.structure as usize;
        if k >= self.boxes.len() {
            return Ok(());
        }
        self.boxes[k].add(owned.part, &owned.fact)
    }

    /// Sorts failed facts: each structure below `count` gets its own.
    pub fn sort(&mut self, count: usize, taken: &[Owned]) -> Result<(), NoMemory>
        ensures told { OnOk result ((k : ℕ) → k < count → told_to self.new k ≡ gathered k taken.now) }
        ensures count { OnOk result (count ≤ length self.new) }
    {
        self.empty(count)?;
        let mut rest = taken;
        while let Some((owned, tail)) = rest.split_first() {
            self.tell(owned)?;
            rest = tail;
        }
        Ok(())
    }

    /// The failed facts of a structure.
    pub fn told(&self, k: u32) -> &[Placed]
        requires { k < length self.now }
        ensures { result.now ≡ told_to self.now k }
    {
        self.boxes[k as usize].facts()
    }
}
