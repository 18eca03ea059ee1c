//! Facts that are handed to a receiver.

ghost use Rattle.std.specs.Prelude.{◌≡◌, [], ◌∷◌, ◌++◌, OnOk};

use crate::fact::{Fact, Placed};
use kin_num::memory::NoMemory;
use std::alloc::Global;
use std::marker::Model;

/// The facts for one receiver. The memory is kept when they are taken out.
#[derive(Drop)]
pub struct Letters {
    facts: Vec<Placed>,
}

impl Model for Letters {
    ghost use Rattle.std.specs.Prelude.{List};
    ghost use Rattle.kin_motion.specs.declared.fact.Placed.{Placed as Put};

    ghost Value = { List Put };

    ghost view = { λ l. l.facts.items };
}

impl Letters {
    /// No facts.
    pub fn new(alloc: Global) -> Letters
        ensures { result ≡ [] }
    {
        Letters {
            facts: Vec::new(alloc),
        }
    }

    /// Takes all facts out.
    pub fn clear(&mut self)
        ensures { self.new ≡ [] }
    {
        self.facts.clear();
    }

    /// Adds a fact, in a part.
    #[inline(always)]
    pub fn add(&mut self, part: u32, fact: &Fact) -> Result<(), NoMemory>
        ensures { OnOk result (self.new ≡ self.old ++ (record { part = part; fact = fact.now }) ∷ []) }
    {
        // Room comes before what it is for, so that the fact need not be kept over a call.
        self.facts.reserve(1)?;
        self.facts.push_reserved(Placed { part, fact: *fact });
        Ok(())
    }

    /// All facts, in the order in which they came.
    pub fn facts(&self) -> &[Placed]
        ensures { result.now ≡ self.now }
    {
        &self.facts
    }
}
