//! Facts, and what a structure reports of them.

ghost use Rattle.std.specs.Prelude.{◌≡◌, ◌↔◌, IsTrue, OnOk, [], ◌∷◌, ◌++◌};

use crate::form::Form;
use kin_num::Sign;
use kin_num::memory::NoMemory;
use std::alloc::Global;
use std::marker::Model;

/// A form with a sign. It holds at a moment where the form's polynomial has that sign there.
#[derive(Clone, Copy, Debug, PartialEq, Eq)]
pub struct Fact {
    pub form: Form,
    pub sign: Sign,
}

impl Fact {
    /// Whether it is the same fact, as contracts see it.
    pub fn is(self, other: Fact) -> bool
        ensures { IsTrue result ↔ (self ≡ other) }
    {
        self.form.is(other.form) && self.sign == other.sign
    }
}

/// A fact in a part of a structure, such as a node of its tree.
#[derive(Clone, Copy, Debug, PartialEq, Eq)]
pub struct Placed {
    pub part: u32,
    pub fact: Fact,
}

impl Placed {
    /// Whether it is the same fact in the same part, as contracts see it.
    pub fn is(self, other: Placed) -> bool
        ensures { IsTrue result ↔ (self ≡ other) }
    {
        self.part == other.part && self.fact.is(other.fact)
    }
}

/// What a structure reports: the facts that were live and no longer are, and the new ones.
#[derive(Drop)]
pub struct Delta {
    pub dropped: Vec<Placed>,
    pub born: Vec<Placed>,
}

impl Model for Delta {
    ghost use Rattle.kin_motion.specs.Deltas.{Change};

    ghost Value = { Change };

    ghost view = { λ d. record { dropped = d.dropped.items; born = d.born.items } };
}

impl Delta {
    /// Nothing dropped and nothing born.
    pub fn new(alloc: Global) -> Delta
        ensures { result ≡ record { dropped = []; born = [] } }
    {
        Delta {
            dropped: Vec::new(alloc),
            born: Vec::new(alloc),
        }
    }

    /// Takes all reports out. The memory is kept.
    pub fn clear(&mut self)
        ensures { self.new ≡ record { dropped = []; born = [] } }
    {
        self.dropped.clear();
        self.born.clear();
    }

    /// Reports a fact as dropped.
    pub fn report_dropped(&mut self, fact: Placed) -> Result<(), NoMemory>
        ensures { OnOk result (self.new ≡ record { dropped = self.old.dropped ++ fact ∷ []; born = self.old.born }) }
    {
        self.dropped.push(fact).map_err(|_| NoMemory)?;
        Ok(())
    }

    /// Reports a fact as born.
    pub fn report_born(&mut self, fact: Placed) -> Result<(), NoMemory>
        ensures { OnOk result (self.new ≡ record { dropped = self.old.dropped; born = self.old.born ++ fact ∷ [] }) }
    {
        self.born.push(fact).map_err(|_| NoMemory)?;
        Ok(())
    }
}
