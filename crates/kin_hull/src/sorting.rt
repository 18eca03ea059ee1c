//! The failed facts of each tree, and the facts that a tree reports.

ghost use Rattle.std.specs.Prelude.{◌≡◌, ◌<◌, ◌≤◌, ◌^◌, [], ◌∷◌, ◌++◌, cond, map, filter, take, drop, Contains, OnOk};
ghost use Rattle.kin_motion.specs.declared.fact.Placed.{Placed as Put};
ghost use Rattle.kin_hull.specs.Sides.{is_of, outward, inward, items_of};

use crate::side::Side;
use kin_motion::fact::Placed;
use kin_num::memory::NoMemory;
use std::alloc::Global;

/// Failed facts of both trees, each as it is in its tree. The memory is kept from settle to settle.
#[derive(Drop)]
pub(crate) struct Failed {
    upper: Vec<Placed>,
    lower: Vec<Placed>,
}

impl Failed {
    /// None.
    pub(crate) fn new(alloc: Global) -> Failed {
        Failed {
            upper: Vec::new(alloc),
            lower: Vec::new(alloc),
        }
    }

    /// Those of one tree.
    pub(crate) fn of(&self, side: Side) -> &[Placed]
        ensures { result.now ≡ items_of side self.now.upper.items self.now.lower.items }
    {
        match side {
            Side::Upper => &self.upper,
            Side::Lower => &self.lower,
        }
    }

    /// Puts a fact of the hull among those of its tree.
    fn sort_one(&mut self, placed: Placed) -> Result<(), NoMemory>
        ensures upper { OnOk result (self.new.upper.items ≡ cond (is_of Side.Upper placed) (self.old.upper.items ++ inward Side.Upper placed ∷ []) self.old.upper.items) }
        ensures lower { OnOk result (self.new.lower.items ≡ cond (is_of Side.Lower placed) (self.old.lower.items ++ inward Side.Lower placed ∷ []) self.old.lower.items) }
    {
        if placed.part % 2 == 0 {
            let inner = Side::Upper.inward(placed);
            self.upper.push(inner).map_err(|_| NoMemory)
        } else {
            let inner = Side::Lower.inward(placed);
            self.lower.push(inner).map_err(|_| NoMemory)
        }
    }

    /// Sorts failed facts of the hull by tree, and forgets those before.
    pub(crate) fn sort(&mut self, facts: &[Placed]) -> Result<(), NoMemory>
        ensures upper { OnOk result (self.new.upper.items ≡ map (inward Side.Upper) (filter (is_of Side.Upper) facts.now)) }
        ensures lower { OnOk result (self.new.lower.items ≡ map (inward Side.Lower) (filter (is_of Side.Lower) facts.now)) }
    {
        self.upper.clear();
        self.lower.clear();
        for placed in facts {
            self.sort_one(*placed)?;
        }
        Ok(())
    }
}

/// Turns the facts of a tree, in a list from this place on, into facts of the hull.
pub(crate) fn put_outward(side: Side, facts: &mut Vec<Placed>, from: usize)
    requires low { (p : Put) → Contains (drop from facts.old.items) p → p.part < 2 ^ 16 }
    ensures { facts.new.items ≡ take from facts.old.items ++ map (outward side) (drop from facts.old.items) }
{
    for place in from..facts.len() {
        facts[place] = side.outward(facts[place]);
    }
}
