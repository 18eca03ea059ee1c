//! The live facts of all kept structures, with their owners.

ghost use Rattle.std.specs.Prelude.{◌≡◌, ◌≤◌, ◌++◌, ◌^◌, length, map, IfOk, OnOk};
ghost use Rattle.std.specs.List.{All};
ghost use Rattle.kin_motion.specs.Agreements.{FitsSize};
ghost use Rattle.kin_motion.specs.Live.{keep_facts, live_facts, owned_by, IsSmallKeep};

use crate::box_facts::put_box_facts;
use crate::closest::put_closest_facts;
use crate::diameter::put_diameter_facts;
use crate::extreme::put_extreme_facts;
use crate::facts::{put_order_facts, put_range_facts, put_wedge_facts};
use crate::hull::put_hull_facts;
use crate::lists::put;
use kin_motion::fact::Placed;
use kin_motion::keep::Keep;
use kin_motion::signs::Signs;
use kin_num::memory::NoMemory;
use kin_num::steps::Steps;
use std::alloc::Global;
use std::marker::Model;
use std::sync::ledger::Ledger;

/// A fact of the structure of this number.
#[derive(Clone, Copy, Debug, PartialEq, Eq, Drop)]
pub struct Owned {
    structure: u32,
    placed: Placed,
}

impl Model for Owned {
    ghost use Rattle.kin_motion.specs.Live.{Certificate};

    ghost Value = { Certificate };

    ghost view = { λ o. record { structure = o.structure; placed = o.placed } };

    ghost inverse = { λ c. record { structure = c.structure; placed = c.placed } };
}

impl Owned {
    /// A fact of the structure of this number.
    fn new(structure: u32, placed: Placed) -> Owned
        ensures { result ≡ owned_by structure placed }
    {
        Owned { structure, placed }
    }

    /// The number of the structure.
    pub fn structure(&self) -> u32
        ensures { result ≡ self.now.structure }
    {
        self.structure
    }

    /// The fact, in a part of the structure.
    pub fn placed(&self) -> Placed
        ensures { result ≡ self.now.placed }
    {
        self.placed
    }
}

/// Puts the facts of a structure at the end, by its kind.
pub fn put_keep_facts<O: Signs, L: Ledger>(
    alloc: Global,
    now: &O,
    size: u32,
    live: &[u32],
    keep: &Keep,
    facts: &mut Vec<Placed>,
    steps: &mut Steps<L>,
) -> Result<(), NoMemory>
    requires size { size ≤ 12 }
    requires fits { FitsSize size (O.scene now.now) }
    requires keep { IsSmallKeep keep.now }
    requires live { live.now ≡ (O.scene now.now).live }
    ensures { OnOk result (facts.new.items ≡ facts.old.items ++ keep_facts size (O.scene now.now) keep.now) }
{
    match *keep {
        Keep::Order { dx, dy } => put_order_facts(alloc, now, live, dx, dy, 0, facts, steps),
        Keep::Extreme { dx, dy } => put_extreme_facts(alloc, now, size, live, dx, dy, facts, steps),
        Keep::Hull => put_hull_facts(alloc, now, size, live, facts, steps),
        Keep::Closest => put_closest_facts(alloc, now, size, live, facts, steps),
        Keep::Range => put_range_facts(alloc, now, live, facts, steps),
        Keep::Nearest => put_wedge_facts(alloc, now, live, facts, steps),
        Keep::Diameter => put_diameter_facts(alloc, now, size, live, facts, steps),
        Keep::Boxes { w, h } => put_box_facts(alloc, now, size, live, w, h, facts, steps),
    }
}

/// Puts the facts of the structure of this number at the end, with their owner.
fn put_owned(structure: u32, facts: &[Placed], owned: &mut Vec<Owned>) -> Result<(), NoMemory>
    ensures { OnOk result (owned.new.items ≡ owned.old.items ++ map (owned_by structure) facts.now) }
{
    for fact in facts {
        put(owned, Owned::new(structure, *fact))?;
    }
    Ok(())
}

/// All live facts.
pub fn live_facts<O: Signs, L: Ledger>(
    alloc: Global,
    now: &O,
    size: u32,
    live: &[u32],
    keeps: &[Keep],
    steps: &mut Steps<L>,
) -> Result<Vec<Owned>, NoMemory>
    requires size { size ≤ 12 }
    requires fits { FitsSize size (O.scene now.now) }
    requires few { length keeps.now ≤ 2 ^ 16 }
    requires keeps { All IsSmallKeep keeps.now }
    requires live { live.now ≡ (O.scene now.now).live }
    ensures { IfOk result (λ owned. owned.items ≡ live_facts size keeps.now (O.scene now.now)) }
{
    let mut owned = Vec::new(alloc);
    for structure in 0..keeps.len() {
        let mut facts = Vec::new(alloc);
        put_keep_facts(alloc, now, size, live, &keeps[structure], &mut facts, steps)?;
        put_owned(structure as u32, &facts, &mut owned)?;
    }
    Ok(owned)
}
