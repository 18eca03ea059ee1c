//! The best slots of the nodes.

ghost use Rattle.std.specs.Prelude.{◌≡◌, ◌<◌, ◌^◌, length, replicate, slice_set, IfOk, IfSome, None};
ghost use Rattle.kin_tourney.specs.Briefs.{slot_of as SlotOf};
ghost use Rattle.kin_tourney.specs.Standings.{best_in};

use kin_num::memory::NoMemory;
use std::alloc::Global;
use std::marker::Model;

/// The slot of the best item of each node, or none, in two bytes each.
#[derive(Drop)]
pub struct BestSlots {
    slots: Vec<u16>,
}

impl Model for BestSlots {
    ghost use Rattle.std.specs.Prelude.{ℕ, List, Option, map};
    ghost use Rattle.kin_tourney.specs.Briefs.{slot_of as SlotOf};

    ghost Value = { List (Option ℕ) };

    ghost view = { λ b. map SlotOf b.slots.items };
}

/// The slot that is written in two bytes.
#[inline(always)]
fn wide(brief: u16) -> Option<u32>
    ensures { result ≡ SlotOf brief }
{
    if brief == u16::MAX {
        None
    } else {
        Some(brief as u32)
    }
}

/// A slot in two bytes.
#[inline(always)]
fn brief(best: Option<u32>) -> u16
    requires { IfSome best (λ slot. slot < 2 ^ 15) }
    ensures { SlotOf result ≡ best }
{
    match best {
        Some(slot) => slot as u16,
        None => u16::MAX,
    }
}

impl BestSlots {
    /// So many nodes, none of which has a best slot.
    pub fn new(alloc: Global, count: usize) -> Result<BestSlots, NoMemory>
        ensures { IfOk result (λ b. b ≡ replicate count None) }
    {
        let slots = Vec::from_elem(alloc, u16::MAX, count)?;
        Ok(BestSlots { slots })
    }

    /// The best slot of a node.
    #[inline(always)]
    pub fn get(&self, node: usize) -> Option<u32>
        requires { node < length self.now }
        ensures { result ≡ best_in self.now node }
    {
        wide(self.slots[node])
    }

    /// Gives a node another best slot, or none.
    #[inline(always)]
    pub fn set(&mut self, node: usize, best: Option<u32>)
        requires node { node < length self.old }
        requires low { IfSome best (λ slot. slot < 2 ^ 15) }
        ensures { self.new ≡ slice_set self.old node best }
    {
        self.slots[node] = brief(best);
    }
}
