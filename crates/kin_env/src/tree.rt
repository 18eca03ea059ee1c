//! The envelope tree as its callers see it.

ghost use Rattle.std.specs.Prelude.{◌≡◌, ◌+◌, ◌*◌, ◌≤◌, ◌<◌, ◌^◌, ℕ, [], true, false, length, replicate, slice_set, IsTrue, IfOk, OnOk, OnErr};
ghost use Rattle.kin_motion.specs.Kinetics.{ListsFailing, HasChanged};
ghost use Rattle.kin_motion.specs.Scene.{Scene, IsReal};
ghost use Rattle.kin_env.specs.Trees.{IsEnvelopeAtRest, IsReadyEnvelope, IsSettledEnvelope, ChainsKeepOrder, chain_told, top_of};
ghost use Rattle.kin_env.specs.Walks.{slot_in};

use crate::branches::Branches;
use kin_motion::fact::{Delta, Placed};
use kin_motion::kinetic::Kinetic;
use kin_motion::signs::Signs;
use kin_num::memory::NoMemory;
use kin_num::steps::Steps;
use std::alloc::Global;
use std::marker::Model;
use std::sync::ledger::Ledger;

/// The upper chain of the points of `2^size` slots, and of the points under each node of a binary
/// tree over them, where the size is from 1 to 15. Slot s holds point s, and the facts of node v are
/// in part v.
///
/// `set` and `clear` mark a slot, and the next `settle` takes the number in or lets it go. Several
/// slots may be marked before it. After a `settle` that answered want of memory the tree can only be
/// dropped.
#[derive(Drop)]
pub struct EnvTree {
    branches: Branches,
    /// False from the start of a `settle` to its Ok end.
    whole: bool,
}

impl Model for EnvTree {
    ghost use Rattle.std.specs.Prelude.{IsTrue};
    ghost use Rattle.kin_env.specs.Trees.{Envelope, seen_as};
    ghost use Rattle.kin_env.specs.Walks.{IsSound};

    ghost Value = { Envelope };

    ghost view = { λ t. seen_as t.branches t.whole };

    ghost invariant = { λ t. IsTrue t.whole → IsSound t.branches };
}

impl EnvTree {
    /// A tree of `2^size` slots, none of them set. The size is from 1 to 15.
    pub fn new(alloc: Global, size: u32) -> Result<EnvTree, NoMemory>
        requires low { 1 ≤ size }
        requires high { size ≤ 15 }
        ensures size { IfOk result (λ t. t.size ≡ size) }
        ensures slots { IfOk result (λ t. t.slots ≡ replicate (2 ^ size) false) }
        ensures chains { IfOk result (λ t. (v : ℕ) → chain_told t v ≡ []) }
        ensures facts { IfOk result (λ t. t.facts ≡ []) }
        ensures rest { IfOk result IsEnvelopeAtRest }
        ensures settled { IfOk result (λ t. (s : Scene) → s.live ≡ [] → IsSettledEnvelope t s) }
    {
        Ok(EnvTree {
            branches: Branches::new(alloc, size)?,
            whole: true,
        })
    }

    /// Sets a slot that isn't set, and marks it: its number enters. Takes no memory.
    pub fn set(&mut self, slot: u32)
        requires whole { IsTrue self.old.whole }
        requires within { slot < 2 ^ self.old.size }
        requires new { slot_in self.old.slots slot ≡ false }
        ensures { self.new ≡ record self.old { slots = slice_set self.old.slots slot true } }
    {
        self.branches.put(slot, true);
    }

    /// Clears a slot that is set, and marks it: its number leaves. Takes no memory.
    pub fn clear(&mut self, slot: u32)
        requires whole { IsTrue self.old.whole }
        requires within { slot < 2 ^ self.old.size }
        requires member { slot_in self.old.slots slot ≡ true }
        ensures { self.new ≡ record self.old { slots = slice_set self.old.slots slot false } }
    {
        self.branches.put(slot, false);
    }

    /// The chain of the root as it was settled last: where the tree is settled, the upper chain of
    /// the points in all set slots.
    pub fn top(&self) -> &[u32]
        requires rest { IsEnvelopeAtRest self.now }
        ensures { result.now ≡ top_of self.now }
    {
        self.branches.top()
    }
}

impl Kinetic for EnvTree {
    ghost use Rattle.kin_env.specs.Trees.{IsEnvelopeAtRest, IsReadyEnvelope, IsSettledEnvelope, names_leaving};
    ghost use Rattle.kin_env.specs.TreeLaws.{determined_law};

    ghost facts = { λ t. t.facts };

    ghost is_spared = { names_leaving };

    ghost ready = { IsReadyEnvelope };

    ghost at_rest = { IsEnvelopeAtRest };

    ghost settled = { IsSettledEnvelope };

    ghost grounded = { λ t s. Unit {0} };

    ghost determined = { determined_law };

    /// Repairs the marked slots and the failed facts, from the leaves up. `failed` lists exactly the
    /// facts that don't hold and name no number that leaves. It is meant to visit a node only where
    /// the chain of a half has changed or a fact of it failed; no clause says so.
    fn settle<O: Signs, L: Ledger>(
        &mut self,
        now: &O,
        failed: &[Placed],
        out: &mut Delta,
        steps: &mut Steps<L>,
    ) -> Result<(), NoMemory>
        requires real { IsReal (O.scene now.now) }
        requires ready { IsReadyEnvelope self.old (O.scene now.now) }
        requires failing { ListsFailing self.old.facts (names_leaving self.old) (O.scene now.now) failed.now }
        ensures rest { OnOk result (IsEnvelopeAtRest self.new) }
        ensures settled { OnOk result (IsSettledEnvelope self.new (O.scene now.now)) }
        ensures delta { OnOk result (HasChanged self.old.facts self.new.facts out.old out.new) }
        ensures same { OnOk result (self.new ≡ record self.old { chains = self.new.chains; facts = self.new.facts }) }
        ensures broken { OnErr result (self.new.whole ≡ false) }

        // Where the chain of each node keeps its order, at most five signs are asked for each fact
        // that is born and at most one for each that is dropped.
        ensures tests { OnOk result (ChainsKeepOrder self.old self.new → steps.new + (5 * length out.old.born + length out.old.dropped) ≤ steps.old + (5 * length out.new.born + length out.new.dropped)) }
    {
        self.whole = false;
        self.branches.settle(now, failed, out, steps)?;
        self.whole = true;
        Ok(())
    }
}
