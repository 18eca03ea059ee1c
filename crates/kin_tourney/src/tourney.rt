//! The tournament as its callers see it.

ghost use Rattle.std.specs.Prelude.{◌≡◌, ℕ, ◌+◌, ◌*◌, ◌^◌, ◌<◌, ◌≤◌, ◌↔◌, true, false, [], length, replicate, slice_set, IsTrue, IfOk, OnOk, OnErr, Some, None};
ghost use Rattle.kin_motion.specs.Kinetics.{HasChanged};
ghost use Rattle.kin_motion.specs.Scene.{Scene, IsReal};
ghost use Rattle.kin_motion.specs.Tournaments.{item_in, is_under};
ghost use Rattle.kin_tourney.specs.Tournament.{IsAtRest, IsReady, IsSettled, winner_at, mark_count, CoversAskable};

use crate::keyed::Keyed;
use crate::tree::Tree;
use kin_motion::fact::{Delta, Placed};
use kin_motion::kinetic::Kinetic;
use kin_motion::signs::Signs;
use kin_num::memory::NoMemory;
use kin_num::steps::Steps;
use std::alloc::Global;
use std::marker::Model;
use std::sync::ledger::Ledger;

/// The best item of `2^size` slots, and of the slots under each node of a binary tree over them.
/// Node 1 is the root, node v has the halves 2v and 2v + 1, and slot s is node `2^size + s`.
///
/// `set` and `clear` mark a slot, and the next `settle` plays its matches again. At a `settle`
/// different slots hold different items, which name live numbers alone. After a `settle` that answered
/// want of memory it may not be used again.
#[derive(Drop)]
pub struct Tourney<K: Keyed> {
    key: K,
    tree: Tree<K>,
    /// Whether no `settle` is under way and none has run out of memory.
    whole: bool,
}

impl<K: Keyed> Model for Tourney<K> {
    ghost use Rattle.std.specs.Prelude.{IsTrue};
    ghost use Rattle.kin_tourney.specs.Tournament.{Tournament};
    ghost use Rattle.kin_tourney.specs.Standings.{IsTree, seen_as};
    ghost use Rattle.kin_tourney.specs.Sound.{IsSound};

    ghost Value = { Tournament K K.Item };

    ghost view = { λ t. seen_as t.key t.tree t.whole };

    ghost invariant = { λ t. IsTree t.tree × (IsTrue t.whole → IsSound (K.key t.key) t.tree) };
}

impl<K: Keyed> Tourney<K> {
    /// A tournament of `2^size` empty slots, settled in every scene. No later call but `settle`
    /// takes memory, and `settle` only for what it reports.
    pub fn new(alloc: Global, key: K, size: u32) -> Result<Tourney<K>, NoMemory>
        requires low { 1 ≤ size }
        requires high { size ≤ 15 }
        ensures key { IfOk result (λ t. t.key ≡ key) }
        ensures size { IfOk result (λ t. t.size ≡ size) }
        ensures slots { IfOk result (λ t. t.slots ≡ replicate (2 ^ size) None) }
        ensures marked { IfOk result (λ t. t.marked ≡ replicate (2 ^ size) false) }
        ensures facts { IfOk result (λ t. t.facts ≡ []) }
        ensures rest { IfOk result IsAtRest }
        ensures settled { IfOk result (λ t. (s : Scene) → IsSettled K.names (K.key key) t s) }
    {
        let tree = Tree::new(alloc, size)?;
        Ok(Tourney {
            key,
            tree,
            whole: true,
        })
    }

    /// What a slot holds, also where it is marked.
    pub fn item(&self, slot: u32) -> Option<K::Item>
        requires { slot < 2 ^ self.now.size }
        ensures { result ≡ item_in self.now.slots slot }
    {
        self.tree.item(slot)
    }

    /// Marks a slot, which holds this item from now on. Of several marks the last one counts.
    pub fn set(&mut self, slot: u32, item: K::Item)
        requires { slot < 2 ^ self.old.size }
        ensures { self.new ≡ record self.old { slots = slice_set self.old.slots slot (Some item); marked = slice_set self.old.marked slot true; winners = self.new.winners } }
    {
        self.tree.put(slot, Some(item));
    }

    /// Marks a slot, which is empty from now on.
    pub fn clear(&mut self, slot: u32)
        requires { slot < 2 ^ self.old.size }
        ensures { self.new ≡ record self.old { slots = slice_set self.old.slots slot None; marked = slice_set self.old.marked slot true; winners = self.new.winners } }
    {
        self.tree.put(slot, None);
    }

    /// The winner of a node as it was settled last, or `None` exactly where the slots under it are all empty.
    /// Where the tournament is settled, it is the best item of these slots.
    pub fn winner(&self, node: u32) -> Option<K::Item>
        requires rest { IsAtRest self.now }
        requires low { 0 < node }
        requires high { node < 2 ^ (self.now.size + 1) }
        ensures winner { result ≡ winner_at self.now node }
        ensures none { (result ≡ None) ↔ ((i : ℕ) → IsTrue (is_under self.now.size node i) → item_in self.now.slots i ≡ None) }
    {
        let entry = self.tree.entry(node as usize)?;
        Some(entry.item)
    }

    /// `settle`, where `failed` also has the failed facts above marked slots, but for those that name a
    /// number that isn't live. Above a marked slot only those matches are played again that it had won, and
    /// those whose halves have another winner; no clause says so.
    pub fn settle_told<O: Signs, L: Ledger>(
        &mut self,
        now: &O,
        failed: &[Placed],
        out: &mut Delta,
        steps: &mut Steps<L>,
    ) -> Result<(), NoMemory>
        requires real { IsReal (O.scene now.now) }
        requires ready { IsReady K.names self.old (O.scene now.now) }
        requires failing { CoversAskable self.old.facts (O.scene now.now) failed.now }
        ensures rest { OnOk result (IsAtRest self.new) }
        ensures settled { OnOk result (IsSettled K.names (K.key self.new.key) self.new (O.scene now.now)) }
        ensures delta { OnOk result (HasChanged self.old.facts self.new.facts out.old out.new) }
        ensures broken { OnErr result (self.new.whole ≡ false) }
        ensures same { OnOk result (self.new ≡ record self.old { marked = self.new.marked; winners = self.new.winners; facts = self.new.facts }) }
        ensures room { OnOk result (length self.new.marked ≡ length self.old.marked) }
        ensures cost { OnOk result (steps.new ≤ steps.old + self.old.size * (mark_count self.old.marked + length failed.now)) }
    {
        self.whole = false;
        self.tree.doubt_failed(failed);
        self.tree.repair(false, &self.key, now, out, steps)?;
        self.whole = true;
        Ok(())
    }
}

impl<K: Keyed> Kinetic for Tourney<K> {
    ghost use Rattle.std.specs.Prelude.{◌≡◌, ◌+◌, ◌*◌, ◌≤◌, false, OnOk, OnErr, length};
    ghost use Rattle.kin_motion.specs.Scene.{IsReal};
    ghost use Rattle.kin_motion.specs.Kinetics.{HasChanged};
    ghost use Rattle.kin_tourney.specs.Tournament.{IsAtRest, IsReady, IsSettled, is_above_mark, mark_count, CoversFailing};
    ghost use Rattle.kin_tourney.specs.Determined.{determined_law};

    ghost facts = { λ t. t.facts };

    ghost is_spared = { λ t p. is_above_mark t.size t.marked p.part };

    ghost ready = { λ t s. IsReady K.names t s };

    ghost at_rest = { λ t. IsAtRest t };

    ghost settled = { λ t s. IsSettled K.names (K.key t.key) t s };

    ghost grounded = { λ t s. Unit {0} };

    ghost determined = { λ t v w rest real before same real' grounded hold. determined_law K.names (K.key t.key) (K.total t.key) (K.transitive t.key) t v w real before same real' hold };

    /// Repairs the marked slots and the failed facts, each along the levels above it, with at most one
    /// sign test a level. No other node is visited; no clause says so.
    fn settle<O: Signs, L: Ledger>(
        &mut self,
        now: &O,
        failed: &[Placed],
        out: &mut Delta,
        steps: &mut Steps<L>,
    ) -> Result<(), NoMemory>
        requires real { IsReal (O.scene now.now) }
        requires ready { IsReady K.names self.old (O.scene now.now) }
        requires failing { CoversFailing self.old.facts (λ p. is_above_mark self.old.size self.old.marked p.part) (O.scene now.now) failed.now }
        ensures rest { OnOk result (IsAtRest self.new) }
        ensures settled { OnOk result (IsSettled K.names (K.key self.new.key) self.new (O.scene now.now)) }
        ensures delta { OnOk result (HasChanged self.old.facts self.new.facts out.old out.new) }
        ensures broken { OnErr result (self.new.whole ≡ false) }
        ensures same { OnOk result (self.new ≡ record self.old { marked = self.new.marked; winners = self.new.winners; facts = self.new.facts }) }
        ensures room { OnOk result (length self.new.marked ≡ length self.old.marked) }
        ensures cost { OnOk result (steps.new ≤ steps.old + self.old.size * (mark_count self.old.marked + length failed.now)) }
    {
        self.whole = false;
        // A fact above a marked slot may be left out of `failed`, so each fact there is looked at.
        let all = !self.tree.is_untouched();
        self.tree.doubt_failed(failed);
        self.tree.repair(all, &self.key, now, out, steps)?;
        self.whole = true;
        Ok(())
    }
}
