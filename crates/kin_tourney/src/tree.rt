//! The tree of matches over the slots.

ghost use Rattle.std.specs.Prelude.{◌≡◌, ◌≢◌, ◌⊎◌, ℕ, ◌+◌, ◌*◌, ◌/◌, ◌^◌, ◌<◌, ◌≤◌, ◌↔◌, true, false, length, replicate, slice_set, slice_index_or, IsTrue, IfOk, IfSome, Some};
ghost use Rattle.kin_motion.specs.declared.fact.Placed.{Placed as Put};
ghost use Rattle.kin_motion.specs.Scene.{Scene};
ghost use Rattle.kin_motion.specs.Tournaments.{item_in};
ghost use Rattle.kin_tourney.specs.declared.doubt.Doubt.TheVariants.{Below};
ghost use Rattle.kin_tourney.specs.Standings.{Standings, IsTree, named_at, entry_at, doubt_in};
ghost use Rattle.kin_tourney.specs.Tournament.{mark_in};
ghost use Rattle.kin_tourney.specs.Repairs.{IsSpread, IsMarkedUp, IsDoubted};

use crate::best::BestSlots;
use crate::doubt::{Doubt, doubt_failed, doubt_path, no_doubts};
use crate::entry::Entry;
use crate::keyed::Keyed;
use crate::report::Facts;
use kin_motion::fact::Placed;
use kin_num::memory::NoMemory;
use std::alloc::Global;
use std::marker::Model;

/// A tree over `2^size` slots. Node 1 is the root, node v has the halves 2v and 2v + 1, and slot s
/// is node `2^size + s`.
#[derive(Drop)]
pub struct Tree<K: Keyed> {
    size: u32,
    /// What each slot holds.
    items: Vec<Option<K::Item>>,
    /// Which slots are marked.
    pub(crate) marked: Vec<bool>,
    /// The slot of the best item of each inner node.
    pub(crate) best: BestSlots,
    /// The fact of each inner node.
    pub(crate) facts: Facts<K>,
    /// Which inner nodes have to be looked at. If one is in doubt, so are all above it. Node 0 always is,
    /// so that each way up ends there.
    pub(crate) doubts: Vec<Doubt>,
    /// The node that came into doubt last, where a repair begins.
    pub(crate) latest: usize,
}

impl<K: Keyed> Model for Tree<K> {
    ghost use Rattle.kin_tourney.specs.Standings.{Standings};

    ghost Value = { Standings K.Item };

    ghost view = { λ t. record { size = t.size; items = t.items.items; marked = t.marked.items; best = t.best; facts = t.facts; doubts = t.doubts.items } };
}

impl<K: Keyed> Tree<K> {
    /// No slot holds an item, and nothing is in doubt.
    pub fn new(alloc: Global, size: u32) -> Result<Tree<K>, NoMemory>
        requires low { 1 ≤ size }
        requires high { size ≤ 15 }
        ensures { IfOk result (λ t. t ≡ record { size = size; items = replicate (2 ^ size) None; marked = replicate (2 ^ size) false; best = replicate (2 ^ size) None; facts = replicate (2 ^ size) None; doubts = slice_set (replicate (2 ^ size) Doubt.Clear) 0 Doubt.Here }) }
    {
        let slots = 1usize << size;
        let items = Vec::from_elem(alloc, None, slots)?;
        let marked = Vec::from_elem(alloc, false, slots)?;
        let best = BestSlots::new(alloc, slots)?;
        let facts = Facts::new(alloc, slots)?;
        let doubts = no_doubts(alloc, slots)?;
        Ok(Tree {
            size,
            items,
            marked,
            best,
            facts,
            doubts,
            latest: 0,
        })
    }

    /// The number of slots, which is also the number of the first leaf.
    pub fn slots(&self) -> usize
        ensures { result ≡ length self.now.items }
    {
        self.items.len()
    }

    /// What a slot holds.
    pub fn item(&self, slot: u32) -> Option<K::Item>
        requires { slot < length self.now.items }
        ensures { result ≡ item_in self.now.items slot }
    {
        self.items[slot as usize]
    }

    /// The slot that a node names: of its best item, or its own at a leaf.
    fn named(&self, node: usize) -> Option<u32>
        requires tree { IsTree self.now }
        requires node { node < 2 * length self.now.items }
        ensures value { result ≡ named_at self.now node }
        ensures low { IfSome result (λ slot. slot < length self.now.items) }
    {
        if node < self.slots() {
            self.best.get(node)
        } else {
            Some((node - self.slots()) as u32)
        }
    }

    /// The best item of a node, where it has one.
    pub fn entry(&self, node: usize) -> Option<Entry<K::Item>>
        requires tree { IsTree self.now }
        requires node { node < 2 * length self.now.items }
        ensures { result ≡ entry_at self.now node }
    {
        let slot = self.named(node)?;
        let item = self.items[slot as usize]?;
        Some(Entry { slot, item })
    }

    fn is_clear(&self, node: usize) -> bool
        requires tree { IsTree self.now }
        requires inner { node < length self.now.items }
        ensures { IsTrue result ↔ (doubt_in self.now.doubts node ≡ Doubt.Clear) }
    {
        self.doubts[node].is_clear()
    }

    /// Whether the match of a node has to be played again.
    pub(crate) fn is_here(&self, node: usize) -> bool
        requires tree { IsTree self.now }
        requires inner { node < length self.now.items }
        ensures { IsTrue result ↔ (doubt_in self.now.doubts node ≡ Doubt.Here) }
    {
        self.doubts[node].is_here()
    }

    /// Whether no slot is marked, and no failed fact was given.
    pub fn is_untouched(&self) -> bool
        requires tree { IsTree self.now }
        requires some { 1 ≤ self.now.size }
        ensures { IsTrue result ↔ (doubt_in self.now.doubts 1 ≡ Doubt.Clear) }
    {
        self.is_clear(1)
    }

    /// Whether a node has a node above it, and a slot is its best.
    fn is_won_below_root(&self, slot: u32, node: usize) -> bool
        requires tree { IsTree self.now }
        requires inner { node < length self.now.items }
        ensures won { result ≡ true → 1 < node }
        ensures lost { result ≡ false → (node ≤ 1) ⊎ (named_at self.now node ≢ Some slot) }
    {
        if node <= 1 {
            return false;
        }
        match self.best.get(node) {
            Some(best) => best == slot,
            None => false,
        }
    }

    /// Puts a node and those above it into doubt, where they are clear: the way leads through them.
    fn lead_to(&mut self, node: usize)
        requires tree { IsTree self.old }
        requires inner { node < length self.old.items }
        ensures tree { IsTree self.new }
        ensures same { self.new ≡ record self.old { doubts = self.new.doubts } }
        ensures spread { IsSpread self.old.doubts self.new.doubts Below node }
    {
        doubt_path(&mut self.doubts, node, Doubt::Below);
    }

    /// Marks the match of a node in doubt as one to play again.
    fn raise(&mut self, node: usize)
        requires tree { IsTree self.old }
        requires inner { node < length self.old.items }
        requires doubted { doubt_in self.old.doubts node ≢ Doubt.Clear }
        ensures tree { IsTree self.new }
        ensures same { self.new ≡ record self.old { doubts = slice_set self.old.doubts node Doubt.Here } }
    {
        self.doubts[node] = Doubt::Here;
    }

    /// Puts the nodes above a slot into doubt. Only where it is the best of a half, the match itself
    /// has to be played again. Above a node that it isn't the best of, it is the best of none.
    fn doubt_above(&mut self, slot: u32)
        requires tree { IsTree self.old }
        requires slot { slot < length self.old.items }
        ensures tree { IsTree self.new }
        ensures same { self.new ≡ record self.old { doubts = self.new.doubts } }
        ensures marked { IsMarkedUp slot self.old self.new.doubts }
    {
        let mut node = self.slots() + slot as usize;
        self.lead_to(node / 2);
        // The slot is the best of its leaf.
        let mut is_won = node > 1;
        while is_won {
            self.raise(node / 2);
            node /= 2;
            is_won = self.is_won_below_root(slot, node);
        }
    }

    /// Marks a slot and changes what it holds.
    pub fn put(&mut self, slot: u32, item: Option<K::Item>)
        requires tree { IsTree self.old }
        requires slot { slot < length self.old.items }
        ensures tree { IsTree self.new }
        ensures same { self.new ≡ record self.old { items = slice_set self.old.items slot item; marked = slice_set self.old.marked slot true; doubts = self.new.doubts } }
        ensures spread { mark_in self.old.marked slot ≡ false → IsMarkedUp slot self.old self.new.doubts }
        ensures again { mark_in self.old.marked slot ≡ true → self.new.doubts ≡ self.old.doubts }
    {
        if !self.marked[slot as usize] {
            self.doubt_above(slot);
            self.latest = (self.slots() + slot as usize) / 2;
            self.marked[slot as usize] = true;
        }
        self.items[slot as usize] = item;
    }

    /// Puts the nodes of failed facts into doubt.
    pub fn doubt_failed(&mut self, failed: &[Placed])
        requires tree { IsTree self.old }
        requires inner { (k : ℕ) (d : Put) → k < length failed.now → (slice_index_or failed.now k d).part < length self.old.items }
        ensures tree { IsTree self.new }
        ensures same { self.new ≡ record self.old { doubts = self.new.doubts } }
        ensures doubted { IsDoubted self.old.doubts self.new.doubts failed.now (length failed.now) }
    {
        doubt_failed(&mut self.doubts, failed);
        if let Some(placed) = failed.last() {
            self.latest = placed.part as usize;
        }
    }
}
