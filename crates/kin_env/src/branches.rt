//! The nodes of the tree, and the way through those that have work.

ghost use Rattle.std.specs.Prelude.{◌≡◌, ◌≢◌, ℕ, ◌+◌, ◌*◌, ◌/◌, ◌^◌, ◌-◌, ◌<◌, ◌≤◌, ◌↔◌, false, [], length, replicate, slice_get, slice_set, slice_index_or, Some, None, IfOk, OnOk, IsTrue, IsFalse};
ghost use Rattle.kin_motion.specs.declared.fact.Placed.{Placed as Put};
ghost use Rattle.kin_motion.specs.Kinetics.{HasChanged};
ghost use Rattle.kin_motion.specs.Scene.{IsReal};
ghost use Rattle.kin_tourney.specs.declared.doubt.Doubt.TheVariants.{Below};
ghost use Rattle.kin_tourney.specs.Standings.{IsClosed, doubt_in};
ghost use Rattle.kin_tourney.specs.Repairs.{IsSpread, IsDoubted, IsLowest};
ghost use Rattle.kin_env.specs.declared.node.Node.{Node as Knot};
ghost use Rattle.kin_env.specs.Nodes.{merge_at, passed_at, chain_at, edits_at, failed_at};
ghost use Rattle.kin_env.specs.Joints.{Leads, IsTold, IsRestingWith, HalvesKeepOrder, ArePaid};
ghost use Rattle.kin_env.specs.Walks.{IsShaped, IsSound, IsWalked, IsWorked, IsRenewed, AreBlank, AreGiven, IsHeard, IsAtPeace, NodesKeepOrder, AreRight, IsReady, slot_in, own_chain, tree_facts};

use crate::node::Node;
use kin_motion::fact::{Delta, Placed};
use kin_motion::signs::Signs;
use kin_num::memory::NoMemory;
use kin_num::steps::Steps;
use kin_overlay::work::Work;
use kin_tourney::descent::{first_doubt, next_doubt};
use kin_tourney::doubt::{Doubt, doubt_failed, doubt_path, no_doubts};
use std::alloc::Global;
use std::sync::ledger::Ledger;

/// A tree over `2^size` slots. Node 1 is the root, node v has the halves 2v and 2v + 1, and slot s
/// is node `2^size + s`.
#[derive(Drop)]
pub struct Branches {
    pub alloc: Global,
    pub size: u32,
    /// Which slots hold their number.
    pub slots: Vec<bool>,
    pub nodes: Vec<Node>,
    /// Which nodes have to be looked at. Where one isn't clear, none above it is. Node 0 never is,
    /// so that every way upwards ends there.
    pub doubts: Vec<Doubt>,
    /// For the repair of each merge, one after another.
    pub buffers: Work,
}

/// The number of slots.
fn room_for(size: u32) -> usize
    requires { size ≤ 15 }
    ensures value { result ≡ 2 ^ size }
    ensures small { result ≤ 2 ^ 15 }
{
    1usize << size
}

/// So many empty slots.
fn no_slots(alloc: Global, count: usize) -> Result<Vec<bool>, NoMemory>
    ensures { IfOk result (λ v. v.items ≡ replicate count false) }
{
    let slots = Vec::from_elem(alloc, false, count)?;
    Ok(slots)
}

/// So many nodes without points.
fn no_points(alloc: Global, count: usize) -> Result<Vec<Node>, NoMemory>
    ensures room { IfOk result (λ ns. length ns.items ≡ count) }
    ensures blank { IfOk result (λ ns. AreBlank ns.items) }
{
    let mut nodes = Vec::with_capacity(alloc, count)?;
    for made in 0..count {
        let _made = made;
        nodes.push(Node::new(alloc)).map_err(|_| NoMemory)?;
    }
    Ok(nodes)
}

/// Takes in what has changed of the halves of a node, and drops their edits. The node stays in its
/// place.
fn visit_among<O: Signs, L: Ledger>(
    nodes: &mut [Node],
    work: &mut Work,
    alloc: Global,
    node: usize,
    now: &O,
    out: &mut Delta,
    steps: &mut Steps<L>,
) -> Result<(), NoMemory>
    requires real { IsReal (O.scene now.now) }
    requires some { 0 < node }
    requires small { node < 2 ^ 32 }
    requires room { 2 * node + 1 < length nodes.old }
    requires told { (n l r : Knot) → slice_get nodes.old node ≡ Some n → slice_get nodes.old (2 * node) ≡ Some l → slice_get nodes.old (2 * node + 1) ≡ Some r
        → IsTold node (O.scene now.now) n l r × IsRestingWith l.merge × IsRestingWith r.merge }
    ensures heard { OnOk result (IsHeard node (O.scene now.now) nodes.old nodes.new out.old out.new) }
    ensures tests { OnOk result (HalvesKeepOrder (merge_at nodes.old node) (chain_at nodes.old (2 * node)) (chain_at nodes.old (2 * node + 1)) → ArePaid out.old out.new steps.old steps.new) }
{
    let (above, below) = nodes.split_at_mut(2 * node);
    if above[node].goes_without(&below[1]) {
        return above[node].follow(work, &mut below[0]);
    }
    above[node].visit(
        work,
        alloc,
        node as u32,
        &below[0],
        &below[1],
        now,
        out,
        steps,
    )?;
    work.take_back(&mut below[0].edits);
    work.take_back(&mut below[1].edits);
    Ok(())
}

impl Branches {
    /// No slot holds its number.
    pub fn new(alloc: Global, size: u32) -> Result<Branches, NoMemory>
        requires low { 1 ≤ size }
        requires high { size ≤ 15 }
        ensures size { IfOk result (λ t. t.size ≡ size) }
        ensures slots { IfOk result (λ t. t.slots.items ≡ replicate (2 ^ size) false) }
        ensures blank { IfOk result (λ t. AreBlank t.nodes.items) }
        ensures sound { IfOk result IsSound }
    {
        let room = room_for(size);
        let slots = no_slots(alloc, room)?;
        let nodes = no_points(alloc, 2 * room)?;
        let doubts = no_doubts(alloc, 2 * room)?;
        Ok(Branches {
            alloc,
            size,
            slots,
            nodes,
            doubts,
            buffers: Work::new(alloc),
        })
    }

    /// Changes whether a slot holds its number, and puts the slot and those above it into doubt.
    pub fn put(&mut self, slot: u32, held: bool)
        requires sound { IsSound self.old }
        requires slot { slot < 2 ^ self.old.size }
        ensures size { self.new.size ≡ self.old.size }
        ensures slots { self.new.slots.items ≡ slice_set self.old.slots.items slot held }
        ensures nodes { self.new.nodes ≡ self.old.nodes }
        ensures sound { IsSound self.new }
    {
        let leaf = self.slots.len() + slot as usize;
        self.slots[slot as usize] = held;
        self.doubt_leaf(leaf);
    }

    /// Puts a leaf and the nodes above it into doubt.
    fn doubt_leaf(&mut self, leaf: usize)
        requires closed { IsClosed self.old.doubts.items }
        requires inside { leaf < length self.old.doubts.items }
        ensures same { self.new ≡ record self.old { doubts = self.new.doubts } }
        ensures closed { IsClosed self.new.doubts.items }
        ensures spread { IsSpread self.old.doubts.items self.new.doubts.items Below leaf }
    {
        doubt_path(&mut self.doubts, leaf, Doubt::Below);
    }

    /// Puts the nodes of failed facts into doubt.
    fn doubt_nodes(&mut self, failed: &[Placed])
        requires closed { IsClosed self.old.doubts.items }
        requires inside { (k : ℕ) (d : Put) → k < length failed.now → (slice_index_or failed.now k d).part < length self.old.doubts.items }
        ensures same { self.new ≡ record self.old { doubts = self.new.doubts } }
        ensures closed { IsClosed self.new.doubts.items }
        ensures doubted { IsDoubted self.old.doubts.items self.new.doubts.items failed.now (length failed.now) }
    {
        doubt_failed(&mut self.doubts, failed);
    }

    /// The settling law of the tree: repairs everything that has failed at one moment together, and
    /// takes in the slots that have changed. After it the chain of each node is the upper chain of
    /// the points under it, and each merge is settled. After want of memory it may not be used again.
    pub fn settle<O: Signs, L: Ledger>(
        &mut self,
        now: &O,
        failed: &[Placed],
        out: &mut Delta,
        steps: &mut Steps<L>,
    ) -> Result<(), NoMemory>
        requires real { IsReal (O.scene now.now) }
        requires sound { IsSound self.old }
        requires ready { IsReady (O.scene now.now) self.old failed.now }
        ensures size { OnOk result (self.new.size ≡ self.old.size) }
        ensures slots { OnOk result (self.new.slots.items ≡ self.old.slots.items) }
        ensures sound { OnOk result (IsSound self.new) }
        ensures right { OnOk result (AreRight (O.scene now.now) self.new) }
        ensures delta { OnOk result (HasChanged (tree_facts self.old.size self.old.nodes.items) (tree_facts self.new.size self.new.nodes.items) out.old out.new) }
        ensures tests { OnOk result (NodesKeepOrder self.old.size self.old.nodes.items self.new.nodes.items → steps.new + (5 * length out.old.born + length out.old.dropped) ≤ steps.old + (5 * length out.new.born + length out.new.dropped)) }
    {
        self.give_failed(failed)?;
        self.repair(now, out, steps)
    }

    /// The upper chain of all points.
    pub fn top(&self) -> &[u32]
        requires sound { IsSound self.now }
        ensures { result.now ≡ chain_at self.now.nodes.items 1 }
    {
        self.nodes[1].chain()
    }

    /// Gives each failed fact to its node, and puts these nodes into doubt.
    fn give_failed(&mut self, failed: &[Placed]) -> Result<(), NoMemory>
        requires shape { IsShaped self.old }
        requires inside { (k : ℕ) (d : Put) → k < length failed.now → (slice_index_or failed.now k d).part < length self.old.nodes.items }
        ensures shape { OnOk result (IsShaped self.new) }
        ensures size { OnOk result (self.new.size ≡ self.old.size) }
        ensures slots { OnOk result (self.new.slots.items ≡ self.old.slots.items) }
        ensures given { OnOk result (AreGiven self.old.nodes.items self.new.nodes.items failed.now) }
        ensures doubted { OnOk result (IsDoubted self.old.doubts.items self.new.doubts.items failed.now (length failed.now)) }
    {
        for placed in failed.iter() {
            let node = &mut self.nodes[placed.part as usize];
            node.keep_failed(*placed)?;
        }
        self.doubt_nodes(failed);
        Ok(())
    }

    fn has_work(&self, node: usize) -> bool
        requires shape { IsShaped self.now }
        requires inside { node < 2 * 2 ^ self.now.size }
        ensures { IsTrue result ↔ (doubt_in self.now.doubts.items node ≡ Doubt.Here) }
    {
        self.doubts[node].is_here()
    }

    /// Takes in whether a slot holds its number.
    fn visit_leaf(&mut self, leaf: usize) -> Result<(), NoMemory>
        requires shape { IsShaped self.old }
        requires low { 2 ^ self.old.size ≤ leaf }
        requires inside { leaf < 2 * 2 ^ self.old.size }
        requires none { merge_at self.old.nodes.items leaf ≡ None }
        ensures same { self.new ≡ record self.old { nodes = self.new.nodes } }
        ensures room { length self.new.nodes.items ≡ length self.old.nodes.items }
        ensures others { (u : ℕ) → u ≢ leaf → slice_get self.new.nodes.items u ≡ slice_get self.old.nodes.items u }
        ensures merge { merge_at self.new.nodes.items leaf ≡ None }
        ensures passed { OnOk result (passed_at self.new.nodes.items leaf ≡ own_chain (leaf - 2 ^ self.old.size) (slot_in self.old.slots.items (leaf - 2 ^ self.old.size))) }
        ensures leads { OnOk result (Leads (edits_at self.new.nodes.items leaf) (passed_at self.old.nodes.items leaf) (passed_at self.new.nodes.items leaf)) }
        ensures failed { failed_at self.new.nodes.items leaf ≡ failed_at self.old.nodes.items leaf }
    {
        let slot = leaf - self.slots.len();
        let number = [slot as u32];
        let held = self.slots[slot];
        let node = &mut self.nodes[leaf];
        let work = &mut self.buffers;
        node.hand_on(work, self.alloc, if held { &number } else { &[] })
    }

    /// Takes in what has changed of the halves of a node, and repairs what has failed.
    fn visit<O: Signs, L: Ledger>(
        &mut self,
        node: usize,
        now: &O,
        out: &mut Delta,
        steps: &mut Steps<L>,
    ) -> Result<(), NoMemory>
        requires real { IsReal (O.scene now.now) }
        requires shape { IsShaped self.old }
        requires some { 0 < node }
        requires inner { node < 2 ^ self.old.size }
        requires told { (n l r : Knot) → slice_get self.old.nodes.items node ≡ Some n → slice_get self.old.nodes.items (2 * node) ≡ Some l → slice_get self.old.nodes.items (2 * node + 1) ≡ Some r
            → IsTold node (O.scene now.now) n l r × IsRestingWith l.merge × IsRestingWith r.merge }
        ensures same { self.new ≡ record self.old { nodes = self.new.nodes } }
        ensures visited { OnOk result (IsHeard node (O.scene now.now) self.old.nodes.items self.new.nodes.items out.old out.new) }
        ensures tests { OnOk result (HalvesKeepOrder (merge_at self.old.nodes.items node) (chain_at self.old.nodes.items (2 * node)) (chain_at self.old.nodes.items (2 * node + 1)) → ArePaid out.old out.new steps.old steps.new) }
    {
        visit_among(
            &mut self.nodes,
            &mut self.buffers,
            self.alloc,
            node,
            now,
            out,
            steps,
        )
    }

    /// Visits a node where it has work, and clears it. Where its chain has changed, the node above
    /// has work, too.
    fn renew<O: Signs, L: Ledger>(
        &mut self,
        node: usize,
        now: &O,
        out: &mut Delta,
        steps: &mut Steps<L>,
    ) -> Result<(), NoMemory>
        requires real { IsReal (O.scene now.now) }
        requires walked { IsWalked (O.scene now.now) self.old }
        requires next { IsLowest self.old.doubts.items node }
        ensures walked { OnOk result (IsWalked (O.scene now.now) self.new) }
        ensures renewed { OnOk result (IsRenewed node self.old self.new out.old out.new) }
        ensures tests { OnOk result (HalvesKeepOrder (merge_at self.old.nodes.items node) (chain_at self.old.nodes.items (2 * node)) (chain_at self.old.nodes.items (2 * node + 1)) → ArePaid out.old out.new steps.old steps.new) }
    {
        self.work(node, now, out, steps)?;
        self.clear(node);
        Ok(())
    }

    /// Visits a node where it has work.
    fn work<O: Signs, L: Ledger>(
        &mut self,
        node: usize,
        now: &O,
        out: &mut Delta,
        steps: &mut Steps<L>,
    ) -> Result<(), NoMemory>
        requires real { IsReal (O.scene now.now) }
        requires walked { IsWalked (O.scene now.now) self.old }
        requires next { IsLowest self.old.doubts.items node }
        ensures same { self.new ≡ record self.old { nodes = self.new.nodes } }
        ensures worked { OnOk result (IsWorked (O.scene now.now) self.old.size node self.old.nodes.items self.new.nodes.items out.old out.new) }
        ensures tests { OnOk result (HalvesKeepOrder (merge_at self.old.nodes.items node) (chain_at self.old.nodes.items (2 * node)) (chain_at self.old.nodes.items (2 * node + 1)) → ArePaid out.old out.new steps.old steps.new) }
    {
        if node >= self.slots.len() {
            return self.visit_leaf(node);
        }
        if self.has_work(node) {
            return self.visit(node, now, out, steps);
        }
        Ok(())
    }

    /// Whether the chain of a node has changed.
    fn tells(&self, node: usize) -> bool
        requires inside { node < length self.now.nodes.items }
        ensures told { IsTrue result → edits_at self.now.nodes.items node ≢ [] }
        ensures quiet { IsFalse result → edits_at self.now.nodes.items node ≡ [] }
    {
        !self.nodes[node].edits.is_empty()
    }

    /// Clears a node. Where its chain has changed, the node above has work.
    fn clear(&mut self, node: usize)
        requires shape { IsShaped self.old }
        requires inside { node < 2 * 2 ^ self.old.size }
        ensures same { self.new ≡ record self.old { doubts = self.new.doubts } }
        ensures quiet { edits_at self.old.nodes.items node ≡ [] → self.new.doubts.items ≡ slice_set self.old.doubts.items node Doubt.Clear }
        ensures told { edits_at self.old.nodes.items node ≢ [] → self.new.doubts.items ≡ slice_set (slice_set self.old.doubts.items (node / 2) Doubt.Here) node Doubt.Clear }
    {
        if self.tells(node) {
            self.doubts[node / 2] = Doubt::Here;
        }
        self.doubts[node] = Doubt::Clear;
    }

    /// Drops the edits of the root, which no node takes in.
    fn quiet_root(&mut self)
        requires shape { IsShaped self.old }
        ensures { IsAtPeace self.old self.new }
    {
        self.nodes[1].edits.clear();
    }

    /// Visits every node in doubt, the halves of a node before the node. The doubts lead the way
    /// down, and only nodes in doubt are looked at.
    fn repair<O: Signs, L: Ledger>(
        &mut self,
        now: &O,
        out: &mut Delta,
        steps: &mut Steps<L>,
    ) -> Result<(), NoMemory>
        requires real { IsReal (O.scene now.now) }
        requires walked { IsWalked (O.scene now.now) self.old }
        requires quiet { (v : ℕ) → 0 < v → edits_at self.old.nodes.items v ≡ [] }
        ensures size { OnOk result (self.new.size ≡ self.old.size) }
        ensures slots { OnOk result (self.new.slots.items ≡ self.old.slots.items) }
        ensures sound { OnOk result (IsSound self.new) }
        ensures right { OnOk result (AreRight (O.scene now.now) self.new) }
        ensures delta { OnOk result (HasChanged (tree_facts self.old.size self.old.nodes.items) (tree_facts self.new.size self.new.nodes.items) out.old out.new) }
        ensures tests { OnOk result (NodesKeepOrder self.old.size self.old.nodes.items self.new.nodes.items → ArePaid out.old out.new steps.old steps.new) }
    {
        let mut node = first_doubt(&self.doubts, 1);
        while node > 0 {
            self.renew(node, now, out, steps)?;
            node = next_doubt(&self.doubts, node);
        }
        self.quiet_root();
        Ok(())
    }
}
