//! The nodes of all lists, and their pointers.

ghost use Rattle.std.specs.Prelude.{◌≡◌, ◌≢◌, ℕ, ◌++◌, ◌∷◌, [], Some, None, IsSome, OnOk, OnErr, length};
ghost use Rattle.slab.specs.Slab.{get};
ghost use Rattle.kin_links.specs.declared.node.Gap.TheVariants.{Behind};
ghost use Rattle.kin_links.specs.declared.node.Gap.{Gap as GapValue};
ghost use Rattle.kin_links.specs.Pointers.{pointers, IsHeld, HasNext, HasPrev, IsDetached, IsAttached};

use crate::node::{Gap, Node};
use kin_num::memory::NoMemory;
use slab::Slab;

/// The first node of each list, and the nodes by their ids.
#[derive(Drop)]
pub struct Arena<T: Copy> {
    pub firsts: Vec<Option<usize>>,
    pub nodes: Slab<Node<T>>,
}

impl<T: Copy> Arena<T> {
    /// How many lists there are.
    pub fn count(&self) -> usize
        ensures { result ≡ length self.now.firsts.items }
    {
        self.firsts.len()
    }

    /// Makes one more list.
    pub fn add_list(&mut self) -> Result<(), NoMemory>
        ensures ok { OnOk result (self.new.firsts.items ≡ self.old.firsts.items ++ None ∷ []) }
        ensures err { OnErr result (self.new.firsts.items ≡ self.old.firsts.items) }
        ensures nodes { self.new.nodes ≡ self.old.nodes }
    {
        match self.firsts.push(None) {
            Ok(()) => Ok(()),
            Err(_) => Err(NoMemory),
        }
    }

    /// The node after a gap.
    pub fn next_of(&self, gap: Gap) -> Option<usize>
        requires { IsHeld (pointers self.now.firsts.items self.now.nodes.slots) gap }
        ensures { result ≡ (pointers self.now.firsts.items self.now.nodes.slots).next gap }
    {
        match gap {
            Gap::Front(list) => self.firsts[list],
            Gap::Behind(node) => self.nodes[node].next,
        }
    }

    /// The gap before a node.
    pub fn prev_of(&self, node: usize) -> Gap
        requires { IsSome (get self.now.nodes node) }
        ensures { (pointers self.now.firsts.items self.now.nodes.slots).prev node ≡ Some result }
    {
        self.nodes[node].prev
    }

    /// The item of a node.
    pub fn item_of(&self, node: usize) -> T
        requires { IsSome (get self.now.nodes node) }
        ensures { (pointers self.now.firsts.items self.now.nodes.slots).item node ≡ Some result }
    {
        self.nodes[node].item
    }

    fn set_next(&mut self, gap: Gap, next: Option<usize>)
        requires { IsHeld (pointers self.old.firsts.items self.old.nodes.slots) gap }
        ensures next { HasNext (pointers self.old.firsts.items self.old.nodes.slots) (pointers self.new.firsts.items self.new.nodes.slots) gap next }
        ensures room { length self.new.nodes.slots ≡ length self.old.nodes.slots }
    {
        match gap {
            Gap::Front(list) => self.firsts[list] = next,
            Gap::Behind(node) => self.nodes[node].next = next,
        }
    }

    fn set_prev(&mut self, next: Option<usize>, gap: Gap)
        requires { (k : ℕ) → next ≡ Some k → IsSome (get self.old.nodes k) }
        ensures prev { HasPrev (pointers self.old.firsts.items self.old.nodes.slots) (pointers self.new.firsts.items self.new.nodes.slots) next gap }
        ensures room { length self.new.nodes.slots ≡ length self.old.nodes.slots }
    {
        if let Some(node) = next {
            self.nodes[node].prev = gap;
        }
    }

    /// Takes a node out of its list. It stays in the arena.
    pub fn detach(&mut self, node: usize)
        requires node { IsSome (get self.old.nodes node) }
        requires held { (gap : GapValue) → (pointers self.old.firsts.items self.old.nodes.slots).prev node ≡ Some gap → IsHeld (pointers self.old.firsts.items self.old.nodes.slots) gap }
        requires next { (k : ℕ) → (pointers self.old.firsts.items self.old.nodes.slots).next (Behind node) ≡ Some k → IsSome (get self.old.nodes k) }
        ensures detached { IsDetached (pointers self.old.firsts.items self.old.nodes.slots) (pointers self.new.firsts.items self.new.nodes.slots) node }
        ensures room { length self.new.nodes.slots ≡ length self.old.nodes.slots }
    {
        let Node { prev, next, .. } = self.nodes[node];
        self.set_next(prev, next);
        self.set_prev(next, prev);
    }

    /// Puts a node that is in no list into a gap.
    pub fn attach(&mut self, node: usize, gap: Gap)
        requires node { IsSome (get self.old.nodes node) }
        requires apart { gap ≢ Behind node }
        requires held { IsHeld (pointers self.old.firsts.items self.old.nodes.slots) gap }
        requires next { (k : ℕ) → (pointers self.old.firsts.items self.old.nodes.slots).next gap ≡ Some k → (k ≢ node) × IsSome (get self.old.nodes k) }
        ensures attached { IsAttached (pointers self.old.firsts.items self.old.nodes.slots) (pointers self.new.firsts.items self.new.nodes.slots) node gap }
        ensures room { length self.new.nodes.slots ≡ length self.old.nodes.slots }
    {
        let next = self.next_of(gap);
        self.set_next(gap, Some(node));
        self.set_next(Gap::Behind(node), next);
        self.set_prev(Some(node), gap);
        self.set_prev(next, Gap::Behind(node));
    }
}
