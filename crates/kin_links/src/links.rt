//! The lists as their callers see them.

ghost use Rattle.std.specs.Prelude.{◌≡◌, ℕ, ◌+◌, ◌<◌, [], ◌∷◌, ◌++◌, List, length, remove, slice_get, slice_set, Some, None, IfOk, OnErr, MatchOption};
ghost use Rattle.kin_links.specs.declared.node.Gap.TheVariants.{Front, Behind};
ghost use Rattle.kin_links.specs.Family.{Linked, Standing, AreApart, HasLinked, IsNodeAt, exchanged};
ghost use Rattle.kin_links.specs.Pointers.{gap_at};

use crate::arena::Arena;
use crate::node::{Gap, Node};
use kin_num::memory::NoMemory;
use slab::Slab;
use std::alloc::Global;
use std::marker::Model;

/// The name of a list.
#[derive(Clone, Copy, Debug, PartialEq, Eq)]
pub struct ListId(pub usize);

/// The name of a node. It is given out again only after the node was unlinked.
#[derive(Clone, Copy, Debug, PartialEq, Eq)]
pub struct NodeId(pub usize);

/// Many doubly linked lists in one arena. A call changes one list and leaves every other list as it
/// was. Each call is meant to take the same few steps, whatever the lists hold; no clause says so.
#[derive(Drop)]
pub struct Links<T: Copy> {
    arena: Arena<T>,
}

impl<T: Copy> Model for Links<T> {
    ghost use Rattle.std.specs.Prelude.{List};
    ghost use Rattle.kin_links.specs.Family.{Linked};
    ghost use Rattle.kin_links.specs.Pointers.{pointers, lists_of, IsFamily};

    ghost Value = { List (List (Linked T)) };

    ghost view = { λ a. lists_of (pointers a.arena.firsts.items a.arena.nodes.slots) };

    ghost invariant = { λ a. IsFamily (pointers a.arena.firsts.items a.arena.nodes.slots) (lists_of (pointers a.arena.firsts.items a.arena.nodes.slots)) };
}

fn named(node: Option<usize>) -> Option<NodeId>
    ensures { MatchOption result (node ≡ None) (λ n. node ≡ Some n.0) }
{
    match node {
        Some(node) => Some(NodeId(node)),
        None => None,
    }
}

fn node_before(gap: Gap) -> Option<NodeId>
    ensures { MatchOption result ((l : ℕ) × (gap ≡ Front l)) (λ n. gap ≡ Behind n.0) }
{
    match gap {
        Gap::Front(_) => None,
        Gap::Behind(node) => Some(NodeId(node)),
    }
}

impl<T: Copy> Links<T> {
    /// No lists.
    pub fn new(alloc: Global) -> Links<T>
        ensures { result ≡ [] }
    {
        Links {
            arena: Arena {
                firsts: Vec::new(alloc),
                nodes: Slab::new(alloc),
            },
        }
    }

    /// Makes a new list, with no items.
    pub fn new_list(&mut self) -> Result<ListId, NoMemory>
        ensures ok { IfOk result (λ list. (list.0 ≡ length self.old) × (self.new ≡ self.old ++ [] ∷ [])) }
        ensures err { OnErr result (self.new ≡ self.old) }
    {
        let list = self.arena.count();
        self.arena.add_list()?;
        Ok(ListId(list))
    }

    /// Puts an item in at the front of a list.
    pub fn push_front(&mut self, list: ListId, item: T) -> Result<NodeId, NoMemory>
        requires { list.0 < length self.old }
        ensures ok { IfOk result (λ node. HasLinked self.old self.new list.0 0 node.0 item) }
        ensures err { OnErr result (self.new ≡ self.old) }
    {
        self.link_in(Gap::Front(list.0), item)
    }

    /// Puts an item in after a node.
    pub fn link_after(&mut self, node: NodeId, item: T) -> Result<NodeId, NoMemory>
        requires { Standing self.old node.0 }
        ensures ok { IfOk result (λ new. (s : Standing self.old node.0) → HasLinked self.old self.new s.list (s.place + 1) new.0 item) }
        ensures err { OnErr result (self.new ≡ self.old) }
    {
        self.link_in(Gap::Behind(node.0), item)
    }

    /// Puts an item into a gap.
    fn link_in(&mut self, gap: Gap, item: T) -> Result<NodeId, NoMemory>
        requires { (l i : ℕ) × (xs : List (Linked T)) × (slice_get self.old l ≡ Some xs) × (gap_at l xs i ≡ Some gap) }
        ensures ok { IfOk result (λ node. (l i : ℕ) (xs : List (Linked T)) → slice_get self.old l ≡ Some xs → gap_at l xs i ≡ Some gap → HasLinked self.old self.new l i node.0 item) }
        ensures err { OnErr result (self.new ≡ self.old) }
    {
        self.arena.nodes.reserve(1)?;
        let node = self.arena.nodes.insert_reserved(Node {
            item,
            prev: gap,
            next: None,
        });
        self.arena.attach(node, gap);
        Ok(NodeId(node))
    }

    /// Takes a node out of its list, and gives its item.
    pub fn unlink(&mut self, node: NodeId) -> T
        requires { Standing self.old node.0 }
        ensures unlinked { (s : Standing self.old node.0) → (result ≡ s.item) × (self.new ≡ slice_set self.old s.list (remove s.items s.place)) }
        ensures apart { AreApart self.old }
    {
        self.arena.detach(node.0);
        let node = self.arena.nodes.remove(node.0);
        node.item
    }

    /// Exchanges the places of a node and the next one.
    pub fn swap_next(&mut self, node: NodeId)
        requires { (s : Standing self.old node.0) × (s.place + 1 < length s.items) }
        ensures { (s : Standing self.old node.0) (next : Linked T) → slice_get s.items (s.place + 1) ≡ Some next → self.new ≡ slice_set self.old s.list (exchanged s.items s.place (record { node = node.0; item = s.item }) next) }
    {
        if let Some(next) = self.arena.nodes[node.0].next {
            self.arena.detach(node.0);
            self.arena.attach(node.0, Gap::Behind(next));
        }
    }

    /// The first node of a list.
    pub fn first(&self, list: ListId) -> Option<NodeId>
        requires { list.0 < length self.now }
        ensures apart { AreApart self.now }
        ensures first { (items : List (Linked T)) → slice_get self.now list.0 ≡ Some items → MatchOption result (items ≡ []) (λ node. IsNodeAt items 0 node.0) }
    {
        named(self.arena.next_of(Gap::Front(list.0)))
    }

    /// The node after a node.
    pub fn next(&self, node: NodeId) -> Option<NodeId>
        requires { Standing self.now node.0 }
        ensures apart { AreApart self.now }
        ensures next { (s : Standing self.now node.0) → MatchOption result (s.place + 1 ≡ length s.items) (λ next. IsNodeAt s.items (s.place + 1) next.0) }
    {
        named(self.arena.next_of(Gap::Behind(node.0)))
    }

    /// The node before a node.
    pub fn prev(&self, node: NodeId) -> Option<NodeId>
        requires { Standing self.now node.0 }
        ensures { (s : Standing self.now node.0) → MatchOption result (s.place ≡ 0) (λ prev. (place : ℕ) × (place + 1 ≡ s.place) × IsNodeAt s.items place prev.0) }
    {
        node_before(self.arena.prev_of(node.0))
    }

    /// The item of a node.
    pub fn item(&self, node: NodeId) -> T
        requires { Standing self.now node.0 }
        ensures { (s : Standing self.now node.0) → result ≡ s.item }
    {
        self.arena.item_of(node.0)
    }
}
