//! A tree over the places in F. Each node knows the leaders of the numbers at the places under it.
//!
//! The nodes are in one row: the root is node 1, the halves of node v are 2v and 2v + 1, and the leaf of place p is
//! node `room + p`. A node that isn't a leaf holds the leaders of its halves together, so a change spoils no node but
//! those above it, and these only as far as they change.

ghost use Rattle.std.specs.Prelude.{◌≡◌, ℕ, ◌+◌, ◌*◌, ◌/◌, ◌^◌, ◌<◌, ◌≤◌, ◌⊎◌, ◌-◌, [], None, Some, true, false, length, replicate, slice_set, slice_get, IfOk, OnOk};
ghost use Rattle.kin_rank.specs.Leading.{IsKnown};
ghost use Rattle.kin_rank.specs.Trees.{at_node, joined_at, leaf, AreLeavesBut, AreSameLeaves, IsAbove, IsJoinedBut, IsMeeting, IsTree, NoNode};

use crate::leaders::{Leaders, are_same, joined};
use std::alloc::{AllocError, Global};

/// The tree, or none where it has no nodes.
#[derive(Drop)]
pub struct Tree {
    pub nodes: Vec<Option<Leaders>>,
}

/// The lowest node that is above both, or is one of them.
fn meeting(a: usize, b: usize) -> usize
    ensures meets { IsMeeting a b result }
    ensures within { result ≤ a }
    ensures above { (a ≡ b → ⊥) → result ≤ a / 2 }
{
    let (mut left, mut right) = (a, b);
    while left != right {
        left /= 2;
        right /= 2;
    }
    left
}

/// What the leaf of a place holds.
fn leaf(items: &[u32], place: usize) -> Option<Leaders>
    ensures { result ≡ leaf items.now place }
{
    if place < items.len() {
        Some(Leaders::of(items[place]))
    } else {
        None
    }
}

impl Tree {
    /// No tree.
    pub fn none(alloc: Global) -> Tree
        ensures { result.nodes.items ≡ [] }
    {
        Tree {
            nodes: Vec::new(alloc),
        }
    }

    /// A tree without numbers, for so many places.
    pub fn vacant(alloc: Global, room: usize) -> Result<Tree, AllocError>
        requires { room ≤ 2 ^ 15 }
        ensures { IfOk result (λ t. t.nodes.items ≡ replicate (2 * room) None) }
    {
        Ok(Tree {
            nodes: Vec::from_elem(alloc, None, 2 * room)?,
        })
    }

    /// Whether there is a tree.
    pub fn is_there(&self) -> bool
        ensures some { result ≡ true → 0 < length self.now.nodes.items }
        ensures none { result ≡ false → self.now.nodes.items ≡ [] }
    {
        !self.nodes.is_empty()
    }

    /// Joins the halves of a node anew. Answers whether that changed it.
    fn renew(&mut self, g: &[u32], t: &[u32], node: usize) -> bool
        requires count { length self.old.nodes.items ≡ 2 * length g.now }
        requires same { length t.now ≡ length g.now }
        requires known { (v : ℕ) → IsKnown (length g.now) (at_node self.old.nodes.items v) }
        requires inner { node < length g.now }
        ensures nodes { self.new.nodes.items ≡ slice_set self.old.nodes.items node (joined_at g.now t.now self.old.nodes.items node) }
        ensures same { result ≡ false → self.new.nodes.items ≡ self.old.nodes.items }
    {
        let leaders = joined(g, t, self.nodes[2 * node], self.nodes[2 * node + 1]);
        if are_same(leaders, self.nodes[node]) {
            return false;
        }
        self.nodes[node] = leaders;
        true
    }

    /// Mends a spoilt node and those above it, up to the first that stays as it was.
    fn climb(&mut self, g: &[u32], t: &[u32], from: usize)
        requires same { length t.now ≡ length g.now }
        requires inner { from < length g.now }
        requires spoilt { IsJoinedBut g.now t.now self.old.nodes.items (λ v. v ≡ from) }
        ensures joins { IsJoinedBut g.now t.now self.new.nodes.items NoNode }
        ensures leaves { AreSameLeaves (length g.now) self.old.nodes.items self.new.nodes.items }
    {
        let mut node = from;
        while node > 0 {
            if !self.renew(g, t, node) {
                return;
            }
            node /= 2;
        }
    }

    /// Mends both ways up from two leaves. Where they meet, the places under the node are the same as before, so it
    /// stays as it was, and the climb ends there.
    fn climb_both(&mut self, g: &[u32], t: &[u32], a: usize, b: usize)
        requires same { length t.now ≡ length g.now }
        requires a { a < 2 * length g.now }
        requires b { b < 2 * length g.now }
        requires spoilt { IsJoinedBut g.now t.now self.old.nodes.items (λ v. (v ≡ a / 2) ⊎ (v ≡ b / 2)) }
        ensures joins { IsJoinedBut g.now t.now self.new.nodes.items NoNode }
        ensures leaves { AreSameLeaves (length g.now) self.old.nodes.items self.new.nodes.items }
    {
        let (mut left, mut right) = (a / 2, b / 2);
        while left != right {
            self.renew(g, t, left);
            self.renew(g, t, right);
            left /= 2;
            right /= 2;
        }
        self.climb(g, t, left);
    }

    /// Mends the nodes from one up to another.
    fn renew_all(&mut self, g: &[u32], t: &[u32], from: usize, to: usize)
        requires same { length t.now ≡ length g.now }
        requires inner { to < length g.now }
        requires spoilt { IsJoinedBut g.now t.now self.old.nodes.items (IsAbove from to) }
        ensures spoilt { IsJoinedBut g.now t.now self.new.nodes.items (IsAbove (from / 2) (to / 2)) }
        ensures leaves { AreSameLeaves (length g.now) self.old.nodes.items self.new.nodes.items }
    {
        for node in from..to + 1 {
            self.renew(g, t, node);
        }
    }

    /// Mends all nodes above those from one up to another, level by level.
    fn renew_above(&mut self, g: &[u32], t: &[u32], from: usize, to: usize)
        requires same { length t.now ≡ length g.now }
        requires to { to < 2 * length g.now }
        requires spoilt { IsJoinedBut g.now t.now self.old.nodes.items (IsAbove (from / 2) (to / 2)) }
        ensures joins { IsJoinedBut g.now t.now self.new.nodes.items NoNode }
        ensures leaves { AreSameLeaves (length g.now) self.old.nodes.items self.new.nodes.items }
    {
        let (mut low, mut high) = (from / 2, to / 2);
        while high > 0 {
            self.renew_all(g, t, low, high);
            low /= 2;
            high /= 2;
        }
    }

    /// Makes the leaves of some places and all nodes above them anew. The other leaves are right.
    pub fn regrow(&mut self, items: &[u32], g: &[u32], t: &[u32], from: usize, end: usize)
        requires same { length t.now ≡ length g.now }
        requires small { length g.now ≤ 2 ^ 15 }
        requires within { (p x : ℕ) → slice_get items.now p ≡ Some x → x < length g.now }
        requires some { from < end }
        requires room { end ≤ length g.now }
        requires leaves { AreLeavesBut items.now (length g.now) self.old.nodes.items (λ p. (from ≤ p) × (p < end)) }
        requires spoilt { IsJoinedBut g.now t.now self.old.nodes.items (IsAbove ((length g.now + from) / 2) ((length g.now + end - 1) / 2)) }
        ensures { IsTree items.now g.now t.now self.new.nodes.items }
    {
        for p in from..end {
            self.nodes[g.len() + p] = leaf(items, p);
        }
        self.renew_above(g, t, g.len() + from, g.len() + end - 1);
    }

    /// Follows an exchange in F: the leaves of a place and the next, and both ways up.
    pub fn exchange_leaves(&mut self, items: &[u32], g: &[u32], t: &[u32], place: usize)
        requires same { length t.now ≡ length g.now }
        requires small { length g.now ≤ 2 ^ 15 }
        requires within { (p x : ℕ) → slice_get items.now p ≡ Some x → x < length g.now }
        requires room { place + 1 < length g.now }
        requires leaves { AreLeavesBut items.now (length g.now) self.old.nodes.items (λ p. (p ≡ place) ⊎ (p ≡ place + 1)) }
        requires joins { IsJoinedBut g.now t.now self.old.nodes.items NoNode }
        ensures { IsTree items.now g.now t.now self.new.nodes.items }
    {
        let (a, b) = (g.len() + place, g.len() + place + 1);
        self.nodes[a] = leaf(items, place);
        self.nodes[b] = leaf(items, place + 1);
        self.climb_both(g, t, a, b);
    }

    /// Follows an exchange in G or T of the numbers at two places in F. Of the nodes that it can change, the lowest
    /// is the one above both.
    pub fn follow(&mut self, g: &[u32], t: &[u32], a: usize, b: usize)
        requires same { length t.now ≡ length g.now }
        requires small { length g.now ≤ 2 ^ 15 }
        requires a { a < length g.now }
        requires b { b < length g.now }
        requires apart { a ≡ b → ⊥ }
        requires spoilt { (m : ℕ) → IsMeeting (length g.now + a) (length g.now + b) m → IsJoinedBut g.now t.now self.old.nodes.items (λ v. v ≡ m) }
        ensures joins { IsJoinedBut g.now t.now self.new.nodes.items NoNode }
        ensures leaves { AreSameLeaves (length g.now) self.old.nodes.items self.new.nodes.items }
    {
        let from = meeting(g.len() + a, g.len() + b);
        self.climb(g, t, from);
    }
}
