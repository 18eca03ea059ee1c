//! The three lists, and the tree over the places in the first.

ghost use Rattle.std.specs.Prelude.{◌≡◌, ℕ, ◌+◌, ◌<◌, ◌≤◌, ◌^◌, [], Some, true, false, length, insert, remove, slice_get, swap, vec_len, vec_capacity, IfOk, OnOk, OnErr};
ghost use Rattle.kin_rank.specs.Ranking.{has, without, AreDistinct, AreSame};
ghost use Rattle.kin_rank.specs.Sound.{AreListed, IsSound, IsSpoiltAbove};
ghost use Rattle.kin_rank.specs.Trees.{AreLeavesBut, NoNode};

use crate::order::Order;
use crate::tree::Tree;
use kin_num::memory::NoMemory;
use std::alloc::Global;

/// Three lists of the same numbers below `2^size`.
#[derive(Drop)]
pub struct Lists {
    pub size: u32,
    pub f: Order,
    pub g: Order,
    pub t: Order,
    /// Over the places in F; it may be none.
    pub tree: Tree,
}

/// How many numbers have this size.
fn room_for(size: u32) -> usize
    requires { size ≤ 12 }
    ensures value { result ≡ 2 ^ size }
    ensures small { result ≤ 2 ^ 15 }
{
    1 << size
}

impl Lists {
    /// Empty lists without a tree.
    pub fn new(alloc: Global, size: u32) -> Result<Lists, NoMemory>
        requires { size ≤ 12 }
        ensures sound { IfOk result (λ b. IsSound b) }
        ensures empty { IfOk result (λ b. (b.f.items.items ≡ []) × (b.g.items.items ≡ []) × (b.t.items.items ≡ []) × (b.size ≡ size)) }
    {
        let room = room_for(size);
        Ok(Lists {
            size,
            f: Order::new(alloc, room)?,
            g: Order::new(alloc, room)?,
            t: Order::new(alloc, room)?,
            tree: Tree::none(alloc),
        })
    }

    /// These lists, without a tree.
    pub fn from_slices(
        alloc: Global,
        size: u32,
        f: &[u32],
        g: &[u32],
        t: &[u32],
    ) -> Result<Lists, NoMemory>
        requires few { size ≤ 12 }
        requires within { (p x : ℕ) → slice_get f.now p ≡ Some x → x < 2 ^ size }
        requires f_apart { AreDistinct f.now }
        requires g_apart { AreDistinct g.now }
        requires t_apart { AreDistinct t.now }
        requires same_g { AreSame f.now g.now }
        requires same_t { AreSame f.now t.now }
        ensures sound { IfOk result (λ b. IsSound b) }
        ensures lists { IfOk result (λ b. (b.f.items.items ≡ f.now) × (b.g.items.items ≡ g.now) × (b.t.items.items ≡ t.now) × (b.size ≡ size)) }
    {
        let room = room_for(size);
        Ok(Lists {
            size,
            f: Order::from_slice(alloc, f, room)?,
            g: Order::from_slice(alloc, g, room)?,
            t: Order::from_slice(alloc, t, room)?,
            tree: Tree::none(alloc),
        })
    }

    /// How many numbers there are.
    pub fn len(&self) -> usize
        requires { IsSound self.now }
        ensures f { result ≡ length self.now.f.items.items }
        ensures g { result ≡ length self.now.g.items.items }
        ensures t { result ≡ length self.now.t.items.items }
    {
        self.f.items.len()
    }

    /// Makes the tree, in place of one that may be there.
    pub fn plant(&mut self, alloc: Global) -> Result<(), NoMemory>
        requires { IsSound self.old }
        ensures sound { IsSound self.new }
        ensures f { self.new.f ≡ self.old.f }
        ensures g { self.new.g ≡ self.old.g }
        ensures t { self.new.t ≡ self.old.t }
        ensures size { self.new.size ≡ self.old.size }
    {
        let mut tree = Tree::vacant(alloc, self.f.places.len())?;
        let end = self.f.items.len();
        if end > 0 {
            tree.regrow(&self.f.items, &self.g.places, &self.t.places, 0, end);
        }
        self.tree = tree;
        Ok(())
    }

    /// Makes room for one number more.
    pub fn reserve(&mut self) -> Result<(), NoMemory>
        requires { IsSound self.old }
        ensures sound { IsSound self.new }
        ensures f { self.new.f.items.items ≡ self.old.f.items.items }
        ensures g { self.new.g.items.items ≡ self.old.g.items.items }
        ensures t { self.new.t.items.items ≡ self.old.t.items.items }
        ensures size { self.new.size ≡ self.old.size }
        ensures f_room { OnOk result (vec_len self.new.f.items < vec_capacity self.new.f.items) }
        ensures g_room { OnOk result (vec_len self.new.g.items < vec_capacity self.new.g.items) }
        ensures t_room { OnOk result (vec_len self.new.t.items < vec_capacity self.new.t.items) }
    {
        self.f.reserve()?;
        self.g.reserve()?;
        self.t.reserve()?;
        Ok(())
    }

    /// Puts a new number in at these places. There is room for it.
    pub fn put_in(&mut self, no: u32, f: usize, g: usize, t: usize)
        requires sound { IsSound self.old }
        requires within { no < 2 ^ self.old.size }
        requires new { has self.old.f.items.items no ≡ false }
        requires f { f ≤ length self.old.f.items.items }
        requires g { g ≤ length self.old.g.items.items }
        requires t { t ≤ length self.old.t.items.items }
        requires f_room { vec_len self.old.f.items < vec_capacity self.old.f.items }
        requires g_room { vec_len self.old.g.items < vec_capacity self.old.g.items }
        requires t_room { vec_len self.old.t.items < vec_capacity self.old.t.items }
        ensures sound { IsSound self.new }
        ensures f { self.new.f.items.items ≡ insert self.old.f.items.items f no }
        ensures g { self.new.g.items.items ≡ insert self.old.g.items.items g no }
        ensures t { self.new.t.items.items ≡ insert self.old.t.items.items t no }
        ensures size { self.new.size ≡ self.old.size }
    {
        self.f.put_in(no, f);
        self.g.put_in(no, g);
        self.t.put_in(no, t);
        if self.tree.is_there() {
            let end = self.f.items.len();
            self.tree
                .regrow(&self.f.items, &self.g.places, &self.t.places, f, end);
        }
    }

    /// Takes a number out.
    pub fn take_out(&mut self, no: u32)
        requires sound { IsSound self.old }
        requires member { has self.old.f.items.items no ≡ true }
        ensures sound { IsSound self.new }
        ensures f { self.new.f.items.items ≡ without no self.old.f.items.items }
        ensures g { self.new.g.items.items ≡ without no self.old.g.items.items }
        ensures t { self.new.t.items.items ≡ without no self.old.t.items.items }
        ensures size { self.new.size ≡ self.old.size }
    {
        let place = self.f.take_out(no);
        self.g.take_out(no);
        self.t.take_out(no);
        if self.tree.is_there() {
            // The last leaf has no number any more.
            let end = self.f.items.len() + 1;
            self.tree
                .regrow(&self.f.items, &self.g.places, &self.t.places, place, end);
        }
    }

    /// Exchanges the numbers at a place in F and the next.
    pub fn exchange_in_f(&mut self, place: usize)
        requires sound { IsSound self.old }
        requires place { place + 1 < length self.old.f.items.items }
        ensures sound { IsSound self.new }
        ensures f { self.new.f.items.items ≡ swap self.old.f.items.items place (place + 1) }
        ensures g { self.new.g ≡ self.old.g }
        ensures t { self.new.t ≡ self.old.t }
        ensures size { self.new.size ≡ self.old.size }
    {
        self.f.exchange(place);
        if self.tree.is_there() {
            self.tree
                .exchange_leaves(&self.f.items, &self.g.places, &self.t.places, place);
        }
    }

    /// Exchanges the numbers at a place in G and the next.
    pub fn exchange_in_g(&mut self, place: usize)
        requires sound { IsSound self.old }
        requires place { place + 1 < length self.old.g.items.items }
        ensures sound { IsSound self.new }
        ensures f { self.new.f ≡ self.old.f }
        ensures g { self.new.g.items.items ≡ swap self.old.g.items.items place (place + 1) }
        ensures t { self.new.t ≡ self.old.t }
        ensures size { self.new.size ≡ self.old.size }
    {
        let (first, second) = self.g.exchange(place);
        self.follow(first, second);
    }

    /// Exchanges the numbers at a place in T and the next.
    pub fn exchange_in_t(&mut self, place: usize)
        requires sound { IsSound self.old }
        requires place { place + 1 < length self.old.t.items.items }
        ensures sound { IsSound self.new }
        ensures f { self.new.f ≡ self.old.f }
        ensures g { self.new.g ≡ self.old.g }
        ensures t { self.new.t.items.items ≡ swap self.old.t.items.items place (place + 1) }
        ensures size { self.new.size ≡ self.old.size }
    {
        let (first, second) = self.t.exchange(place);
        self.follow(first, second);
    }

    /// The tree follows an exchange of two numbers in G or T.
    fn follow(&mut self, a: u32, b: u32)
        requires listed { AreListed self.old }
        requires a { has self.old.f.items.items a ≡ true }
        requires b { has self.old.f.items.items b ≡ true }
        requires apart { a ≡ b → ⊥ }
        requires leaves { 0 < length self.old.tree.nodes.items → AreLeavesBut self.old.f.items.items (2 ^ self.old.size) self.old.tree.nodes.items NoNode }
        requires spoilt { IsSpoiltAbove self.old a b }
        ensures sound { IsSound self.new }
        ensures f { self.new.f ≡ self.old.f }
        ensures g { self.new.g ≡ self.old.g }
        ensures t { self.new.t ≡ self.old.t }
        ensures size { self.new.size ≡ self.old.size }
    {
        if self.tree.is_there() {
            let (a, b) = (self.f.places[a as usize], self.f.places[b as usize]);
            self.tree
                .follow(&self.g.places, &self.t.places, a as usize, b as usize);
        }
    }
}
