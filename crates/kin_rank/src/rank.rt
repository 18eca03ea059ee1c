//! Three lists of the same numbers, as their callers see them.

ghost use Rattle.std.specs.Prelude.{◌≡◌, ℕ, ◌+◌, ◌<◌, ◌≤◌, ◌^◌, [], Some, true, false, length, insert, slice_get, swap, IfOk, OnOk, OnErr};
ghost use Rattle.kin_rank.specs.Ranking.{first_in, has, in_ranges, without, AreDistinct, AreSame};

use crate::lists::Lists;
use kin_num::memory::NoMemory;
use std::alloc::Global;
use std::marker::Model;

/// Three lists F, G and T of the same numbers below `2^size`, each number once in each list.
///
/// A tree over the places in F may be there or not. It makes `first_in` fast where few numbers or none qualify; the
/// calls mean the same with it and without it.
#[derive(Drop)]
pub struct Rank {
    alloc: Global,
    lists: Lists,
}

impl Model for Rank {
    ghost use Rattle.kin_rank.specs.Ranking.{Ranking};
    ghost use Rattle.kin_rank.specs.Sound.{ranking, IsSound};

    ghost Value = { Ranking };

    ghost view = { λ r. ranking r.lists };

    ghost invariant = { λ r. IsSound r.lists };
}

impl Rank {
    /// Empty lists for the numbers below `2^size`, without a tree.
    pub fn new(alloc: Global, size: u32) -> Result<Rank, NoMemory>
        requires { size ≤ 12 }
        ensures { IfOk result (λ r. r ≡ record { f = []; g = []; t = []; size = size }) }
    {
        let lists = Lists::new(alloc, size)?;
        Ok(Rank { alloc, lists })
    }

    /// These lists, with a tree. Each has the same numbers, each of them once and below `2^size`. It takes time for
    /// each number and each leaf once; to insert the numbers one by one takes time of their number squared.
    pub fn with_tree(
        alloc: Global,
        size: u32,
        f: &[u32],
        g: &[u32],
        t: &[u32],
    ) -> Result<Rank, NoMemory>
        requires few { size ≤ 12 }
        requires within { (p x : ℕ) → slice_get f.now p ≡ Some x → x < 2 ^ size }
        requires f_apart { AreDistinct f.now }
        requires g_apart { AreDistinct g.now }
        requires t_apart { AreDistinct t.now }
        requires same_g { AreSame f.now g.now }
        requires same_t { AreSame f.now t.now }
        ensures { IfOk result (λ r. r ≡ record { f = f.now; g = g.now; t = t.now; size = size }) }
    {
        let mut lists = Lists::from_slices(alloc, size, f, g, t)?;
        lists.plant(alloc)?;
        Ok(Rank { alloc, lists })
    }

    /// How many numbers there are.
    pub fn len(&self) -> usize
        ensures f { result ≡ length self.now.f }
        ensures g { result ≡ length self.now.g }
        ensures t { result ≡ length self.now.t }
    {
        self.lists.len()
    }

    /// The numbers are below this.
    pub fn room(&self) -> usize
        ensures { result ≡ 2 ^ self.now.size }
    {
        self.lists.f.places.len()
    }

    /// Whether a number is there.
    pub fn has(&self, no: u32) -> bool
        ensures { result ≡ has self.now.f no }
    {
        self.lists.f.has(no)
    }

    /// Makes the tree from the lists as they are. `NoMemory` changes nothing.
    pub fn plant_tree(&mut self) -> Result<(), NoMemory>
        ensures { self.new ≡ self.old }
    {
        self.lists.plant(self.alloc)
    }

    /// Puts a new number in at these places. Each is at most the length of the lists. `NoMemory` changes nothing.
    pub fn insert(&mut self, no: u32, f: u32, g: u32, t: u32) -> Result<(), NoMemory>
        requires within { no < 2 ^ self.old.size }
        requires new { has self.old.f no ≡ false }
        requires f { f ≤ length self.old.f }
        requires g { g ≤ length self.old.g }
        requires t { t ≤ length self.old.t }
        ensures ok { OnOk result (self.new ≡ record self.old { f = insert self.old.f f no; g = insert self.old.g g no; t = insert self.old.t t no }) }
        ensures err { OnErr result (self.new ≡ self.old) }
    {
        self.lists.reserve()?;
        self.lists.put_in(no, f as usize, g as usize, t as usize);
        Ok(())
    }

    /// Takes a number out, which is there.
    pub fn remove(&mut self, no: u32)
        requires { has self.old.f no ≡ true }
        ensures { self.new ≡ record self.old { f = without no self.old.f; g = without no self.old.g; t = without no self.old.t } }
    {
        self.lists.take_out(no);
    }

    /// Exchanges the numbers at a place in F and the next.
    pub fn swap_f(&mut self, place: u32)
        requires { place + 1 < length self.old.f }
        ensures { self.new ≡ record self.old { f = swap self.old.f place (place + 1) } }
    {
        self.lists.exchange_in_f(place as usize);
    }

    /// Exchanges the numbers at a place in G and the next.
    pub fn swap_g(&mut self, place: u32)
        requires { place + 1 < length self.old.g }
        ensures { self.new ≡ record self.old { g = swap self.old.g place (place + 1) } }
    {
        self.lists.exchange_in_g(place as usize);
    }

    /// Exchanges the numbers at a place in T and the next.
    pub fn swap_t(&mut self, place: u32)
        requires { place + 1 < length self.old.t }
        ensures { self.new ≡ record self.old { t = swap self.old.t place (place + 1) } }
    {
        self.lists.exchange_in_t(place as usize);
    }

    /// The first number in T whose places in F and G are greater than these, or `None` exactly where there is none.
    pub fn first_in(&self, f_above: u32, g_above: u32) -> Option<u32>
        ensures { result ≡ first_in self.now f_above g_above }
    {
        self.lists.first_in(f_above, g_above)
    }

    /// The numbers whose places in F and G lie in these half-open ranges, rising. It looks at each number in the
    /// shorter range, and sorts what it found.
    pub fn in_ranges(&self, f: (u32, u32), g: (u32, u32)) -> Result<Vec<u32>, NoMemory>
        ensures { IfOk result (λ numbers. numbers.items ≡ in_ranges self.now f g) }
    {
        self.lists.in_ranges(self.alloc, f, g)
    }
}
