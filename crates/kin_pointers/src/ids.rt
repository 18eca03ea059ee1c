//! A set of ids.

ghost use Rattle.std.specs.Prelude.{◌≡◌, ℕ, ◌<◌, ◌≤◌, ◌^◌, ◌++◌, ◌∷◌, [], length, Contains, slice_get, IsTrue, ◌↔◌, OnOk, OnErr, IfSome, IfNone};
ghost use Rattle.kin_motion.specs.Sets.{AreDistinct};
ghost use Rattle.kin_pointers.specs.Ids.{IsWithout, ArePlaced, HaveRoom};

use crate::pointers::{append, strike};
use kin_num::memory::NoMemory;
use std::alloc::Global;
use std::marker::Model;

/// A set of ids in a list, where each id knows its place: a sparse set (Briggs and Torczon, "An Efficient Representation
/// for Sparse Sets", 1993). A place is written only when an id is looked for or taken out, once for each id that is put in;
/// so ids that are put in and popped again write none. Besides that, each call makes a few writes, but for the room that
/// `insert` may take.
#[derive(Drop)]
pub struct Ids {
    /// The ids, each once.
    ids: Vec<u32>,
    /// The place of each known id in the list. That of another id means nothing.
    places: Vec<u32>,
    /// How many ids are known, from the first one on: those whose places are written.
    known: usize,
}

impl Model for Ids {
    ghost use Rattle.std.specs.Prelude.{ℕ, List};
    ghost use Rattle.kin_pointers.specs.Ids.{IsIndexed};

    ghost Value = { List ℕ };

    ghost view = { λ s. s.ids.items };

    ghost invariant = { λ s. IsIndexed s.ids.items s.places.items s.known };
}

impl Ids {
    /// No ids.
    pub fn new(alloc: Global) -> Ids
        ensures { result ≡ [] }
    {
        Ids {
            ids: Vec::new(alloc),
            places: Vec::new(alloc),
            known: 0,
        }
    }

    /// Whether there is no id.
    pub fn is_empty(&self) -> bool
        ensures { IsTrue result ↔ (self.now ≡ []) }
    {
        self.ids.is_empty()
    }

    /// Whether an id is there.
    pub fn has(&mut self, id: usize) -> bool
        ensures value { IsTrue result ↔ Contains self.old id }
        ensures once { AreDistinct self.old }
        ensures same { self.new ≡ self.old }
    {
        learn(&self.ids, &mut self.places, self.known);
        self.known = self.ids.len();
        is_there(&self.ids, &self.places, id)
    }

    /// Puts in an id that isn't there. Ids are below 2^32.
    #[inline(always)]
    pub fn insert(&mut self, id: usize) -> Result<(), NoMemory>
        requires { ¬ (Contains self.old id) }
        ensures ok { OnOk result (self.new ≡ self.old ++ id ∷ []) }
        ensures err { OnErr result (self.new ≡ self.old) }
    {
        let Ok(short) = u32::try_from(id) else {
            return Err(NoMemory);
        };
        cover(&mut self.places, id)?;
        append(&mut self.ids, short)?;
        Ok(())
    }

    /// Takes out the id that was put in last of those that are there, if there is one. No other id moves.
    #[inline(always)]
    pub fn pop(&mut self) -> Option<usize>
        ensures some { IfSome result (λ id. self.old ≡ self.new ++ id ∷ []) }
        ensures none { IfNone result (self.old ≡ []) }
        ensures left { IfNone result (self.new ≡ []) }
    {
        let id = self.ids.pop()?;
        self.known = self.known.min(self.ids.len());
        Some(id as usize)
    }

    /// Takes out an id that is there.
    pub fn remove(&mut self, id: usize)
        requires { Contains self.old id }
        ensures { IsWithout self.old self.new id }
    {
        learn(&self.ids, &mut self.places, self.known);
        let place = self.places[id];
        let moved = strike(&mut self.ids, place);
        self.places[moved as usize] = place;
        self.known = self.ids.len();
    }
}

// Writes the places of the ids from this many on, where those before are known.
fn learn(ids: &[u32], places: &mut Vec<u32>, known: usize)
    requires once { AreDistinct ids.now }
    requires room { HaveRoom ids.now places.old.items }
    requires few { length ids.now ≤ 2 ^ 32 }
    requires placed { ArePlaced known ids.now places.old.items }
    ensures placed { ArePlaced (length ids.now) ids.now places.new.items }
    ensures room { HaveRoom ids.now places.new.items }
{
    let mut place = known;
    'places: while place < ids.len() {
        let id = ids[place];
        places[id as usize] = place as u32;
        place += 1;
    }
}

// Whether an id is at the place that is written for it.
fn is_there(ids: &[u32], places: &[u32], id: usize) -> bool
    requires room { HaveRoom ids.now places.now }
    requires placed { ArePlaced (length ids.now) ids.now places.now }
    ensures { IsTrue result ↔ Contains ids.now id }
{
    let Some(place) = places.get(id) else {
        return false;
    };
    match ids.get(*place as usize) {
        Some(found) => *found as usize == id,
        None => false,
    }
}

// Adds places until there is one of this id.
#[inline(always)]
fn cover(places: &mut Vec<u32>, id: usize) -> Result<(), NoMemory>
    ensures there { OnOk result (id < length places.new.items) }
    ensures more { length places.old.items ≤ length places.new.items }
    ensures same { (j : ℕ) → j < length places.old.items → slice_get places.new.items j ≡ slice_get places.old.items j }
{
    'places: while places.len() <= id {
        places.push(0).map_err(|_| NoMemory)?;
    }
    Ok(())
}
