//! The holders of keys: by seat, or in an index of buckets.

ghost use Rattle.std.specs.Prelude.{◌≡◌, ◌∷◌, ℕ, List, [], true, ◌⊎◌, Some, None, OnOk, OnErr, slice_index_or};
ghost use Rattle.indexmap.specs.IndexMap.{get as look_up};
ghost use Rattle.kin_cert.specs.Bucket.{is_bucket};
ghost use Rattle.kin_cert.specs.declared.holder.Holder.{Holder as Kept};
ghost use Rattle.kin_cert.specs.Keys.{key_at};
ghost use Rattle.kin_cert.specs.Holders.{holder_in, holder_of, HasHolder, HasSeated, HasPut, IsUnshared, MayHaveLeft, AreSame, StandsAt};

use crate::bucket::{Bucket, Label};
use crate::guesses::{Guesses, Spot};
use crate::holder::{Holder, holder_in, marked, word_of, word_or_none};
use crate::key::Key;
use crate::plan::Plan;
use indexmap::IndexMap;
use kin_num::NoMemory;
use std::alloc::Global;

/// An index may have this many times as many buckets as there are facts.
const WIDTH: usize = 4;

/// Fewer facts count as this many.
const FEW: usize = 1_024;

/// By which id each key is known.
#[derive(Drop)]
pub(crate) struct Holders {
    /// What each seat says of its holder.
    seats: Vec<u32>,
    /// The holders of the buckets that facts without a seat have had.
    index: IndexMap<Bucket, Holder>,
    /// Guesses of the positions of buckets in the index.
    guesses: Guesses,
}

impl Holders {
    /// No holders, and no seats.
    pub(crate) fn new(alloc: Global) -> Holders {
        Holders {
            seats: Vec::new(alloc),
            index: IndexMap::new(alloc),
            guesses: Guesses::new(alloc),
        }
    }

    /// No holders, but so many seats, and room for as many facts in all. The index has room for twice as many buckets as
    /// there are facts without a seat, since these outlive their facts.
    pub(crate) fn with_room(
        alloc: Global,
        count: usize,
        facts: usize,
    ) -> Result<Holders, NoMemory> {
        let mut seats = Vec::new(alloc);
        seats.resize(count, 0)?;
        let unseated = facts.saturating_sub(count);
        Ok(Holders {
            seats,
            index: IndexMap::with_capacity(alloc, unseated.saturating_mul(2))?,
            guesses: Guesses::new(alloc),
        })
    }

    /// What a seat says of the holder of a fact's key, or would say if the fact had one: nothing where the key has none, or
    /// where the id is too great. It is inlined, no key is made of a seat, and the word is taken apart once for both ways.
    #[inline(always)]
    pub(crate) fn find_word(&mut self, plan: &Plan, structure: u32, label: Label) -> u32
        ensures value { (h : Kept) → holder_in result ≡ Some h → holder_of self.old (key_at plan.now structure label) ≡ Some h }
        ensures same { AreSame (holder_of self.old) (holder_of self.new) }
    {
        match plan.seat_at(structure, label.part, label.number) {
            Some(seat) => word_at(&self.seats, seat),
            None => self.find_unseated(structure, label),
        }
    }

    // The same of a fact without a seat. Out of line, so that the others make no bucket.
    #[inline(never)]
    fn find_unseated(&mut self, structure: u32, label: Label) -> u32
        ensures value { (h : Kept) → holder_in result ≡ Some h → look_up is_bucket self.old.index (structure ∷ label.part ∷ label.number ∷ []) ≡ Some h }
        ensures index { self.new.index ≡ self.old.index }
        ensures seats { self.new.seats ≡ self.old.seats }
    {
        match self.find_bucket(&[structure, label.part, label.number]) {
            Some(holder) => word_or_none(holder),
            None => 0,
        }
    }

    /// The holder of a key, if it has one. It may be noted where it was found.
    pub(crate) fn find(&mut self, key: &Key) -> Option<Holder>
        ensures value { result ≡ holder_of self.old key.now }
        ensures same { AreSame (holder_of self.old) (holder_of self.new) }
    {
        match key {
            Key::Seat(seat) => seated(&self.seats, *seat),
            Key::Bucket(bucket) => self.find_bucket(bucket),
        }
    }

    // The holder of a bucket.
    fn find_bucket(&mut self, bucket: &Bucket) -> Option<Holder>
        ensures value { result ≡ look_up is_bucket self.old.index bucket.now }
        ensures index { self.new.index ≡ self.old.index }
        ensures seats { self.new.seats ≡ self.old.seats }
    {
        match self.guesses.spot_of(&self.index, bucket) {
            Some(spot) => Some(spot.holder),
            None => None,
        }
    }

    /// The holder of a key, if it has one.
    pub(crate) fn look_up(&self, key: &Key) -> Option<Holder>
        ensures { result ≡ holder_of self.now key.now }
    {
        match key {
            Key::Seat(seat) => seated(&self.seats, *seat),
            Key::Bucket(bucket) => match self.guesses.look_up(&self.index, bucket) {
                Some(spot) => Some(spot.holder),
                None => None,
            },
        }
    }

    /// Lets a key have this holder.
    pub(crate) fn set(&mut self, key: &Key, holder: Holder) -> Result<(), NoMemory>
        ensures ok { OnOk result (HasHolder (holder_of self.old) key.now holder (holder_of self.new)) }
        ensures err { OnErr result (AreSame (holder_of self.old) (holder_of self.new)) }
    {
        match key {
            Key::Seat(seat) => set_seat(&mut self.seats, *seat, holder),
            Key::Bucket(bucket) => self.set_bucket(bucket, holder),
        }
    }

    // Lets a bucket have this holder. Its position is the next guess.
    #[inline(never)]
    fn set_bucket(&mut self, bucket: &Bucket, holder: Holder) -> Result<(), NoMemory>
        ensures ok { OnOk result (HasPut self.old.index bucket.now (Some holder) self.new.index) }
        ensures err { OnErr result ((q : List ℕ) → look_up is_bucket self.new.index q ≡ look_up is_bucket self.old.index q) }
        ensures seats { self.new.seats ≡ self.old.seats }
    {
        if let Some(spot) = self.guesses.guessed(&self.index, bucket) {
            hand_over(&mut self.index, bucket, spot, holder);
            return Ok(());
        }
        let Ok((position, _)) = self.index.insert_full(*bucket, holder) else {
            return Err(NoMemory);
        };
        self.guesses.note(bucket, position);
        Ok(())
    }

    /// Marks a key that has this holder as one of which there are further facts.
    pub(crate) fn share(&mut self, key: &Key, holder: Holder)
        requires { holder_of self.old key.now ≡ Some holder }
        ensures { HasHolder (holder_of self.old) key.now (record { id = holder.id; is_shared = true }) (holder_of self.new) }
    {
        match key {
            Key::Seat(seat) => share_seat(&mut self.seats, *seat, holder),
            Key::Bucket(bucket) => {
                let Some(spot) = self.guesses.look_up(&self.index, bucket) else {
                    unreachable!()
                };
                let shared = Holder {
                    id: holder.id,
                    is_shared: true,
                };
                hand_over(&mut self.index, bucket, spot, shared);
            }
        }
    }

    /// Lets a key go whose only fact goes. Its seat is free then. Its bucket stays in the index, where another fact will
    /// find it, unless there are far more buckets than facts.
    #[inline(always)]
    pub(crate) fn leave(&mut self, key: &Key, facts: usize)
        requires { IsUnshared (holder_of self.old) key.now }
        ensures { MayHaveLeft (holder_of self.old) key.now (holder_of self.new) }
    {
        match key {
            Key::Seat(seat) => free_seat(&mut self.seats, *seat),
            Key::Bucket(bucket) => self.leave_bucket(bucket, facts),
        }
    }

    // Takes a bucket out of the index, where this has far more buckets than there are facts.
    fn leave_bucket(&mut self, bucket: &Bucket, facts: usize)
        ensures index { HasPut self.old.index bucket.now None self.new.index ⊎ (self.new.index ≡ self.old.index) }
        ensures seats { self.new.seats ≡ self.old.seats }
    {
        if self.index.len() / WIDTH > facts.max(FEW) {
            self.index.swap_remove(bucket);
        }
    }
}

// What a seat says of its holder.
#[inline(always)]
fn word_at(seats: &Vec<u32>, seat: usize) -> u32
    ensures { result ≡ slice_index_or seats.now.items seat 0 }
{
    match seats.get(seat) {
        Some(word) => *word,
        None => 0,
    }
}

// The holder that a seat says it has.
#[inline(always)]
fn seated(seats: &Vec<u32>, seat: usize) -> Option<Holder>
    ensures { result ≡ holder_in (slice_index_or seats.now.items seat 0) }
{
    holder_in(word_at(seats, seat))
}

// Lets a seat have this holder.
fn set_seat(seats: &mut Vec<u32>, seat: usize, holder: Holder) -> Result<(), NoMemory>
    ensures ok { OnOk result (HasSeated seats.old.items seat (Some holder) seats.new.items) }
    ensures err { OnErr result (seats.new ≡ seats.old) }
{
    let word = word_of(holder)?;
    let Some(place) = seats.get_mut(seat) else {
        return Err(NoMemory);
    };
    *place = word;
    Ok(())
}

// Lets a seat have no holder.
#[inline(always)]
fn free_seat(seats: &mut Vec<u32>, seat: usize)
    ensures { HasSeated seats.old.items seat None seats.new.items }
{
    if let Some(place) = seats.get_mut(seat) {
        *place = 0;
    }
}

// Marks a seat that has this holder as one of which there are further facts.
fn share_seat(seats: &mut Vec<u32>, seat: usize, holder: Holder)
    requires { holder_in (slice_index_or seats.old.items seat 0) ≡ Some holder }
    ensures { HasSeated seats.old.items seat (Some (record { id = holder.id; is_shared = true })) seats.new.items }
{
    let _ = holder;
    let Some(word) = seats.get_mut(seat) else {
        unreachable!()
    };
    *word = marked(*word);
}

// Gives a known bucket another holder.
fn hand_over(index: &mut IndexMap<Bucket, Holder>, bucket: &Bucket, spot: Spot, holder: Holder)
    requires { StandsAt index.old bucket.now spot }
    ensures { HasPut index.old bucket.now (Some holder) index.new }
{
    let _ = bucket;
    let Some(known) = index.get_index_mut(spot.position) else {
        unreachable!()
    };
    *known = holder;
}
