//! The edits that lead from one list to another.

ghost use Rattle.std.specs.Prelude.{◌≡◌, ◌≢◌, ℕ, ◌+◌, ◌<◌, ◌≤◌, ◌^◌, true, false, List, [], ◌∷◌, length, map, drop, slice_get, Some, IsTrue, IsFalse, OnOk, IfOk};
ghost use Rattle.kin_motion.specs.Edits.{Edit, all_edited, AreFitting};
ghost use Rattle.kin_motion.specs.Numbers.{is_in};
ghost use Rattle.kin_overlay.specs.Diffs.{KeepOrder, ArePutApart, later, IsDiff};

use crate::edit::ChainEdit;
use smallvec::SmallVec;
use std::alloc::{AllocError, Global};

/// How many items at the front of one list aren't in the other, up to the first that is.
fn strangers(list: &[u32], other: &[u32]) -> usize
    ensures within { result ≤ length list.now }
    ensures strange { (k x : ℕ) → k < result → slice_get list.now k ≡ Some x → is_in x other.now ≡ false }
    ensures next { (x : ℕ) → slice_get list.now result ≡ Some x → is_in x other.now ≡ true }
{
    let mut count = 0;
    while count < list.len() && !other.contains(&list[count]) {
        count += 1;
    }
    count
}

/// How many numbers at the front of both lists are the same.
fn alike(old: &[u32], new: &[u32]) -> usize
    ensures within_old { result ≤ length old.now }
    ensures within_new { result ≤ length new.now }
    ensures same { (k : ℕ) → k < result → slice_get old.now k ≡ slice_get new.now k }
    ensures differ { result ≡ 0 → (x y : ℕ) (xs ys : List ℕ) → old.now ≡ x ∷ xs → new.now ≡ y ∷ ys → x ≢ y }
{
    let most = old.len().min(new.len());
    let mut count = 0;
    while count < most && old[count] == new[count] {
        count += 1;
    }
    count
}

/// How many numbers of the new list are before the first of the rest of the old one: all of them
/// where there is no rest.
fn added_before(new: &[u32], rest: &[u32]) -> usize
    ensures within { result ≤ length new.now }
    ensures all { rest.now ≡ [] → result ≡ length new.now }
    ensures others { (x y k : ℕ) (xs : List ℕ) → rest.now ≡ x ∷ xs → k < result → slice_get new.now k ≡ Some y → x ≢ y }
    ensures at { (x y : ℕ) (xs : List ℕ) → rest.now ≡ x ∷ xs → slice_get new.now result ≡ Some y → x ≡ y }
{
    match rest.first() {
        Some(next) => count_before(new, *next),
        None => new.len(),
    }
}

/// How many numbers of a list are before this one: all of them where it isn't there.
pub fn count_before(list: &[u32], no: u32) -> usize
    ensures within { result ≤ length list.now }
    ensures others { (k y : ℕ) → k < result → slice_get list.now k ≡ Some y → no ≢ y }
    ensures at { (y : ℕ) → slice_get list.now result ≡ Some y → no ≡ y }
{
    let mut count = 0;
    while count < list.len() && list[count] != no {
        count += 1;
    }
    count
}

/// A count as an edit stores it, in 32 bits. A greater one is answered as want of memory.
fn short(count: usize) -> Result<u32, AllocError>
    ensures { IfOk result (λ n. n ≡ count) }
{
    if count > u32::MAX as usize {
        return Err(AllocError);
    }
    Ok(count as u32)
}

/// An edit from its parts, so many places after the start.
fn stretch(
    alloc: Global,
    start: usize,
    place: usize,
    gone: usize,
    put: &[u32],
) -> Result<ChainEdit, AllocError>
    ensures { IfOk result (λ e. e ≡ record { place = start + place; drop = gone; put = put.now }) }
{
    let Some(place) = start.checked_add(place) else {
        return Err(AllocError);
    };
    let place = short(place)?;
    let drop = short(gone)?;
    let put = SmallVec::from_slice(alloc, put)?;
    Ok(ChainEdit { place, drop, put })
}

/// Whether nothing is left of both lists.
fn is_done(old: &[u32], new: &[u32]) -> bool
    ensures done { IsTrue result → (length old.now ≡ 0) × (length new.now ≡ 0) }
    ensures more { IsFalse result → 0 < length old.now + length new.now }
{
    old.is_empty() && new.is_empty()
}

/// The edits that lead from one list to another, from left to right. Where neither has a number twice
/// and the numbers that both have keep their order, no edit puts a number that an edit drops.
pub fn diff(
    alloc: Global,
    old: &[u32],
    new: &[u32],
    edits: &mut Vec<ChainEdit>,
) -> Result<(), AllocError>
    ensures lead { OnOk result (all_edited edits.new.items old.now ≡ new.now) }
    ensures fit { OnOk result (AreFitting edits.new.items old.now) }
    ensures apart { OnOk result (KeepOrder old.now new.now → ArePutApart edits.new.items old.now) }
{
    diff_middle(alloc, 0, old, new, edits)
}

/// The same for the middle of a list that doesn't change up to `start`: places are those of that list.
#[inline(always)]
pub fn diff_middle(
    alloc: Global,
    start: usize,
    old: &[u32],
    new: &[u32],
    edits: &mut Vec<ChainEdit>,
) -> Result<(), AllocError>
    ensures { OnOk result ((es : List Edit) × (edits.new.items ≡ map (later start) es) × IsDiff es old.now new.now) }
{
    edits.clear();
    let (mut old, mut new) = (old, new);
    let mut place = 0;
    while !is_done(old, new) {
        let alike = alike(old, new);
        if alike > 0 {
            old = old.split_at(alike).1;
            new = new.split_at(alike).1;
            place += alike;
        } else {
            let (gone, rest) = old.split_at(strangers(old, new));
            let (put, tail) = new.split_at(added_before(new, rest));
            let edit = stretch(alloc, start, place, gone.len(), put)?;
            edits.push(edit)?;
            old = rest;
            new = tail;
            place += put.len();
        }
    }
    Ok(())
}
