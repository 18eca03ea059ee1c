//! What comes into doubt before a repair: the gaps of items that leave, and the failed facts.

ghost use Rattle.std.specs.Prelude.{◌≡◌, ℕ, ◌+◌, ◌*◌, ◌<◌, ◌≤◌, ◌^◌, ◌⊎◌, true, [], Some, length, slice_get, IfSome, OnOk};
ghost use Rattle.kin_motion.specs.Numbers.{is_in, IsOnce};
ghost use Rattle.kin_sorted.specs.Lineups.{IsCleared, StaysHeld};
ghost use Rattle.kin_sorted.specs.Marks.{without_all};
ghost use Rattle.kin_motion.specs.Ranks.{Ranks};
ghost use Rattle.kin_sorted.specs.Repairs.{IsTakenOut, AreCovered, AreGaps, NeedTwo};

use crate::doubts::Doubts;
use crate::lineup::Lineup;
use crate::ranked::Ranked;
use crate::row::Row;
use kin_motion::fact::Placed;
use std::alloc::AllocError;

/// Puts the left items of the failed facts into doubt.
pub fn doubt_failed<R: Ranked>(
    row: &Row,
    doubts: &mut Doubts,
    rank: &R,
    failed: &[Placed],
) -> Result<(), AllocError>
    ensures { OnOk result (AreCovered (R.ranks rank.now) row.now.items failed.now doubts.old doubts.new) }
{
    for placed in failed {
        doubt_fact(row, doubts, rank, placed)?;
    }
    Ok(())
}

/// The place of the left item of a fact, where there is a next one.
#[inline(always)]
pub fn place_of_fact<R: Ranked>(row: &Row, rank: &R, placed: &Placed) -> Option<u32>
    ensures within { IfSome result (λ p. p + 1 < length row.now.items) }
    ensures small { IfSome result (λ p. p ≤ 2 ^ 15) }
    ensures found { (i j p : ℕ) → placed.now.part ≡ (R.ranks rank.now).part i j → placed.now.fact.form ≡ (R.ranks rank.now).form i j
        → slice_get row.now.items p ≡ Some i → slice_get row.now.items (p + 1) ≡ Some j → result ≡ Some p }
{
    let room = row.room();
    let left = rank.left(placed)?;
    if (left as usize) < room {
        row.place_of_left(left)
    } else {
        None
    }
}

/// Puts the left item of a fact into doubt.
fn doubt_fact<R: Ranked>(
    row: &Row,
    doubts: &mut Doubts,
    rank: &R,
    placed: &Placed,
) -> Result<(), AllocError>
    ensures covered { OnOk result ((i j p : ℕ) → placed.now.part ≡ (R.ranks rank.now).part i j → placed.now.fact.form ≡ (R.ranks rank.now).form i j
        → slice_get row.now.items p ≡ Some i → slice_get row.now.items (p + 1) ≡ Some j → is_in i doubts.new ≡ true) }
    ensures keeps { OnOk result ((x : ℕ) → is_in x doubts.old ≡ true → is_in x doubts.new ≡ true) }
    ensures few { length doubts.new ≤ length doubts.old + 1 }
{
    let room = row.room();
    match rank.left(placed) {
        Some(left) if (left as usize) < room => doubts.put(left),
        _ => Ok(()),
    }
}

/// Puts a member into doubt, where it has a next one.
fn doubt_gap(row: &Row, doubts: &mut Doubts, slot: u32) -> Result<(), AllocError>
    ensures covered { OnOk result ((p : ℕ) → slice_get row.now.items p ≡ Some slot → p + 1 < length row.now.items → is_in slot doubts.new ≡ true) }
    ensures keeps { OnOk result ((x : ℕ) → is_in x doubts.old ≡ true → is_in x doubts.new ≡ true) }
    ensures two { OnOk result ((x : ℕ) → is_in x doubts.new ≡ true → (is_in x doubts.old ≡ true) ⊎ (2 ≤ length row.now.items)) }
    ensures few { length doubts.new ≤ length doubts.old + 1 }
{
    match row.place_before_next(slot) {
        Some(_) => doubts.put(slot),
        None => Ok(()),
    }
}

/// Puts touched members into doubt.
fn doubt_gaps(row: &Row, doubts: &mut Doubts, touched: &[u32]) -> Result<(), AllocError>
    ensures { OnOk result (AreGaps row.now.items touched.now doubts.old doubts.new) }
{
    for slot in touched {
        doubt_gap(row, doubts, *slot)?;
    }
    Ok(())
}

impl Lineup {
    /// Takes out a member, and touches it and its left neighbour.
    fn take_out(&mut self, slot: u32) -> Result<(), AllocError>
        requires { is_in slot self.old.row.items ≡ true }
        ensures taken { OnOk result (IsTakenOut slot self.old.row.items self.new.row.items self.old.touched.items self.new.touched.items) }
        ensures doubts { self.new.doubts ≡ self.old.doubts }
        ensures signs { self.new.row.signs ≡ self.old.row.signs }
        ensures swaps { self.new.swaps.items ≡ self.old.swaps.items }
        ensures room { self.new.row.room ≡ self.old.row.room }
        ensures links { self.new.row.links ≡ self.old.row.links }
    {
        self.touched.push(slot)?;
        let place = self.row.place_of_member(slot) as usize;
        self.row.take_out(place);
        if place == 0 {
            return Ok(());
        }
        let left = self.row.at(place - 1);
        self.touched.push(left)?;
        Ok(())
    }

    /// Takes out different members. The gaps that they leave come into doubt.
    pub fn take_out_all(&mut self, leaving: &[u32]) -> Result<(), AllocError>
        requires once { IsOnce leaving.now }
        requires members { (i : ℕ) → is_in i leaving.now ≡ true → is_in i self.old.row.items ≡ true }
        requires cleared { IsCleared self.old }
        ensures items { OnOk result (self.new.row.items ≡ without_all leaving.now self.old.row.items) }
        ensures held { OnOk result ((r : Ranks) → StaysHeld r self.old self.new) }
        ensures two { OnOk result (NeedTwo self.new.doubts self.new.row.items) }
        ensures few { OnOk result (length self.new.doubts ≤ 2 * length leaving.now) }
        ensures swaps { OnOk result (self.new.swaps.items ≡ []) }
        ensures room { self.new.row.room ≡ self.old.row.room }
        ensures links { self.new.row.links ≡ self.old.row.links }
    {
        for slot in leaving {
            self.take_out(*slot)?;
        }
        doubt_gaps(&self.row, &mut self.doubts, &self.touched)
    }
}
