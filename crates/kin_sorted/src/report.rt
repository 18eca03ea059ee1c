//! The links of the touched items are brought up to date, and the change of the facts is reported.

ghost use Rattle.std.specs.Prelude.{◌≡◌, ℕ, ◌+◌, ◌<◌, ◌≤◌, ◌^◌, List, Option, Some, None, true, false, length, slice_get, slice_set, IfSome, OnOk};
ghost use Rattle.kin_motion.specs.declared.fact.Placed.{Placed as Put};
ghost use Rattle.kin_motion.specs.Numbers.{is_in};
ghost use Rattle.kin_sorted.specs.declared.link.Link.{Link as LinkValue};
ghost use Rattle.kin_algebra.specs.declared.sign.Sign.{Sign as Signum};
ghost use Rattle.kin_sorted.specs.Links.{linked, link_for, facts_from, IsTold};
ghost use Rattle.kin_sorted.specs.Telling.{IsToldIn};

use crate::between::fact;
use crate::link::Link;
use crate::ranked::Ranked;
use crate::row::Row;
use kin_motion::fact::{Delta, Placed};
use kin_num::memory::NoMemory;
use std::alloc::AllocError;

/// The right neighbour of an item, if it has one.
fn right_of(row: &Row, slot: u32) -> Option<u32>
    requires within { slot < row.now.room }
    ensures link { (signs : List Signum) → linked result (slice_get signs slot) ≡ link_for row.now.items signs slot }
    ensures within { IfSome result (λ right. right < row.now.room) }
{
    let place = row.place_of_left(slot)? as usize;
    Some(row.at(place + 1))
}

/// Links an item to its right neighbour. Where it wasn't linked so, the change is reported. Room is taken for what is
/// reported alone, since most touched items are linked as before.
fn link_to<R: Ranked>(
    row: &mut Row,
    part: u32,
    rank: &R,
    slot: u32,
    link: Link,
    dropped: &mut Vec<Placed>,
    born: &mut Vec<Placed>,
) -> Result<(), AllocError>
    requires parts { part + (R.ranks rank.now).parts ≤ 2 ^ 32 }
    requires within { slot < row.old.room }
    requires right { link.right < row.old.room }
    ensures links { OnOk result (row.new.links ≡ slice_set row.old.links slot (Some link)) }
    ensures tells { OnOk result ((old : Option LinkValue) → slice_get row.old.links slot ≡ Some old
        → IsTold part (R.ranks rank.now) slot old (Some link) dropped.old.items born.old.items dropped.new.items born.new.items) }
    ensures same { (row.new.items ≡ row.old.items) × (row.new.room ≡ row.old.room) × (row.new.signs ≡ row.old.signs) }
    ensures length { length row.new.links ≡ length row.old.links }
{
    if let Some(old) = row.link_of(slot) {
        if old.right == link.right && old.sign == link.sign {
            return Ok(());
        }
        dropped.reserve(1)?;
        dropped.push_reserved(fact(rank, part, slot, old.right, old.sign));
    }
    born.reserve(1)?;
    born.push_reserved(fact(rank, part, slot, link.right, link.sign));
    row.set_link(slot, link);
    Ok(())
}

/// Takes an item's link away, and reports it where there was one.
fn unlink<R: Ranked>(
    row: &mut Row,
    part: u32,
    rank: &R,
    slot: u32,
    dropped: &mut Vec<Placed>,
) -> Result<(), AllocError>
    requires parts { part + (R.ranks rank.now).parts ≤ 2 ^ 32 }
    requires within { slot < row.old.room }
    ensures links { OnOk result (row.new.links ≡ slice_set row.old.links slot None) }
    ensures tells { OnOk result ((old : Option LinkValue) (born : List Put) → slice_get row.old.links slot ≡ Some old
        → IsTold part (R.ranks rank.now) slot old None dropped.old.items born dropped.new.items born) }
    ensures same { (row.new.items ≡ row.old.items) × (row.new.room ≡ row.old.room) × (row.new.signs ≡ row.old.signs) }
    ensures length { length row.new.links ≡ length row.old.links }
{
    if let Some(link) = row.link_of(slot) {
        dropped.reserve(1)?;
        dropped.push_reserved(fact(rank, part, slot, link.right, link.sign));
        row.clear_link(slot);
    }
    Ok(())
}

/// Writes the link of an item as its neighbour and its sign now are, and reports the change.
fn renew<R: Ranked>(
    row: &mut Row,
    part: u32,
    rank: &R,
    slot: u32,
    dropped: &mut Vec<Placed>,
    born: &mut Vec<Placed>,
) -> Result<(), AllocError>
    requires parts { part + (R.ranks rank.now).parts ≤ 2 ^ 32 }
    requires fits { length row.old.links ≡ row.old.room }
    ensures links { OnOk result (row.new.links ≡ slice_set row.old.links slot (link_for row.old.items row.old.signs slot)) }
    ensures past { length row.old.links ≤ slot → (dropped.new.items ≡ dropped.old.items) × (born.new.items ≡ born.old.items) }
    ensures tells { OnOk result ((old : Option LinkValue) → slice_get row.old.links slot ≡ Some old
        → IsTold part (R.ranks rank.now) slot old (link_for row.old.items row.old.signs slot)
        dropped.old.items born.old.items dropped.new.items born.new.items) }
    ensures same { (row.new.items ≡ row.old.items) × (row.new.room ≡ row.old.room) × (row.new.signs ≡ row.old.signs) }
    ensures length { length row.new.links ≡ length row.old.links }
{
    if slot as usize >= row.room() {
        return Ok(());
    }
    match right_of(row, slot) {
        Some(right) => {
            let sign = row.sign_of(slot);
            link_to(row, part, rank, slot, Link { right, sign }, dropped, born)
        }
        None => unlink(row, part, rank, slot, dropped),
    }
}

/// Brings the links of the touched items up to date, and reports what the facts lose and gain by it, in a part.
fn renew_touched<R: Ranked>(
    row: &mut Row,
    touched: &[u32],
    part: u32,
    rank: &R,
    dropped: &mut Vec<Placed>,
    born: &mut Vec<Placed>,
) -> Result<(), AllocError>
    requires parts { part + (R.ranks rank.now).parts ≤ 2 ^ 32 }
    requires fits { length row.old.links ≡ row.old.room }
    ensures same { (row.new.items ≡ row.old.items) × (row.new.room ≡ row.old.room) × (row.new.signs ≡ row.old.signs) }
    ensures length { length row.new.links ≡ length row.old.links }
    ensures touched { OnOk result ((i : ℕ) → i < length row.old.links → is_in i touched.now ≡ true
        → slice_get row.new.links i ≡ Some (link_for row.old.items row.old.signs i)) }
    ensures others { OnOk result ((i : ℕ) → is_in i touched.now ≡ false → slice_get row.new.links i ≡ slice_get row.old.links i) }
    ensures told { OnOk result (IsToldIn part (facts_from (R.ranks rank.now) 0 row.old.links) (facts_from (R.ranks rank.now) 0 row.new.links)
        (record { dropped = dropped.old.items; born = born.old.items }) (record { dropped = dropped.new.items; born = born.new.items })) }
{
    for slot in touched {
        renew(row, part, rank, *slot, dropped, born)?;
    }
    Ok(())
}

/// Brings the links of the touched items up to date. What the facts have lost and gained is
/// reported once, in a part.
pub fn report<R: Ranked>(
    row: &mut Row,
    touched: &[u32],
    part: u32,
    rank: &R,
    out: &mut Delta,
) -> Result<(), NoMemory>
    requires parts { part + (R.ranks rank.now).parts ≤ 2 ^ 32 }
    requires fits { length row.old.links ≡ row.old.room }
    ensures same { (row.new.items ≡ row.old.items) × (row.new.room ≡ row.old.room) × (row.new.signs ≡ row.old.signs) }
    ensures length { length row.new.links ≡ length row.old.links }
    ensures touched { OnOk result ((i : ℕ) → i < length row.old.links → is_in i touched.now ≡ true
        → slice_get row.new.links i ≡ Some (link_for row.old.items row.old.signs i)) }
    ensures others { OnOk result ((i : ℕ) → is_in i touched.now ≡ false → slice_get row.new.links i ≡ slice_get row.old.links i) }
    ensures told { OnOk result (IsToldIn part (facts_from (R.ranks rank.now) 0 row.old.links)
        (facts_from (R.ranks rank.now) 0 row.new.links) out.old out.new) }
{
    renew_touched(row, touched, part, rank, &mut out.dropped, &mut out.born)?;
    Ok(())
}
