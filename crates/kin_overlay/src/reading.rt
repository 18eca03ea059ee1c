//! The merged chain is read again where its list has changed.

ghost use Rattle.std.specs.Prelude.{◌≡◌, ◌⊎◌, ◌≤◌, ◌+◌, ◌++◌, ℕ, length, take, drop, Some, OnOk, IfOk};
ghost use Rattle.kin_motion.specs.Edits.{all_edited, AreFitting};
ghost use Rattle.kin_motion.specs.Numbers.{IsOnce};
ghost use Rattle.kin_overlay.specs.Diffs.{KeepOrder, ArePutApart};
ghost use Rattle.kin_overlay.specs.Reading.{AreAlike, AreOpened, IsReadWhole, IsReadUntil, IsReadAgain, right_of};
ghost use Rattle.kin_overlay.specs.Remembered.{Remembered as Meaning};
ghost use Rattle.kin_overlay.specs.Walks.{chain_read};

use crate::diff::{count_before, diff_middle};
use crate::edit::{Chain, ChainEdit, apply_all};
use crate::end::End;
use crate::list::BreakpointList;
use crate::record::Record;
use crate::shared::Shared;
use crate::walk::{Cell, give, walk};
use std::alloc::{AllocError, Global};

/// What is read again of a chain: from `start` up to `end`.
#[derive(Clone, Copy, Debug, PartialEq, Eq)]
pub struct Middle {
    pub start: usize,
    pub end: usize,
}

/// The first cell that is read again, the record at its right end, and how many numbers of the chain
/// come before it.
#[derive(Clone, Copy, Debug, PartialEq, Eq)]
struct Opening {
    cell: Cell,
    from: usize,
    start: usize,
}

/// Where reading begins: after this many records, if a half is above at the last of them, with the
/// point that is above there. Else at the left outer end.
fn open_at(
    old: &[u32],
    list: &BreakpointList,
    left: End,
    front: usize,
    given: &mut Vec<u32>,
) -> Result<Opening, AllocError>
    requires left { list.now.left ≡ Some left }
    requires room { front ≤ length list.now.records }
    ensures within { IfOk result (λ o. o.from ≤ front) }
    ensures opened { IfOk result (λ o. (m : Meaning) (back : ℕ) → (k : AreAlike m list.now front back) → old.now ≡ chain_read m → IsOnce old.now → AreOpened m list.now (right_of m k.old_end) (right_of list.now left) o.start o.from o.cell given.new.items) }
{
    given.clear();
    let whole = Opening {
        cell: Cell::first(left),
        from: 0,
        start: 0,
    };
    if front == 0 {
        return Ok(whole);
    }
    let record = list.at(front - 1);
    let Some(point) = record.upper_before() else {
        return Ok(whole);
    };
    given.push(point)?;
    Ok(Opening {
        cell: record.cell_after(),
        from: front,
        start: count_before(old, point),
    })
}

/// Where reading ends: at a point that is above right after the first of these records, if there is
/// one, else at the right outer end.
fn close(
    old: &[u32],
    behind: &[Record],
    cell: Cell,
    right: End,
    given: &mut Vec<u32>,
) -> Result<usize, AllocError>
    ensures { IfOk result (λ end. IsReadWhole old.now behind.now cell right given.old.items given.new.items end ⊎ IsReadUntil old.now behind.now cell given.old.items given.new.items end) }
{
    if let Some((record, _)) = behind.split_first() {
        if let Some(point) = record.cell_after().upper_left() {
            cell.give_until(record.above(), given)?;
            give(Some(point), given)?;
            return Ok(count_before(old, point) + 1);
        }
    }
    let last = walk(behind, cell, given)?;
    last.give_until(right.above_at_right(), given)?;
    Ok(old.len())
}

/// Reads a chain again between the records that its list shares with the one before. What is put in
/// place of the middle of the old chain is given.
pub fn read_again(
    old: &[u32],
    list: &BreakpointList,
    same: Shared,
    given: &mut Vec<u32>,
) -> Result<Middle, AllocError>
    requires room { same.front + same.back ≤ length list.now.records }
    ensures { IfOk result (λ w. (m : Meaning) → AreAlike m list.now same.front same.back → old.now ≡ chain_read m → IsOnce old.now → IsReadAgain old.now (chain_read list.now) given.new.items w.start w.end) }
{
    let Some(left) = list.left() else {
        let end = old.len();
        return Ok(Middle { start: 0, end });
    };
    let opening = open_at(old, list, left, same.front, given)?;
    let (before, behind) = list.records().split_at(list.len() - same.back);
    let cell = walk(before.split_at(opening.from).1, opening.cell, given)?;
    let right = list.right().unwrap_or(left);
    let end = close(old, behind, cell, right, given)?;
    Ok(Middle {
        start: opening.start,
        end,
    })
}

/// Makes a chain the one that is read off a list, and the edits that lead to it. `same` says what the
/// list shares with the one off which the chain was read, with the outer end beside it.
/// `given` and `spare` are buffers, whose content is lost.
pub fn renew(
    alloc: Global,
    list: &BreakpointList,
    same: Shared,
    chain: &mut Chain,
    edits: &mut Vec<ChainEdit>,
    given: &mut Vec<u32>,
    spare: &mut Vec<u32>,
) -> Result<(), AllocError>
    requires once { IsOnce chain.old.items }
    requires read { (m : Meaning) × (chain.old.items ≡ chain_read m) × AreAlike m list.now same.front same.back }
    ensures read { OnOk result (chain.new.items ≡ chain_read list.now) }
    ensures lead { OnOk result (all_edited edits.new.items chain.old.items ≡ chain.new.items) }
    ensures fit { OnOk result (AreFitting edits.new.items chain.old.items) }
    ensures apart { OnOk result (KeepOrder chain.old.items chain.new.items → ArePutApart edits.new.items chain.old.items) }
{
    let middle = read_again(chain.as_slice(), list, same, given)?;
    let old = &chain.as_slice()[middle.start..middle.end];
    diff_middle(alloc, middle.start, old, given, edits)?;
    if edits.is_empty() {
        return Ok(());
    }
    apply_all(edits, chain, spare)
}
