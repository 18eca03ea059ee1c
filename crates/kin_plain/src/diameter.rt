//! The facts of the farthest pair: slopes along the sweep of both chains, and the tournament of the pairs of its cells.

ghost use Rattle.std.specs.Prelude.{◌≡◌, ◌≤◌, ◌<◌, ◌++◌, ◌*◌, ◌^◌, ℕ, reverse, IfOk, OnOk};
ghost use Rattle.std.specs.List.{All};
ghost use Rattle.kin_motion.specs.Agreements.{FitsSize};
ghost use Rattle.kin_motion.specs.DiameterFacts.{diameter_facts};
ghost use Rattle.kin_motion.specs.Numbers.{IsIn};
ghost use Rattle.kin_motion.specs.Sweeps.{breakpoints_back, cell_in, cell_pairs, cell_pairs_from, cell_slots, sweep_of};
ghost use Rattle.kin_plain.specs.Cells.{AreEndsSmall, cell_facts, swept_facts};
ghost use Rattle.kin_plain.specs.Halves.{AreEndsLive};
ghost use Rattle.kin_plain.specs.Live.{AreLive};

use crate::breakpoint::{Breakpoint, merge, put_breakpoints};
use crate::chain::{lower_chain_of, upper_chain_of};
use crate::farthest::Farness;
use crate::lists::put;
use crate::merge::put_slopes;
use crate::numbers::numbers_below;
use crate::pair::Pair;
use crate::tournament::put_tournament_facts;
use kin_motion::fact::Placed;
use kin_motion::signs::Signs;
use kin_num::memory::NoMemory;
use kin_num::steps::Steps;
use std::alloc::Global;
use std::sync::ledger::Ledger;

/// A list from its last item to its first.
fn reversed(alloc: Global, list: &[u32]) -> Result<Vec<u32>, NoMemory>
    ensures { IfOk result (λ back. back.items ≡ reverse list.now) }
{
    let mut back = Vec::new(alloc);
    let mut left = list.len();
    while left > 0 {
        left -= 1;
        put(&mut back, list[left])?;
    }
    Ok(back)
}

/// Puts the breakpoints of a chain that is listed from right to left at the end.
fn put_breakpoints_back(back: &[u32], list: &mut Vec<Breakpoint>) -> Result<(), NoMemory>
    ensures { OnOk result (list.new.items ≡ list.old.items ++ breakpoints_back back.now) }
{
    for place in 1..back.len() {
        put(list, Breakpoint::new(false, back[place], back[place - 1]))?;
    }
    Ok(())
}

/// The breakpoints of both chains in one list. The lower chain is listed from right to left.
fn sweep_of<O: Signs, L: Ledger>(
    alloc: Global,
    now: &O,
    upper: &[u32],
    back: &[u32],
    steps: &mut Steps<L>,
) -> Result<Vec<Breakpoint>, NoMemory>
    requires upper_live { AreLive (O.scene now.now) upper.now }
    requires back_live { AreLive (O.scene now.now) back.now }
    ensures value { IfOk result (λ list. list.items ≡ sweep_of (O.scene now.now) upper.now back.now) }
    ensures live { IfOk result (λ list. All (AreEndsLive (O.scene now.now).live) list.items) }
{
    let mut these = Vec::new(alloc);
    put_breakpoints(true, upper, &mut these)?;
    let mut list = Vec::new(alloc);
    put_breakpoints_back(back, &mut list)?;
    merge(now, &these, &mut list, steps)?;
    Ok(list)
}

/// Puts the pairs of all cells at the end. In the first one the upper point `first_p` and the lower point `first_q` are
/// current.
fn put_cells(
    first_p: u32,
    first_q: u32,
    list: &[Breakpoint],
    cells: &mut Vec<Pair>,
) -> Result<(), NoMemory>
    requires first { first_p < 2 ^ 12 }
    requires small { All AreEndsSmall list.now }
    ensures { OnOk result (cells.new.items ≡ cells.old.items ++ cell_pairs_from (2 * first_p) first_p first_q list.now) }
{
    let mut slot = 2 * first_p;
    let mut p = first_p;
    let mut q = first_q;
    for place in 0..list.len() {
        let one = list[place];
        put(cells, Pair::near(slot, p, q))?;
        slot = one.slot_after();
        p = one.a_after(p);
        q = one.lower_after(q);
    }
    put(cells, Pair::near(slot, p, q))
}

/// The pairs of all cells of a sweep. There are none where a chain is empty.
fn cell_pairs(
    alloc: Global,
    upper: &[u32],
    back: &[u32],
    list: &[Breakpoint],
) -> Result<Vec<Pair>, NoMemory>
    requires first { All (λ i. i < 2 ^ 12) upper.now }
    requires small { All AreEndsSmall list.now }
    ensures { IfOk result (λ cells. cells.items ≡ cell_pairs upper.now back.now list.now) }
{
    let mut cells = Vec::new(alloc);
    if upper.is_empty() || back.is_empty() {
        return Ok(cells);
    }
    put_cells(upper[0], back[0], list, &mut cells)?;
    Ok(cells)
}

/// The first pair of a slot.
fn cell_in(slot: u32, cells: &[Pair]) -> Option<Pair>
    ensures { result ≡ cell_in slot cells.now }
{
    for cell in cells {
        if cell.slot() == slot {
            return Some(*cell);
        }
    }
    None
}

/// All slots. There are two for each number.
fn cell_slots(alloc: Global, size: u32, cells: &[Pair]) -> Result<Vec<Option<Pair>>, NoMemory>
    requires { size ≤ 12 }
    ensures { IfOk result (λ slots. slots.items ≡ cell_slots size cells.now) }
{
    let mut slots = Vec::new(alloc);
    for slot in 0..numbers_below(size + 1) {
        put(&mut slots, cell_in(slot, cells))?;
    }
    Ok(slots)
}

/// Puts the facts of the pairs of all cells at the end.
fn put_cell_facts<O: Signs, L: Ledger>(
    alloc: Global,
    now: &O,
    size: u32,
    upper: &[u32],
    back: &[u32],
    list: &[Breakpoint],
    facts: &mut Vec<Placed>,
    steps: &mut Steps<L>,
) -> Result<(), NoMemory>
    requires size { size ≤ 12 }
    requires first { All (λ i. i < 2 ^ 12) upper.now }
    requires small { All AreEndsSmall list.now }
    requires upper_live { AreLive (O.scene now.now) upper.now }
    requires back_live { AreLive (O.scene now.now) back.now }
    requires list_live { All (AreEndsLive (O.scene now.now).live) list.now }
    ensures { OnOk result (facts.new.items ≡ facts.old.items ++ cell_facts size (O.scene now.now) upper.now back.now list.now) }
{
    let cells = cell_pairs(alloc, upper, back, list)?;
    let slots = cell_slots(alloc, size, &cells)?;
    put_tournament_facts(&Farness, now, size + 1, 1, &slots, facts, steps)
}

/// Puts the facts of the sweep of two chains at the end. The lower chain is listed from right to left.
fn put_sweep_facts<O: Signs, L: Ledger>(
    alloc: Global,
    now: &O,
    size: u32,
    upper: &[u32],
    back: &[u32],
    facts: &mut Vec<Placed>,
    steps: &mut Steps<L>,
) -> Result<(), NoMemory>
    requires size { size ≤ 12 }
    requires small { (i : ℕ) → IsIn i (O.scene now.now).live → i < 2 ^ 12 }
    requires upper_live { AreLive (O.scene now.now) upper.now }
    requires back_live { AreLive (O.scene now.now) back.now }
    ensures { OnOk result (facts.new.items ≡ facts.old.items ++ swept_facts size (O.scene now.now) upper.now back.now) }
{
    let list = sweep_of(alloc, now, upper, back, steps)?;
    put_slopes(now, 0, &list, facts, steps)?;
    put_cell_facts(alloc, now, size, upper, back, &list, facts, steps)
}

/// Puts all facts of the farthest pair at the end.
pub fn put_diameter_facts<O: Signs, L: Ledger>(
    alloc: Global,
    now: &O,
    size: u32,
    live: &[u32],
    facts: &mut Vec<Placed>,
    steps: &mut Steps<L>,
) -> Result<(), NoMemory>
    requires size { size ≤ 12 }
    requires fits { FitsSize size (O.scene now.now) }
    requires live { live.now ≡ (O.scene now.now).live }
    ensures { OnOk result (facts.new.items ≡ facts.old.items ++ diameter_facts size (O.scene now.now)) }
{
    let upper = upper_chain_of(alloc, now, live, steps)?;
    let lower = lower_chain_of(alloc, now, live, steps)?;
    let back = reversed(alloc, &lower)?;
    put_sweep_facts(alloc, now, size, &upper, &back, facts, steps)
}
