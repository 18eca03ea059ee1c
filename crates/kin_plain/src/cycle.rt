//! The hull cycle.

ghost use Rattle.std.specs.Prelude.{◌≡◌, ◌++◌, not, filter, reverse, IfOk, OnOk};
ghost use Rattle.kin_motion.specs.Chains.{cycle_of, round};
ghost use Rattle.kin_motion.specs.Numbers.{is_in};

use crate::chain::{lower_chain_of, upper_chain_of};
use crate::lists::put;
use crate::numbers::is_in;
use kin_motion::signs::Signs;
use kin_num::memory::NoMemory;
use kin_num::steps::Steps;
use std::alloc::Global;
use std::sync::ledger::Ledger;

/// Puts the upper chain from right to left at the end, without what the lower one lists.
fn put_back(lower: &[u32], upper: &[u32], cycle: &mut Vec<u32>) -> Result<(), NoMemory>
    ensures { OnOk result (cycle.new.items ≡ cycle.old.items ++ filter (λ p. not (is_in p lower.now)) (reverse upper.now)) }
{
    let mut left = upper.len();
    while left > 0 {
        left -= 1;
        if !is_in(upper[left], lower) {
            put(cycle, upper[left])?;
        }
    }
    Ok(())
}

/// The lower chain from left to right, then the upper one from right to left without what is listed already.
fn round(alloc: Global, lower: &[u32], upper: &[u32]) -> Result<Vec<u32>, NoMemory>
    ensures { IfOk result (λ cycle. cycle.items ≡ round lower.now upper.now) }
{
    let mut cycle = Vec::from_slice(alloc, lower)?;
    put_back(lower, upper, &mut cycle)?;
    Ok(cycle)
}

/// The lower chain of all live numbers from left to right, then the upper one from right to left without what is listed
/// already.
pub fn cycle_of<O: Signs, L: Ledger>(
    alloc: Global,
    now: &O,
    live: &[u32],
    steps: &mut Steps<L>,
) -> Result<Vec<u32>, NoMemory>
    requires live { live.now ≡ (O.scene now.now).live }
    ensures { IfOk result (λ cycle. cycle.items ≡ cycle_of (O.scene now.now)) }
{
    let lower = lower_chain_of(alloc, now, live, steps)?;
    let upper = upper_chain_of(alloc, now, live, steps)?;
    let cycle = round(alloc, &lower, &upper)?;
    Ok(cycle)
}
