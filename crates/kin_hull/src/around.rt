//! The way around a hull.

ghost use Rattle.std.specs.Prelude.{◌≡◌, ◌↔◌, ◌∷◌, ◌++◌, [], cond, IsTrue, IfOk, OnOk};
ghost use Rattle.kin_motion.specs.Chains.{round};
ghost use Rattle.kin_motion.specs.Numbers.{is_in, IsIn};
ghost use Rattle.kin_hull.specs.Meetings.{IsEnd, MeetAtEnds};

use kin_num::memory::NoMemory;
use std::alloc::Global;

/// Whether a number is the first or the last of a chain.
fn is_end(chain: &[u32], no: u32) -> bool
    ensures { IsTrue result ↔ IsEnd chain.now no }
{
    let count = chain.len();
    count > 0 && (chain[0] == no || chain[count - 1] == no)
}

/// Lists a number of the upper chain, if the lower chain hasn't got it.
fn list_new(cycle: &mut Vec<u32>, lower: &[u32], no: u32) -> Result<(), NoMemory>
    requires { IsIn no lower.now → IsEnd lower.now no }
    ensures { OnOk result (cycle.new.items ≡ cond (is_in no lower.now) cycle.old.items (cycle.old.items ++ no ∷ [])) }
{
    if is_end(lower, no) {
        return Ok(());
    }
    cycle.push(no).map_err(|_| NoMemory)
}

/// The lower chain from left to right, then the upper one from right to left without what is listed
/// already. The chains of one set of points have at most their ends in common, by a lemma
/// (`proofs/Meetings`).
pub(crate) fn go_round(alloc: Global, lower: &[u32], upper: &[u32]) -> Result<Vec<u32>, NoMemory>
    requires { MeetAtEnds lower.now upper.now }
    ensures { IfOk result (λ cycle. cycle.items ≡ round lower.now upper.now) }
{
    let mut cycle = Vec::with_capacity(alloc, lower.len() + upper.len())?;
    cycle.extend_from_slice(lower)?;
    for number in upper.iter().rev() {
        list_new(&mut cycle, lower, *number)?;
    }
    Ok(cycle)
}
