//! The journal on the way to an instant, held against a claim.

ghost use Rattle.std.specs.Prelude.{IfOk};
ghost use Rattle.kin_num.specs.Canonical.{IsCanonical};
ghost use Rattle.kin_num.specs.Order.{IsEarlier};
ghost use Rattle.kin_motion.specs.Turning.{just_at};
ghost use Rattle.kin_script.specs.PrintedJournal.{block_lines};
ghost use Rattle.kin_script.specs.Text.{IsPassedText};
ghost use Rattle.kin_check.specs.Matches.{IsMatch, IsMatchOf};
ghost use Rattle.kin_check.specs.Sound.{IsSound};

use crate::block::{Block, next_block};
use crate::claim::Claim;
use crate::state::State;
use kin_num::memory::NoMemory;
use kin_num::{Instant, Moment, Phase, Steps};
use std::alloc::Global;
use std::sync::ledger::Ledger;

/// Takes the lines of a block away from what is left, if it begins with them.
fn take_block(alloc: Global, block: &Block, claim: &mut Claim<'_>) -> Result<bool, NoMemory>
    ensures { IfOk result (λ is. IsMatch (block_lines block.now) is claim.old claim.new) }
{
    let mut out = Vec::new(alloc);
    block.put(&mut out)?;
    Ok(claim.take(&out))
}

/// Takes the lines of all blocks up to an instant away from what is left, if it begins with them. Where the journal is off
/// there are none.
pub fn take_journal<L: Ledger>(
    alloc: Global,
    state: &State,
    asked: Instant,
    claim: &mut Claim<'_>,
    steps: &mut Steps<L>,
) -> Result<bool, NoMemory>
    requires sound { IsSound state.now }
    requires canonical { IsCanonical asked }
    requires later { ¬ (IsEarlier (just_at asked) state.now.moment) }
    ensures { IfOk result (λ is. IsMatchOf (IsPassedText state.now.journal state.now asked) is claim.old claim.new) }
{
    if !state.journal() {
        return Ok(true);
    }
    let last = Moment {
        at: asked,
        phase: Phase::At,
    };
    let mut from = state.moment();
    while let Some(block) = next_block(alloc, state, &from, &last, steps)? {
        if !take_block(alloc, &block, claim)? {
            return Ok(false);
        }
        from = block.moment();
    }
    Ok(true)
}
