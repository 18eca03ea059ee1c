//! The failures at one moment, as the journal lists them.

ghost use Rattle.std.specs.Prelude.{◌≡◌, ◌+◌, length, map, IfOk, OnOk};
ghost use Rattle.std.specs.List.{All};
ghost use Rattle.kin_motion.specs.Course.{live_of};
ghost use Rattle.kin_motion.specs.Forms.{IsAskable};
ghost use Rattle.kin_motion.specs.Journal.{seen_in};
ghost use Rattle.kin_motion.specs.Scene.{scene_at};
ghost use Rattle.kin_fail.specs.Blocks.{certificate_of};

use crate::{Block, Failure, Now, Owned};
use kin_motion::Signs;
use kin_num::{NoMemory, Steps};
use std::alloc::Global;
use std::sync::ledger::Ledger;

/// The block of these facts, with their signs now. Each may be asked for. Counts one step for each.
pub fn block_of<L: Ledger>(
    alloc: Global,
    taken: &[Owned],
    now: &Now,
    steps: &mut Steps<L>,
) -> Result<Block, NoMemory>
    requires { All (λ o. IsAskable (live_of now.now.motions.now) o.fact.form) taken.now }
    ensures value { IfOk result (λ b. b ≡ record { moment = now.now.moment.now; failures = map (λ o. seen_in (scene_at now.now.motions.now now.now.moment.now) (certificate_of o)) taken.now }) }
    ensures count { OnOk result (steps.new ≡ steps.old + length taken.now) }
{
    let mut failures = Vec::new(alloc);
    failures.reserve(taken.len())?;
    for owned in taken {
        let failure = Failure {
            structure: owned.structure,
            part: owned.part,
            form: owned.fact.form,
            before: owned.fact.sign,
            after: now.sign(&owned.fact.form, steps),
        };
        failures.push(failure).map_err(|_| NoMemory)?;
    }
    Ok(Block {
        moment: *now.moment,
        failures,
    })
}
