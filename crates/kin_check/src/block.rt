//! Blocks: the failures at one moment.

ghost use Rattle.std.specs.Prelude.{◌≡◌, ◌++◌, IfOk, OnOk};
ghost use Rattle.std.specs.List.{All};
ghost use Rattle.kin_num.specs.Canonical.{IsCanonical};
ghost use Rattle.kin_num.specs.Order.{IsEarlier};
ghost use Rattle.kin_motion.specs.Course.{live_of};
ghost use Rattle.kin_motion.specs.Forms.{IsAskable};
ghost use Rattle.kin_motion.specs.Plans.{motions_in_force, plans_scene};
ghost use Rattle.kin_script.specs.PrintedJournal.{block_lines};
ghost use Rattle.kin_fail.specs.Blocks.{failure_of};
ghost use Rattle.kin_check.specs.Blocks.{IsNextBlockBy, failures_seen};
ghost use Rattle.kin_check.specs.Sound.{IsSound};

use crate::event::{Event, first_event_by};
use crate::sight::{facts_at, sight_at};
use crate::state::State;
use kin_fail::owned::Failure;
use kin_num::memory::NoMemory;
use kin_num::{Moment, Steps};
use kin_plain::failures::{Seen, failures_of};
use kin_plain::keeps::Owned;
use kin_print::put_failure;
use std::alloc::Global;
use std::marker::Model;
use std::sync::ledger::Ledger;

/// The failures at one moment, in the journal's order.
#[derive(Drop)]
pub struct Block {
    moment: Moment,
    failures: Vec<Seen>,
}

impl Model for Block {
    ghost use Rattle.kin_motion.specs.Journal.{Block};

    ghost Value = { Block };

    ghost view = { λ b. record { moment = b.moment; failures = b.failures.items } };
}

/// A failure as it is printed.
fn printed(seen: &Seen) -> Failure
    ensures { failure_of result ≡ seen.now }
{
    let was = seen.was();
    let placed = was.placed();
    Failure {
        structure: was.structure(),
        part: placed.part,
        form: placed.fact.form,
        before: placed.fact.sign,
        after: seen.sign(),
    }
}

impl Block {
    /// The failures of these facts at a moment: those whose sign is another then.
    pub fn of<L: Ledger>(
        alloc: Global,
        state: &State,
        facts: &[Owned],
        moment: &Moment,
        steps: &mut Steps<L>,
    ) -> Result<Block, NoMemory>
        requires sound { IsSound state.now }
        requires askable { All (λ c. IsAskable (live_of (motions_in_force state.now.plans moment.now)) c.placed.fact.form) facts.now }
        ensures { IfOk result (λ b. b ≡ record { moment = moment.now; failures = failures_seen (plans_scene state.now.plans moment.now) facts.now }) }
    {
        let sight = sight_at(alloc, state, moment)?;
        let failures = failures_of(alloc, &sight, facts, steps)?;
        Ok(Block {
            moment: *moment,
            failures,
        })
    }

    /// Its moment.
    pub fn moment(&self) -> Moment
        ensures { result ≡ self.now.moment }
    {
        self.moment
    }

    /// Appends its lines.
    pub fn put(&self, out: &mut Vec<u8>) -> Result<(), NoMemory>
        ensures { OnOk result (out.new.items ≡ out.old.items ++ block_lines self.now) }
    {
        for seen in &self.failures {
            put_failure(out, &self.moment, &printed(seen))?;
        }
        Ok(())
    }
}

/// The next block after a moment, if it comes by the last one. Where a leg begins sooner, its motion is put in, and the
/// same facts are looked at from there on: all of them hold there.
pub fn next_block<L: Ledger>(
    alloc: Global,
    state: &State,
    from: &Moment,
    last: &Moment,
    steps: &mut Steps<L>,
) -> Result<Option<Block>, NoMemory>
    requires sound { IsSound state.now }
    requires from { IsCanonical from.now.at }
    requires last { IsCanonical last.now.at }
    requires in_time { ¬ (IsEarlier last.now from.now) }
    ensures { IfOk result (IsNextBlockBy state.now from.now last.now) }
{
    let facts = facts_at(alloc, state, from, steps)?;
    let mut event = first_event_by(alloc, state, &facts, from, last, steps)?;
    while let Event::Leg(begins) = event {
        event = first_event_by(alloc, state, &facts, &begins, last, steps)?;
    }
    match event {
        Event::Failure(moment) => Ok(Some(Block::of(alloc, state, &facts, &moment, steps)?)),
        _ => Ok(None),
    }
}
