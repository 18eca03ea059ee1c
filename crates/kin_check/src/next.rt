//! What comes next: facts fail, or a leg begins.

ghost use Rattle.std.specs.Prelude.{◌≡◌, ◌++◌, IfOk, OnOk};
ghost use Rattle.kin_legs.specs.Nexts.{IsNext};
ghost use Rattle.kin_script.specs.States.{state_view};
ghost use Rattle.kin_script.specs.Text.{next_lines};
ghost use Rattle.kin_check.specs.Coming.{comes, moment_after};
ghost use Rattle.kin_check.specs.Sound.{IsSound};

use crate::block::Block;
use crate::event::{Event, first_event};
use crate::sight::facts_at;
use crate::state::State;
use kin_num::memory::NoMemory;
use kin_num::{Moment, Steps};
use kin_print::put_bytes;
use kin_status::journal::put_now;
use std::alloc::Global;
use std::sync::ledger::Ledger;

/// What comes next.
#[derive(Drop)]
pub enum Next {
    /// Facts fail.
    Failures(Block),
    /// A leg begins, and nothing fails.
    Leg(Moment),
    /// Nothing, ever.
    Nothing,
}

/// What comes next, seen from now.
pub fn coming<L: Ledger>(
    alloc: Global,
    state: &State,
    steps: &mut Steps<L>,
) -> Result<Next, NoMemory>
    requires { IsSound state.now }
    ensures { IfOk result (λ n. IsNext (state_view state.now) (comes n)) }
{
    let now = state.moment();
    let facts = facts_at(alloc, state, &now, steps)?;
    match first_event(alloc, state, &facts, &now, steps)? {
        Event::Failure(moment) => Ok(Next::Failures(Block::of(
            alloc, state, &facts, &moment, steps,
        )?)),
        Event::Leg(moment) => Ok(Next::Leg(moment)),
        Event::Nothing => Ok(Next::Nothing),
    }
}

impl Next {
    /// When it comes, or now where nothing does.
    pub fn moment(&self, now: &Moment) -> Moment
        ensures { result ≡ moment_after (comes self.now) now.now }
    {
        match self {
            Next::Failures(block) => block.moment(),
            Next::Leg(moment) => *moment,
            Next::Nothing => *now,
        }
    }

    /// Appends its lines. Those of failures are printed where the journal is on.
    pub fn put(&self, journal: bool, out: &mut Vec<u8>) -> Result<(), NoMemory>
        ensures { OnOk result (out.new.items ≡ out.old.items ++ next_lines journal (comes self.now)) }
    {
        match self {
            Next::Failures(block) => {
                if journal {
                    block.put(out)?;
                }
                put_now(out, &block.moment())
            }
            Next::Leg(moment) => put_now(out, moment),
            Next::Nothing => put_bytes(out, b"none\n"),
        }
    }
}
