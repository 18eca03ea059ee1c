//! One command, held against what is left of a claim.

ghost use Rattle.std.specs.Prelude.{◌≡◌, OnOk};
ghost use Rattle.kin_num.specs.Canonical.{IsCanonical};
ghost use Rattle.kin_script.specs.Deeds.{asks, deed_of, goes_on, goes_to};
ghost use Rattle.kin_script.specs.Ranges.{IsCommandInRange};
ghost use Rattle.kin_status.specs.Performed.{HoweverNamed};
ghost use Rattle.kin_check.specs.Performed.{IsSilent, Performs};
ghost use Rattle.kin_check.specs.Sound.{IsSound};

use crate::change::{insert, leg, remove, replace, turn};
use crate::claim::Claim;
use crate::halt::Halt;
use crate::journal::take_journal;
use crate::next::coming;
use crate::reply::reply_to;
use crate::state::State;
use kin_instant::ratio::ratio;
use kin_num::{Instant, Moment, Phase, Steps};
use kin_print::put_reply;
use kin_script::command::Command;
use kin_script::refusal::Refusal;
use kin_status::asked::{is_before, named_root};
use std::alloc::Global;
use std::sync::ledger::Ledger;

/// What was done prints nothing, and each claim begins with that.
fn silent(done: Result<(), Halt>) -> Result<bool, Halt>
    ensures { IsSilent done result }
{
    match done {
        Ok(()) => Ok(true),
        Err(halt) => Err(halt),
    }
}

/// Goes to the asked instant.
fn go_to<L: Ledger>(
    alloc: Global,
    state: &mut State,
    asked: Instant,
    claim: &mut Claim<'_>,
    steps: &mut Steps<L>,
) -> Result<bool, Halt>
    requires sound { IsSound state.old }
    requires canonical { IsCanonical asked }
    ensures performs { HoweverNamed asked (λ upper p. Performs state.old (goes_to upper p) result claim.old claim.new state.new) }
    ensures sound { OnOk result (IsSound state.new) }
{
    if is_before(&asked, &state.moment()) {
        return Err(Halt::Refused(Refusal::Past));
    }
    let agrees = take_journal(alloc, state, asked, claim, steps)?;
    state.go(Moment {
        at: asked,
        phase: Phase::At,
    });
    Ok(agrees)
}

/// Goes to what comes next.
fn go_on<L: Ledger>(
    alloc: Global,
    state: &mut State,
    claim: &mut Claim<'_>,
    steps: &mut Steps<L>,
) -> Result<bool, Halt>
    requires { IsSound state.old }
    ensures performs { Performs state.old goes_on result claim.old claim.new state.new }
    ensures sound { OnOk result (IsSound state.new) }
{
    let next = coming(alloc, state, steps)?;
    let mut out = Vec::new(alloc);
    next.put(state.journal(), &mut out)?;
    state.go(next.moment(&state.moment()));
    Ok(claim.take(&out))
}

/// Answers a question.
fn answer<L: Ledger>(
    alloc: Global,
    state: &State,
    command: &Command,
    claim: &mut Claim<'_>,
    steps: &mut Steps<L>,
) -> Result<bool, Halt>
    requires sound { IsSound state.now }
    requires range { IsCommandInRange state.now.size command.now }
    ensures { Performs state.now (asks command.now) result claim.old claim.new state.now }
{
    let reply = reply_to(alloc, state, command, steps)?;
    let mut out = Vec::new(alloc);
    put_reply(&mut out, &reply)?;
    Ok(claim.take(&out))
}

/// Carries out a command. Where what is left of the claim begins with what it prints, that is taken away; otherwise the
/// claim differs. A refused one takes nothing away.
pub fn perform<L: Ledger>(
    alloc: Global,
    state: &mut State,
    command: &Command,
    claim: &mut Claim<'_>,
    steps: &mut Steps<L>,
) -> Result<bool, Halt>
    requires sound { IsSound state.old }
    requires range { IsCommandInRange state.old.size command.now }
    ensures performs { Performs state.old (deed_of command.now) result claim.old claim.new state.new }
    ensures sound { OnOk result (IsSound state.new) }
{
    match *command {
        Command::Insert { no, m } => silent(insert(state, no, m)),
        Command::Remove { no } => silent(remove(state, no)),
        Command::Replace { no, m } => silent(replace(state, no, m)),
        Command::Turn { no, u, v } => silent(turn(state, no, u, v)),
        Command::Leg { no, at, u, v } => silent(leg(state, no, at, u, v)),
        Command::AtRatio { n, d } => go_to(alloc, state, ratio(n, d), claim, steps),
        Command::AtRoot { a, b, c, upper } => match named_root(a, b, c, upper) {
            Some(asked) => go_to(alloc, state, asked, claim, steps),
            None => Err(Halt::Refused(Refusal::NoRoot)),
        },
        Command::Next => go_on(alloc, state, claim, steps),
        _ => answer(alloc, state, command, claim, steps),
    }
}
