//! One command: its refusals first, then what it does.

ghost use Rattle.std.specs.Prelude.{◌≡◌, ◌≢◌, ◌≤◌, Bool, OnOk, IsErrOf};
ghost use Rattle.kin_num.specs.Canonical.{IsCanonical};
ghost use Rattle.kin_num.specs.Quadratic.{Quadratic};
ghost use Rattle.kin_io.specs.Causes.{Rose};
ghost use Rattle.kin_script.specs.Deeds.{deed_of, goes_to};
ghost use Rattle.kin_script.specs.Ranges.{IsCommandInRange};
ghost use Rattle.kin_script.specs.Replay.{IsNamedRoot};
ghost use Rattle.kin_status.specs.declared.stop.Halt.TheVariants.{Broken as BrokenOff};
ghost use Rattle.kin_status.specs.declared.stop.Stop.TheVariants.{Fault as FaultOf};
ghost use Rattle.kin_status.specs.Passed.{Passes};
ghost use Rattle.kin_status.specs.Performed.{Performs, OnRefused};
ghost use Rattle.kin_status.specs.Tallies.{HasTallied};
ghost use Rattle.kin_status.specs.Written.{printer};
ghost use Rattle.kin_world.specs.Worlds.{IsWhole};
ghost use Rattle.kin_run.specs.States.{state_of};

use crate::change::{insert, leg, remove, replace, turn};
use crate::go_to::go_to;
use crate::next::put_next;
use crate::reply::put_reply_to;
use kin_instant::ratio::ratio;
use kin_io::sink::Sink;
use kin_num::{Instant, Steps};
use kin_script::command::Command;
use kin_script::refusal::Refusal;
use kin_status::asked::{is_before, named_root};
use kin_status::stop::Halt;
use kin_status::tally::Tally;
use kin_world::world::World;
use std::sync::ledger::Ledger;

/// Moves to the asked instant, which is not before now.
fn move_to<K: Sink, L: Ledger>(
    world: &mut World,
    journal: bool,
    asked: Instant,
    out: &mut Vec<u8>,
    sink: &mut K,
    steps: &mut Steps<L>,
    tally: &mut Option<Tally>,
) -> Result<(), Halt>
    requires whole { IsWhole world.old }
    requires canonical { IsCanonical asked }
    ensures performs { (upper : Bool) (p : Quadratic) → IsNamedRoot upper p asked → Performs (state_of journal world.old) (goes_to upper p) result (printer (K.held sink.old) out.old.items) (printer (K.held sink.new) out.new.items) (state_of journal world.new) }
    ensures tallied { (upper : Bool) (p : Quadratic) → IsNamedRoot upper p asked → OnOk result (HasTallied (Passes (state_of journal world.old) (goes_to upper p)) tally.old tally.new) }
    ensures refused { OnRefused result (world.new ≡ world.old) }
    ensures whole { OnOk result (IsWhole world.new) }
    ensures later { K.faults sink.old ≤ K.faults sink.new }
    ensures cause { IsErrOf result (BrokenOff FaultOf) → Rose (K.faults sink.old) (K.faults sink.new) }
{
    if is_before(&asked, world.now()) {
        return Err(Halt::Refused(Refusal::Past));
    }
    go_to(world, journal, asked, out, sink, steps, tally)?;
    Ok(())
}

/// Carries out a command, appends what it prints, and counts the blocks that it passes; `at` may also
/// write to the sink. A refused one leaves the world as it was.
pub fn perform<K: Sink, L: Ledger>(
    world: &mut World,
    journal: bool,
    command: &Command,
    out: &mut Vec<u8>,
    sink: &mut K,
    steps: &mut Steps<L>,
    tally: &mut Option<Tally>,
) -> Result<(), Halt>
    requires whole { IsWhole world.old }
    requires range { IsCommandInRange world.old.size command.now }
    ensures performs { Performs (state_of journal world.old) (deed_of command.now) result (printer (K.held sink.old) out.old.items) (printer (K.held sink.new) out.new.items) (state_of journal world.new) }
    ensures tallied { OnOk result (HasTallied (Passes (state_of journal world.old) (deed_of command.now)) tally.old tally.new) }
    ensures refused { OnRefused result (world.new ≡ world.old) }
    ensures whole { OnOk result (IsWhole world.new) }
    ensures later { K.faults sink.old ≤ K.faults sink.new }
    ensures cause { IsErrOf result (BrokenOff FaultOf) → Rose (K.faults sink.old) (K.faults sink.new) }
{
    match *command {
        Command::Insert { no, m } => insert(world, no, m, steps),
        Command::Remove { no } => remove(world, no, steps),
        Command::Replace { no, m } => replace(world, no, m, steps),
        Command::Turn { no, u, v } => turn(world, no, u, v, steps),
        Command::Leg { no, at, u, v } => leg(world, no, at, u, v),
        Command::AtRatio { n, d } => move_to(world, journal, ratio(n, d), out, sink, steps, tally),
        Command::AtRoot { a, b, c, upper } => match named_root(a, b, c, upper) {
            Some(asked) => move_to(world, journal, asked, out, sink, steps, tally),
            None => Err(Halt::Refused(Refusal::NoRoot)),
        },
        Command::Next => Ok(put_next(world, journal, out, steps, tally)?),
        _ => put_reply_to(world, command, out),
    }
}
