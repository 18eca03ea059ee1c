//! The commands of a script in turn, and the bytes that they print.

ghost use Rattle.std.specs.Prelude.{◌≡◌, ◌≤◌, ◌<◌, [], None, All, IfOk, OnErr, IsErrOf};
ghost use Rattle.kin_io.specs.Causes.{Rose};
ghost use Rattle.kin_script.specs.Ranges.{IsCommandInRange, IsInRange};
ghost use Rattle.kin_script.specs.Text.{Text};
ghost use Rattle.kin_status.specs.declared.stop.Stop.TheVariants.{Fault as FaultOf};
ghost use Rattle.kin_status.specs.Demo.{start_of};
ghost use Rattle.kin_status.specs.Passed.{PassesInTurn};
ghost use Rattle.kin_status.specs.Performed.{IsCutOfText, PutsAll};
ghost use Rattle.kin_status.specs.Tallies.{HasTallied};
ghost use Rattle.kin_status.specs.Written.{Wrote, printer};
ghost use Rattle.kin_world.specs.Worlds.{IsWhole};
ghost use Rattle.kin_run.specs.States.{state_of};

use crate::perform::perform;
use kin_io::sink::Sink;
use kin_num::Steps;
use kin_script::command::Command;
use kin_script::refusal::Refusal;
use kin_script::script::Script;
use kin_status::ending::salvage;
use kin_status::stop::{Halt, Stop};
use kin_status::tally::Tally;
use kin_status::text::put_refused;
use kin_status::write::{flush, flush_if_due};
use kin_world::world::World;
use std::alloc::Global;
use std::sync::ledger::{Blank, Ledger};

/// Whether the command printed a block that the sink hasn't been given. `at` hands its blocks over
/// itself.
fn prints_block(journal: bool, command: &Command) -> bool {
    journal && matches!(command, Command::Next)
}

/// Carries out commands in turn, up to the first that is refused, whose line is the last. What they
/// print is gathered, and written once it is 64 KiB or has a block of the journal; no clause says so.
fn perform_each<K: Sink, L: Ledger>(
    world: &mut World,
    journal: bool,
    lines: &[(u32, Command)],
    out: &mut Vec<u8>,
    sink: &mut K,
    steps: &mut Steps<L>,
    tally: &mut Option<Tally>,
) -> Result<Option<(u32, Refusal)>, Stop>
    requires whole { IsWhole world.old }
    requires ranges { All (λ line. IsCommandInRange world.old.size line.1) lines.now }
    ensures tallied { IfOk result (λ ending. ending ≡ None → HasTallied (PassesInTurn (state_of journal world.old) lines.now) tally.old tally.new) }
    ensures text { PutsAll (state_of journal world.old) lines.now result (printer (K.held sink.old) out.old.items) (printer (K.held sink.new) out.new.items) }
    ensures later { K.faults sink.old ≤ K.faults sink.new }
    ensures cause { IsErrOf result FaultOf → Rose (K.faults sink.old) (K.faults sink.new) }
{
    for (line, command) in lines {
        match perform(world, journal, command, out, sink, steps, tally) {
            Ok(()) => flush_if_due(prints_block(journal, command), out, sink)?,
            Err(Halt::Refused(refusal)) => {
                put_refused(out, *line, refusal)?;
                return Ok(Some((*line, refusal)));
            }
            Err(Halt::Broken(stop)) => return Err(stop),
        }
    }
    Ok(None)
}

/// Carries out commands in turn, up to the first that is refused, writes what they print and, if none is
/// refused, counts the blocks that they pass. Answers the line and the refusal of that one.
pub fn play<K: Sink, L: Ledger>(
    alloc: Global,
    world: &mut World,
    journal: bool,
    lines: &[(u32, Command)],
    sink: &mut K,
    steps: &mut Steps<L>,
    tally: &mut Option<Tally>,
) -> Result<Option<(u32, Refusal)>, Stop>
    requires whole { IsWhole world.old }
    requires ranges { All (λ line. IsCommandInRange world.old.size line.1) lines.now }
    ensures tallied { IfOk result (λ ending. ending ≡ None → HasTallied (PassesInTurn (state_of journal world.old) lines.now) tally.old tally.new) }
    ensures ok { IfOk result (λ ending. Wrote (K.held sink.old) (K.held sink.new) (λ text. Text (state_of journal world.old) lines.now text ending)) }
    ensures cut { OnErr result (Wrote (K.held sink.old) (K.held sink.new) (IsCutOfText (state_of journal world.old) lines.now)) }
    ensures later { K.faults sink.old ≤ K.faults sink.new }
    ensures cause { IsErrOf result FaultOf → Rose (K.faults sink.old) (K.faults sink.new) }
{
    let mut out = Vec::new(alloc);
    match perform_each(world, journal, lines, &mut out, sink, steps, tally) {
        Ok(ending) => {
            flush(&mut out, sink)?;
            Ok(ending)
        }
        Err(stop) => {
            salvage(stop, &mut out, sink);
            Err(stop)
        }
    }
}

/// Plays a script from its start, and counts the blocks that it passes. The steps that its world counts are
/// in no contract here.
pub fn play_script<K: Sink, L: Ledger>(
    alloc: Global,
    script: &Script,
    sink: &mut K,
    blank: Blank,
    tally: &mut Option<Tally>,
) -> Result<Option<(u32, Refusal)>, Stop>
    requires name { blank.name ≡ L.name }
    requires parts { blank.parts ≡ L.parts }
    requires some { 0 < L.parts }
    requires ranges { IsInRange script.now }
    ensures ok { IfOk result (λ ending. Wrote (K.held sink.old) (K.held sink.new) (λ text. Text (start_of script.now) script.now.lines text ending)) }
    ensures tallied { IfOk result (λ ending. ending ≡ None → HasTallied (PassesInTurn (start_of script.now) script.now.lines) tally.old tally.new) }
    ensures cut { OnErr result (Wrote (K.held sink.old) (K.held sink.new) (IsCutOfText (start_of script.now) script.now.lines)) }
    ensures later { K.faults sink.old ≤ K.faults sink.new }
    ensures cause { IsErrOf result FaultOf → Rose (K.faults sink.old) (K.faults sink.new) }
{
    let mut steps = Steps::<L>::open(blank);
    let mut world = World::new(alloc, script.size, script.keeps.as_slice())?;
    play(
        alloc,
        &mut world,
        script.journal,
        script.lines.as_slice(),
        sink,
        &mut steps,
        tally,
    )
}
