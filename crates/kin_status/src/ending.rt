//! What a run writes last.

ghost use Rattle.std.specs.Prelude.{◌≡◌, ◌≤◌, Err, OnOk, OnErr, IsErrOf};
ghost use Rattle.std.specs.Io.KnownBytes.{Appends};
ghost use Rattle.kin_io.specs.Causes.{Rose};
ghost use Rattle.kin_io.specs.Ends.{AppendsFront};
ghost use Rattle.kin_script.specs.Grammar.{script_of};
ghost use Rattle.kin_status.specs.declared.stop.Stop.TheVariants.{Fault as FaultOf, NoMemory as WantOfMemory};
ghost use Rattle.kin_status.specs.Headline.{Writes};
ghost use Rattle.kin_status.specs.Tallies.{tally_line};
ghost use Rattle.kin_status.specs.Written.{Wrote};

use crate::status::{Side, Status};
use crate::stop::Stop;
use crate::tally::Tally;
use crate::text::{bad_text, demo_text};
use crate::write::flush;
use kin_io::sink::Sink;
use std::alloc::Global;

/// Writes the line that names the first line outside the grammar.
pub fn refuse_script<K: Sink>(alloc: Global, input: &[u8], line: u32, sink: &mut K) -> Status
    requires { script_of input.now ≡ Err line }
    ensures writes { Wrote (K.held sink.old) (K.held sink.new) (Writes input.now result) }
    ensures later { K.faults sink.old ≤ K.faults sink.new }
    ensures cause { result ≡ Status.Fault Side.Write → Rose (K.faults sink.old) (K.faults sink.new) }
{
    let Ok(mut out) = bad_text(alloc, line) else {
        return Status::NoMemory;
    };
    match flush(&mut out, sink) {
        Ok(()) => Status::Script(line),
        Err(_) => Status::Fault(Side::Write),
    }
}

/// Writes how much a run has passed.
pub fn write_tally<K: Sink>(alloc: Global, tally: &Tally, sink: &mut K) -> Result<(), Stop>
    ensures ok { OnOk result (Appends (K.held sink.old) (K.held sink.new) (tally_line tally.now)) }
    ensures err { OnErr result (AppendsFront (K.held sink.old) (K.held sink.new) (tally_line tally.now)) }
    ensures later { K.faults sink.old ≤ K.faults sink.new }
    ensures cause { IsErrOf result FaultOf → Rose (K.faults sink.old) (K.faults sink.new) }
{
    let mut out = demo_text(alloc, tally)?;
    flush(&mut out, sink)?;
    Ok(())
}

/// Writes what was gathered before memory ran out, or a prefix of it where a write fails. After a failed
/// write nothing more is written.
pub fn salvage<K: Sink>(stop: Stop, out: &mut Vec<u8>, sink: &mut K)
    ensures front { stop ≡ WantOfMemory → AppendsFront (K.held sink.old) (K.held sink.new) out.old.items }
    ensures untouched { stop ≡ FaultOf → sink.new ≡ sink.old }
    ensures later { K.faults sink.old ≤ K.faults sink.new }
{
    if let Stop::NoMemory = stop {
        let _ = flush(out, sink);
    }
}
