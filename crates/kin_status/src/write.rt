//! What is gathered, and written once it is much.

ghost use Rattle.std.specs.Prelude.{◌≡◌, [], OnOk, OnErr};
ghost use Rattle.std.specs.Io.KnownBytes.{Appends};
ghost use Rattle.kin_io.specs.Causes.{HasCause};
ghost use Rattle.kin_io.specs.Ends.{AppendsFront};
ghost use Rattle.kin_status.specs.Written.{Gains, printer};

use kin_io::sink::{Sink, write_all};
use kin_io::source::Failed;

/// How many bytes are gathered before they are written.
const MANY: usize = 1 << 16;

/// Writes what was gathered, and forgets it where all was written.
pub fn flush<K: Sink>(out: &mut Vec<u8>, sink: &mut K) -> Result<(), Failed>
    ensures all { OnOk result (Appends (K.held sink.old) (K.held sink.new) out.old.items) }
    ensures nothing_left { OnOk result (out.new.items ≡ []) }
    ensures front { AppendsFront (K.held sink.old) (K.held sink.new) out.old.items }
    ensures cause { HasCause (K.faults sink.old) (K.faults sink.new) result }
{
    write_all(sink, out)?;
    out.clear();
    Ok(())
}

/// Writes what was gathered, at once or once it is much.
pub fn flush_if_due<K: Sink>(at_once: bool, out: &mut Vec<u8>, sink: &mut K) -> Result<(), Failed>
    ensures gained { OnOk result (Gains (printer (K.held sink.old) out.old.items) (printer (K.held sink.new) out.new.items) []) }
    ensures front { OnErr result (AppendsFront (K.held sink.old) (K.held sink.new) out.old.items) }
    ensures cause { HasCause (K.faults sink.old) (K.faults sink.new) result }
{
    if at_once || out.len() >= MANY {
        return flush(out, sink);
    }
    Ok(())
}
