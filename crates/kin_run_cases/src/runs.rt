//! A run over a source and a sink in memory.

ghost use Rattle.std.specs.Prelude.{◌<◌};

use kin_io::memory::{MemSink, MemSource};
use kin_run::run::run;
use kin_run::status::Status;
use std::alloc::Global;
use std::test::Fail;

/// The one argument `run`.
pub fn word(alloc: Global) -> Result<Vec<String>, Fail> {
    let run = String::from_str(alloc, "run")?;
    Ok(vec![in alloc; run]?)
}

/// A source of the bytes of a text.
pub fn source_of(
    alloc: Global,
    text: &str,
    piece: usize,
    failing: Vec<u64>,
) -> Result<MemSource, Fail>
    requires { 0 < piece }
{
    let bytes = Vec::from_slice(alloc, text.as_bytes())?;
    Ok(MemSource::new(bytes, piece, failing))
}

/// Runs the script of a source, to a sink with so much room, of whose calls those with these numbers fail.
pub fn run_to(
    alloc: Global,
    mut source: MemSource,
    room: u64,
    failing: Vec<u64>,
) -> Result<(Status, MemSink), Fail> {
    let words = word(alloc)?;
    let mut sink = MemSink::new(alloc, room, failing)?;
    let status = run(alloc, &words, &mut source, &mut sink);
    Ok((status, sink))
}
