//! The run of a generated script.

ghost use Rattle.std.specs.Prelude.{◌≡◌, ◌≤◌, ◌<◌, ◌^◌};
ghost use Rattle.kin_io.specs.Causes.{Rose};
ghost use Rattle.kin_status.specs.Demo.{WritesDemo};
ghost use Rattle.kin_status.specs.Written.{Wrote};

use crate::play::play_script;
use kin_io::sink::Sink;
use kin_script::generate;
use kin_status::ending::write_tally;
use kin_status::status::{Side, Status, status_of};
use kin_status::tally::Tally;
use std::alloc::Global;
use std::marker::Brand;
use std::sync::ledger::{Blank, Ledger};

/// Runs a generated script, and writes how many blocks and failures it passed. None of its commands is
/// refused.
fn run_generated<K: Sink, L: Ledger>(
    alloc: Global,
    seed: u32,
    count: u32,
    sink: &mut K,
    blank: Blank,
) -> Status
    requires name { blank.name ≡ L.name }
    requires parts { blank.parts ≡ L.parts }
    requires some { 0 < L.parts }
    requires low { 1 ≤ count }
    requires high { count ≤ 2 ^ 10 }
    ensures writes { Wrote (K.held sink.old) (K.held sink.new) (WritesDemo seed count result) }
    ensures later { K.faults sink.old ≤ K.faults sink.new }
    ensures cause { result ≡ Status.Fault Side.Write → Rose (K.faults sink.old) (K.faults sink.new) }
{
    let Ok(script) = generate(alloc, seed, count) else {
        return Status::NoMemory;
    };
    let mut tally = Some(Tally::new());
    match play_script::<K, L>(alloc, &script, sink, blank, &mut tally) {
        Ok(None) => {
            let Some(counts) = tally else { unreachable!() };
            match write_tally(alloc, &counts, sink) {
                Ok(()) => Status::Done,
                Err(stop) => status_of(stop),
            }
        }
        Ok(Some(_)) => unreachable!(),
        Err(stop) => status_of(stop),
    }
}

/// Runs a generated script, with a counter of its own. The source isn't touched.
pub fn run_demo<K: Sink>(alloc: Global, seed: u32, count: u32, sink: &mut K) -> Status
    requires low { 1 ≤ count }
    requires high { count ≤ 2 ^ 10 }
    ensures writes { Wrote (K.held sink.old) (K.held sink.new) (WritesDemo seed count result) }
    ensures cause { result ≡ Status.Fault Side.Write → Rose (K.faults sink.old) (K.faults sink.new) }
{
    run_generated::<K, Brand>(alloc, seed, count, sink, Blank::new(1))
}
