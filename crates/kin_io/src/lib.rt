//! Where the bytes of a run come from and where they go.
//!
//! A contract sees a `Source` as the bytes that it has still to give, and a `Sink` as those that it has
//! taken, where they are known. Both count their faults. `read_all` and `write_all` say which bytes got
//! through, and answer a fault only where such a count rose. `MemSource` and `MemSink` fail at chosen
//! calls, so that a test reaches each fault.
#![tactic(auto)]

pub mod memory;
mod schedule;
pub mod sink;
pub mod source;
pub mod standard;
