//! Blocks of failures that are never computed, since one before them can't be written.

use crate::runs::run_to;
use kin_io::memory::MemSource;
use kin_run::status::{Side, Status};
use std::alloc::Global;
use std::test::Fail;

/// Sixteen orders of 4096 points, in which millions of pairs change places, all before the last line.
/// To write down all their failures takes more than a minute.
fn crowd(alloc: Global) -> Result<Vec<u8>, Fail> {
    let mut script = Vec::from_slice(alloc, b"size 12\njournal on\n")?;
    for _ in 0..16 {
        script.extend_from_slice(b"keep order 1 0\n")?;
    }
    for no in 0..4096u32 {
        let u = no.wrapping_mul(no) % 4093;
        let line = format!(in alloc; "insert {no} {no} 0 -{u} 0\n")?;
        script.extend_from_slice(line.as_bytes())?;
    }
    script.extend_from_slice(b"at 4096\n")?;
    Ok(script)
}

#[test]
fn a_block_that_cannot_be_written_is_the_last(rt: HostRuntime) -> Result<(), Fail> {
    let script = crowd(rt.alloc())?;
    let source = MemSource::new(script, 1 << 16, Vec::new(rt.alloc()));
    let failing = vec![in rt.alloc(); 0]?;
    let (found, sink) = run_to(rt.alloc(), source, 100, failing)?;
    assert!(rt; found == Status::Fault(Side::Write));
    assert!(rt; sink.held().is_empty());
    Ok(())
}
