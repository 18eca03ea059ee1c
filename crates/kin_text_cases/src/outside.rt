//! The first line outside the grammar.

use kin_num::NoMemory;
use kin_script::read::{ReadError, read};
use std::alloc::Global;
use std::process::Abort;

/// The first line outside the grammar, or 0 where there is none.
fn first_outside(alloc: Global, bytes: &[u8]) -> Result<u32, NoMemory> {
    if bytes.len() > 1 << 20 {
        return Ok(0);
    }
    match read(alloc, bytes) {
        Ok(_) => Ok(0),
        Err(ReadError::BadLine(line)) => Ok(line),
        Err(ReadError::NoMemory) => Err(NoMemory),
    }
}

/// The line that is given with a text has to be the first outside, or none where it is 0.
pub fn are_outside(rt: &impl Abort, alloc: Global, rows: &[(&[u8], u32)]) -> Result<(), NoMemory> {
    for (bytes, line) in rows {
        let first = first_outside(alloc, bytes)?;
        assert_eq!(rt; first, *line, "{}", bytes.escape_ascii());
    }
    Ok(())
}
