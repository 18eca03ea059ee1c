//! The lines that a run writes of its own.

ghost use Rattle.std.specs.Prelude.{◌≡◌, ◌++◌, IfOk, OnOk, OnErr};
ghost use Rattle.kin_script.specs.Printed.{PutsFront};
ghost use Rattle.kin_script.specs.Text.{bad_line, refused_line};
ghost use Rattle.kin_status.specs.Tallies.{tally_line};

use crate::tally::Tally;
use kin_num::memory::NoMemory;
use kin_print::piece::{put_bytes, put_number};
use kin_script::refusal::Refusal;
use std::alloc::Global;

/// The line that names the first line outside the grammar.
pub fn bad_text(alloc: Global, line: u32) -> Result<Vec<u8>, NoMemory>
    ensures { IfOk result (λ out. out.items ≡ bad_line line) }
{
    let mut out = Vec::new(alloc);
    put_bytes(&mut out, b"bad ")?;
    put_number(&mut out, line)?;
    put_bytes(&mut out, b"\n")?;
    Ok(out)
}

/// Appends the line of a refused command.
pub fn put_refused(out: &mut Vec<u8>, line: u32, refusal: Refusal) -> Result<(), NoMemory>
    ensures ok { OnOk result (out.new.items ≡ out.old.items ++ refused_line line refusal) }
    ensures err { OnErr result (PutsFront out.old.items out.new.items (refused_line line refusal)) }
{
    put_bytes(out, b"refused ")?;
    put_number(out, line)?;
    put_bytes(out, b" ")?;
    put_bytes(out, refusal.name().as_bytes())?;
    put_bytes(out, b"\n")
}

/// The line with what a generated run has passed.
pub fn demo_text(alloc: Global, tally: &Tally) -> Result<Vec<u8>, NoMemory>
    ensures { IfOk result (λ out. out.items ≡ tally_line tally.now) }
{
    let mut out = Vec::new(alloc);
    put_bytes(&mut out, b"demo ")?;
    put_number(&mut out, tally.moments)?;
    put_bytes(&mut out, b" ")?;
    put_number(&mut out, tally.failures)?;
    put_bytes(&mut out, b"\n")?;
    Ok(out)
}
