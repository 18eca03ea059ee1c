//! The lines of passed blocks.

ghost use Rattle.std.specs.Prelude.{◌≡◌, ◌++◌, length, OnOk, OnErr};
ghost use Rattle.kin_script.specs.Printed.{PutsFront};
ghost use Rattle.kin_script.specs.PrintedJournal.{block_lines, now_line};
ghost use Rattle.kin_status.specs.Passed.{printed_if};

use kin_fail::Block;
use kin_num::{Moment, NoMemory};
use kin_print::{put_bytes, put_failure, put_moment};

/// How many failures a block has.
pub fn count_of(block: &Block) -> usize
    ensures { result ≡ length block.now.failures }
{
    block.failures.len()
}

/// Appends the lines of a block.
fn put_block(out: &mut Vec<u8>, block: &Block) -> Result<(), NoMemory>
    ensures ok { OnOk result (out.new.items ≡ out.old.items ++ block_lines block.now) }
    ensures err { OnErr result (PutsFront out.old.items out.new.items (block_lines block.now)) }
{
    for failure in &block.failures {
        put_failure(out, &block.moment, failure)?;
    }
    Ok(())
}

/// Appends the lines of a block where the journal is on.
pub fn put_if_on(out: &mut Vec<u8>, journal: bool, block: &Block) -> Result<(), NoMemory>
    ensures ok { OnOk result (out.new.items ≡ out.old.items ++ printed_if journal block.now) }
    ensures err { OnErr result (PutsFront out.old.items out.new.items (printed_if journal block.now)) }
{
    if journal {
        put_block(out, block)?;
    }
    Ok(())
}

/// Appends the line with the moment that `next` moved to.
pub fn put_now(out: &mut Vec<u8>, now: &Moment) -> Result<(), NoMemory>
    ensures ok { OnOk result (out.new.items ≡ out.old.items ++ now_line now.now) }
    ensures err { OnErr result (PutsFront out.old.items out.new.items (now_line now.now)) }
{
    put_bytes(out, b"now ")?;
    put_moment(out, now)?;
    put_bytes(out, b"\n")
}

/// Appends a block where the journal is on, and the line with its moment.
pub fn put_passed(out: &mut Vec<u8>, journal: bool, block: &Block) -> Result<(), NoMemory>
    ensures ok { OnOk result (out.new.items ≡ out.old.items ++ (printed_if journal block.now ++ now_line block.now.moment)) }
    ensures err { OnErr result (PutsFront out.old.items out.new.items (printed_if journal block.now ++ now_line block.now.moment)) }
{
    put_if_on(out, journal, block)?;
    put_now(out, &block.moment)
}
