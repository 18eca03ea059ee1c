//! Lines of a single number.

ghost use Rattle.std.specs.Prelude.{◌≡◌, ◌++◌, OnOk, OnErr};
ghost use Rattle.kin_script.specs.Printed.{PutsFront};
ghost use Rattle.kin_script.specs.PrintedJournal.{count_line, one_line};

use crate::piece::{put_bytes, put_number};
use kin_num::NoMemory;

/// Appends a number as a line.
pub fn put_count(out: &mut Vec<u8>, n: u64) -> Result<(), NoMemory>
    ensures ok { OnOk result (out.new.items ≡ out.old.items ++ count_line n) }
    ensures err { OnErr result (PutsFront out.old.items out.new.items (count_line n)) }
{
    put_number(out, n)?;
    put_bytes(out, b"\n")
}

/// Appends a number, or the word `none`, as a line.
pub fn put_one(out: &mut Vec<u8>, one: Option<u32>) -> Result<(), NoMemory>
    ensures ok { OnOk result (out.new.items ≡ out.old.items ++ one_line one) }
    ensures err { OnErr result (PutsFront out.old.items out.new.items (one_line one)) }
{
    match one {
        Some(n) => put_count(out, u64::from(n)),
        None => put_bytes(out, b"none\n"),
    }
}
