//! Lists of numbers, and pairs.

ghost use Rattle.std.specs.Prelude.{◌≡◌, ◌++◌, OnOk, OnErr, codes};
ghost use Rattle.std.specs.List.{flat_map};
ghost use Rattle.kin_script.specs.Printed.{list_line, PutsFront};
ghost use Rattle.kin_script.specs.PrintedJournal.{two_line, pair_line, pairs_lines};
ghost use Rattle.kin_print.specs.Pieces.{spaced};

use crate::piece::{put_bytes, put_number};
use kin_num::NoMemory;

/// Appends the numbers, separated by one space, or the word `none`, as a line.
pub fn put_list(out: &mut Vec<u8>, list: &[u32]) -> Result<(), NoMemory>
    ensures ok { OnOk result (out.new.items ≡ out.old.items ++ list_line list.now) }
    ensures err { OnErr result (PutsFront out.old.items out.new.items (list_line list.now)) }
{
    match list {
        [] => put_bytes(out, b"none\n"),
        [first, rest @ ..] => {
            put_number(out, *first)?;
            put_rest(out, rest)
        }
    }
}

/// Appends the numbers after the first, and the line end.
fn put_rest(out: &mut Vec<u8>, list: &[u32]) -> Result<(), NoMemory>
    ensures ok { OnOk result (out.new.items ≡ out.old.items ++ (flat_map spaced list.now ++ codes "\n")) }
    ensures err { OnErr result (PutsFront out.old.items out.new.items (flat_map spaced list.now ++ codes "\n")) }
{
    put_each(out, list)?;
    put_bytes(out, b"\n")
}

/// Appends the numbers, each after a space.
pub(crate) fn put_each(out: &mut Vec<u8>, list: &[u32]) -> Result<(), NoMemory>
    ensures ok { OnOk result (out.new.items ≡ out.old.items ++ flat_map spaced list.now) }
    ensures err { OnErr result (PutsFront out.old.items out.new.items (flat_map spaced list.now)) }
{
    for n in list {
        put_spaced(out, *n)?;
    }
    Ok(())
}

/// Appends a space and a number.
fn put_spaced(out: &mut Vec<u8>, n: u32) -> Result<(), NoMemory>
    ensures ok { OnOk result (out.new.items ≡ out.old.items ++ spaced n) }
    ensures err { OnErr result (PutsFront out.old.items out.new.items (spaced n)) }
{
    put_bytes(out, b" ")?;
    put_number(out, n)
}

/// Appends two numbers as a line.
fn put_two(out: &mut Vec<u8>, two: (u32, u32)) -> Result<(), NoMemory>
    ensures ok { OnOk result (out.new.items ≡ out.old.items ++ two_line two) }
    ensures err { OnErr result (PutsFront out.old.items out.new.items (two_line two)) }
{
    let (first, second) = two;
    put_list(out, &[first, second])
}

/// Appends a pair of numbers, or the word `none`, as a line.
pub fn put_pair(out: &mut Vec<u8>, pair: Option<(u32, u32)>) -> Result<(), NoMemory>
    ensures ok { OnOk result (out.new.items ≡ out.old.items ++ pair_line pair) }
    ensures err { OnErr result (PutsFront out.old.items out.new.items (pair_line pair)) }
{
    match pair {
        Some(two) => put_two(out, two),
        None => put_bytes(out, b"none\n"),
    }
}

/// Appends a line for each pair.
fn put_each_pair(out: &mut Vec<u8>, pairs: &[(u32, u32)]) -> Result<(), NoMemory>
    ensures ok { OnOk result (out.new.items ≡ out.old.items ++ flat_map two_line pairs.now) }
    ensures err { OnErr result (PutsFront out.old.items out.new.items (flat_map two_line pairs.now)) }
{
    for pair in pairs {
        put_two(out, *pair)?;
    }
    Ok(())
}

/// Appends a line for each pair, or the word `none` as a line.
pub fn put_pairs(out: &mut Vec<u8>, pairs: &[(u32, u32)]) -> Result<(), NoMemory>
    ensures ok { OnOk result (out.new.items ≡ out.old.items ++ pairs_lines pairs.now) }
    ensures err { OnErr result (PutsFront out.old.items out.new.items (pairs_lines pairs.now)) }
{
    if pairs.is_empty() {
        return put_bytes(out, b"none\n");
    }
    put_each_pair(out, pairs)
}
