//! Scripts that end too early.

use crate::runs::run_to;
use kin_io::memory::MemSource;
use kin_run::status::Status;
use std::alloc::Global;
use std::test::Fail;

/// A line; a mark for each of its bytes; and what the line prints. A script that ends after a byte marked `o`
/// prints all up to here, and one that ends after a byte marked `-` is outside the grammar at this line.
type Line = (&'static str, &'static str, &'static str);

/// Two points meet at 5 and pass each other.
const CROSSING: [Line; 10] = [
    ("size 1\n", "-----oo", ""),
    ("keep order 1 0\n", "-------------oo", ""),
    ("insert 0 0 0 1 0\n", "---------------oo", ""),
    ("insert 1 10 0 -1 0\n", "-----------------oo", ""),
    ("at 4\n", "---oo", ""),
    ("order 0\n", "------oo", "0 1\n"),
    ("at 5\n", "---oo", ""),
    ("order 0\n", "------oo", "0 1\n"),
    ("at 6\n", "---oo", ""),
    ("order 0\n", "------oo", "1 0\n"),
];

/// A line of each kind.
const KINDS: [Line; 31] = [
    ("size 2 # four\n", "-----ooooooooo", ""),
    ("keep order 1 0\n", "-------------oo", ""),
    ("keep extreme 0 1\n", "---------------oo", ""),
    ("keep hull\n", "--------oo", ""),
    ("keep closest\n", "-----------oo", ""),
    ("keep range\n", "---------oo", ""),
    ("keep nearest\n", "-----------oo", ""),
    ("keep diameter\n", "------------oo", ""),
    ("keep boxes 2 1\n", "-------------oo", ""),
    ("journal on\n", "---------oo", ""),
    ("\r\n", "oo", ""),
    ("insert 0 0 0 1 0\n", "---------------oo", ""),
    ("order 0\n", "------oo", "0\n"),
    ("next \r\n", "---oooo", "none\n"),
    ("insert 1 2 9 0 0\n", "---------------oo", ""),
    ("at 1/2\n", "---o-oo", "! 0+ 7/1 line(1,0,2) 1 0 0 +\n"),
    ("insert\t3 4 6 0 0\n", "---------------oo", ""),
    ("live\n", "---oo", "67\n"),
    ("turn 3 2 -2\n", "----------oo", ""),
    (
        "at root 1 0 -4 hi\n",
        "----------------oo",
        "! 1/2+ 7/1 line(1,0,2) 3 1 0 -\n! 4/3 3/1 line(1,-1) 3 0 + 0\n! 4/3 5/1 line(1,-1) 3 0 + 0\n! 4/3+ 3/1 line(1,-1) 0 3 0 +\n! 4/3+ 5/1 line(1,-1) 0 3 0 +\n! r(3,34,-53,hi) 3/10 dist 0 3 1 3 - 0\n! r(3,34,-53,hi) 3/15 dist 1 3 0 3 + 0\n! r(3,34,-53,hi)+ 3/10 dist 0 3 1 3 0 +\n! r(3,34,-53,hi)+ 3/15 dist 1 3 0 3 0 -\n! 2 0/0 line(1,0) 0 1 + 0\n! 2 2/4 line(1,0) 0 1 + 0\n! 2 2/5 line(1,0) 0 1 + 0\n! 2 3/2 line(1,0) 0 1 + 0\n! 2 4/0 line(1,0) 0 1 + 0\n! 2 5/2 line(1,0) 0 1 + 0\n! 2 7/0 line(1,0) 0 1 + 0\n! 2 7/3 line(1,0) 0 1 + 0\n",
    ),
    ("extreme 1\n", "--------oo", "1\n"),
    ("hull\n", "---oo", "0 3 1\n"),
    ("closest\n", "------oo", "0 3\n"),
    ("replace 0 5 5 -1 0\n", "-----------------oo", ""),
    ("leg 3 9 1 0\n", "----------oo", ""),
    ("box 0 3 -4 9\n", "-----------oo", "0 1\n"),
    ("nearest 1\n", "--------oo", "0\n"),
    ("farthest\n", "-------oo", "1 3\n"),
    ("overlaps\n", "-------oo", "none\n"),
    ("remove 3\n", "-------oo", ""),
    ("live", "---o", "32\n"),
];

/// How a run ends, and its text.
fn play(alloc: Global, script: &[u8]) -> Result<(Status, Vec<u8>), Fail> {
    let source = MemSource::new(Vec::from_slice(alloc, script)?, 64, Vec::new(alloc));
    let (status, sink) = run_to(alloc, source, 700, Vec::new(alloc))?;
    Ok((status, Vec::from_slice(alloc, sink.held())?))
}

/// Whether this text is outside the grammar at this line.
fn is_outside(alloc: Global, script: &[u8], line: u32) -> Result<bool, Fail> {
    let bad = format!(in alloc; "bad {line}\n")?;
    let (status, text) = play(alloc, script)?;
    Ok(status == Status::Script(line) && text.as_slice() == bad.as_bytes())
}

/// Whether this script runs to its end, with this text.
fn is_done(alloc: Global, script: &[u8], wanted: &[u8]) -> Result<bool, Fail> {
    let (status, text) = play(alloc, script)?;
    Ok(status == Status::Done && text.as_slice() == wanted)
}

/// How many bytes the shortest prefix has that ends in another way than the marks say.
fn first_wrong(alloc: Global, lines: &[Line]) -> Result<Option<usize>, Fail> {
    let mut script = Vec::new(alloc);
    let mut text = Vec::new(alloc);
    let mut number = 0u32;
    for (line, marks, prints) in lines {
        number = number.saturating_add(1);
        text.extend_from_slice(prints.as_bytes())?;
        for (byte, mark) in line.bytes().zip(marks.bytes()) {
            script.push(byte)?;
            let right = if mark == b'o' {
                is_done(alloc, &script, &text)?
            } else {
                is_outside(alloc, &script, number)?
            };
            if !right {
                return Ok(Some(script.len()));
            }
        }
    }
    Ok(None)
}

#[test]
fn each_prefix_of_a_crossing_ends_as_marked(rt: HostRuntime) -> Result<(), Fail> {
    let wrong = first_wrong(rt.alloc(), &CROSSING)?;
    assert!(rt; wrong == None, "the first {wrong:?} bytes");
    Ok(())
}

#[test]
fn each_prefix_of_lines_of_each_kind_ends_as_marked(rt: HostRuntime) -> Result<(), Fail> {
    let wrong = first_wrong(rt.alloc(), &KINDS)?;
    assert!(rt; wrong == None, "the first {wrong:?} bytes");
    Ok(())
}
