//! Claimed texts with the verdicts on them.

ghost use Rattle.std.specs.Prelude.{◌<◌};

use crate::boxes::{EACH_KIND, EACH_KIND_TEXT};
use crate::runs::source_of;
use crate::worked::{CROSSING, MEETINGS_BY_NEXT, MEETINGS_BY_NEXT_WHOLE, THREE, THREE_TEXT};
use kin_io::memory::MemSink;
use kin_run::run::run;
use kin_run::status::{Side, Status};
use std::alloc::Global;
use std::test::Fail;

/// Scripts with claimed texts, what is written of them, and the statuses.
const CLAIMS: [(&str, &str, &str, Status); 16] = [
    (CROSSING, "=\n0 1\n0 1\n1 0\n", "yes\n", Status::Done),
    (CROSSING, "=\n0 1\n0 1\n0 1\n", "no\n", Status::Differs),
    // The last line feed is left out, and a line comes more.
    (CROSSING, "=\n0 1\n0 1\n1 0", "no\n", Status::Differs),
    (CROSSING, "=\n0 1\n0 1\n1 0\n1 0\n", "no\n", Status::Differs),
    (CROSSING, "=\n0 1\n0 1\n", "no\n", Status::Differs),
    // Three boxes in a row, of which each touches the next: both pairs are claimed, and one is left out or comes too soon.
    (
        "size 2\nkeep boxes 2 2\ninsert 0 0 0 0 0\ninsert 1 2 2 0 0\ninsert 2 4 4 0 0\noverlaps\n",
        "=\n0 1\n1 2\n",
        "yes\n",
        Status::Done,
    ),
    (
        "size 2\nkeep boxes 2 2\ninsert 0 0 0 0 0\ninsert 1 2 2 0 0\ninsert 2 4 4 0 0\noverlaps\n",
        "=\n0 1\n",
        "no\n",
        Status::Differs,
    ),
    (
        "size 2\nkeep boxes 2 2\ninsert 0 0 0 0 0\ninsert 1 2 2 0 0\ninsert 2 4 4 0 0\noverlaps\n",
        "=\n1 2\n0 1\n",
        "no\n",
        Status::Differs,
    ),
    // The first line `=` parts.
    (CROSSING, "=\n0 1\n0 1\n1 0\n=\n", "no\n", Status::Differs),
    ("size 1\n=\n", "=\n", "no\n", Status::Differs),
    // A line `=` without its end has an empty text, and so has the script.
    ("size 1\n", "=", "yes\n", Status::Done),
    ("", "=\nbad 1\n", "yes\n", Status::Done),
    ("size 0\n", "=\nbad 1\n", "yes\n", Status::Done),
    // Nothing comes behind a refused command.
    (
        "size 1\nhull\nat 1\n",
        "=\nrefused 2 NotKept\n",
        "yes\n",
        Status::Done,
    ),
    ("size 1\n", "", "", Status::Unsplit),
    // With a blank or a carriage return it isn't that line.
    ("size 1\n= \n", "=\r\n", "", Status::Unsplit),
];

/// Holds a text against a script, to a sink with so much room.
fn check(
    alloc: Global,
    script: &str,
    claim: &str,
    room: u64,
    failing: Vec<u64>,
) -> Result<(Status, MemSink), Fail> {
    let mut input = String::from_str(alloc, script)?;
    input.push_str(claim)?;
    let mut source = source_of(alloc, input.as_str(), 3, failing)?;
    let word = String::from_str(alloc, "check")?;
    let words = vec![in alloc; word]?;
    let mut sink = MemSink::new(alloc, room, Vec::new(alloc))?;
    let status = run(alloc, &words, &mut source, &mut sink);
    Ok((status, sink))
}

#[test]
fn claims_have_their_verdicts(rt: HostRuntime) -> Result<(), Fail> {
    for (row, (script, claim, line, status)) in CLAIMS.iter().enumerate() {
        let (found, sink) = check(rt.alloc(), script, claim, 4, Vec::new(rt.alloc()))?;
        assert!(rt; found == *status, "status of row {row}");
        assert!(rt; sink.held() == line.as_bytes(), "line of row {row}");
    }
    Ok(())
}

#[test]
fn the_texts_of_journals_are_true(rt: HostRuntime) -> Result<(), Fail> {
    for (script, text) in [
        (THREE, THREE_TEXT),
        (EACH_KIND, EACH_KIND_TEXT),
        (MEETINGS_BY_NEXT, MEETINGS_BY_NEXT_WHOLE),
    ] {
        let mut claim = String::from_str(rt.alloc(), "=\n")?;
        claim.push_str(text)?;
        let (found, sink) = check(rt.alloc(), script, claim.as_str(), 4, Vec::new(rt.alloc()))?;
        assert!(rt; found == Status::Done);
        assert!(rt; sink.held() == "yes\n".as_bytes());
    }
    Ok(())
}

#[test]
fn a_full_sink_holds_a_front_of_the_line(rt: HostRuntime) -> Result<(), Fail> {
    for room in 0..4 {
        let (found, sink) = check(rt.alloc(), "size 1\n", "=\n", room, Vec::new(rt.alloc()))?;
        assert!(rt; found == Status::Fault(Side::Write), "room {room}");
        assert!(rt; sink.held().len() as u64 == room, "room {room}");
        assert!(rt; b"yes\n".starts_with(sink.held()), "room {room}");
    }
    Ok(())
}

#[test]
fn nothing_is_written_before_the_end_of_the_input(rt: HostRuntime) -> Result<(), Fail> {
    // The input has 9 bytes: three pieces, and then the end.
    for call in 0..4 {
        let failing = vec![in rt.alloc(); call]?;
        let (found, sink) = check(rt.alloc(), "size 1\n", "=\n", 4, failing)?;
        assert!(rt; found == Status::Fault(Side::Read), "call {call}");
        assert!(rt; sink.held().is_empty(), "call {call}");
    }
    Ok(())
}
