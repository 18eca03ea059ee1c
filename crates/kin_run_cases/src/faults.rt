//! Reads and writes that fail, and sinks that are full.

use crate::runs::{run_to, source_of};
use crate::worked::{
    CROSSING, MEETINGS, MEETINGS_BY_NEXT, MEETINGS_BY_NEXT_WHOLE, MEETINGS_WHOLE, THREE, THREE_TEXT,
};
use kin_io::memory::MemSink;
use kin_run::status::{Side, Status};
use std::alloc::Global;
use std::test::Fail;

/// What is written of `MEETINGS` before a call that fails, by the number of that call.
const MEETINGS_TEXT: [&str; 6] = [
    "",
    "! 5 0/0 line(1,0) 0 1 + 0\n",
    "! 5 0/0 line(1,0) 0 1 + 0\n! 5+ 0/0 line(1,0) 0 1 0 -\n",
    "! 5 0/0 line(1,0) 0 1 + 0\n! 5+ 0/0 line(1,0) 0 1 0 -\n! 15 0/0 line(1,0) 0 2 + 0\n",
    "! 5 0/0 line(1,0) 0 1 + 0\n! 5+ 0/0 line(1,0) 0 1 0 -\n! 15 0/0 line(1,0) 0 2 + 0\n! 15+ 0/0 line(1,0) 0 2 0 -\n",
    MEETINGS_WHOLE,
];

/// And of `MEETINGS_BY_NEXT`, whose last write is that of `live`.
const MEETINGS_BY_NEXT_TEXT: [&str; 6] = [
    "",
    "! 5 0/0 line(1,0) 0 1 + 0\nnow 5\n",
    "! 5 0/0 line(1,0) 0 1 + 0\nnow 5\n! 5+ 0/0 line(1,0) 0 1 0 -\nnow 5+\n",
    "! 5 0/0 line(1,0) 0 1 + 0\nnow 5\n! 5+ 0/0 line(1,0) 0 1 0 -\nnow 5+\n! 15 0/0 line(1,0) 0 2 + 0\nnow 15\n",
    "! 5 0/0 line(1,0) 0 1 + 0\nnow 5\n! 5+ 0/0 line(1,0) 0 1 0 -\nnow 5+\n! 15 0/0 line(1,0) 0 2 + 0\nnow 15\n! 15+ 0/0 line(1,0) 0 2 0 -\nnow 15+\n",
    MEETINGS_BY_NEXT_WHOLE,
];

/// Runs a script to a sink with so much room, of whose calls those with these numbers fail.
fn play(
    alloc: Global,
    script: &str,
    room: u64,
    failing: Vec<u64>,
) -> Result<(Status, MemSink), Fail> {
    let source = source_of(alloc, script, 64, Vec::new(alloc))?;
    run_to(alloc, source, room, failing)
}

#[test]
fn a_read_that_fails_leaves_nothing_written(rt: HostRuntime) -> Result<(), Fail> {
    // The script has 97 bytes: 33 pieces, and then the end.
    for call in 0..34 {
        let failing = vec![in rt.alloc(); call]?;
        let source = source_of(rt.alloc(), CROSSING, 3, failing)?;
        let (found, sink) = run_to(rt.alloc(), source, 100, Vec::new(rt.alloc()))?;
        assert!(rt; found == Status::Fault(Side::Read), "call {call}");
        assert!(rt; sink.held().is_empty(), "call {call}");
    }
    Ok(())
}

#[test]
fn a_write_that_fails_is_told(rt: HostRuntime) -> Result<(), Fail> {
    for script in [CROSSING, "bad\n", "size 1\nhull\n"] {
        let failing = vec![in rt.alloc(); 0]?;
        let (found, sink) = play(rt.alloc(), script, 100, failing)?;
        assert!(rt; found == Status::Fault(Side::Write), "status of {script}");
        assert!(rt; sink.held().is_empty(), "text of {script}");
    }
    Ok(())
}

#[test]
fn a_sink_holds_what_it_has_room_for(rt: HostRuntime) -> Result<(), Fail> {
    for (script, text) in [(CROSSING, "0 1\n0 1\n1 0\n"), (THREE, THREE_TEXT)] {
        for room in 0..text.len() as u64 {
            let (found, sink) = play(rt.alloc(), script, room, Vec::new(rt.alloc()))?;
            assert!(rt; found == Status::Fault(Side::Write), "room {room}");
            assert!(rt; sink.held().len() as u64 == room, "room {room}");
            assert!(rt; text.as_bytes().starts_with(sink.held()), "room {room}");
        }
        let whole = text.len() as u64;
        let (found, sink) = play(rt.alloc(), script, whole, Vec::new(rt.alloc()))?;
        assert!(rt; found == Status::Done, "status of {script}");
        assert!(rt; sink.held() == text.as_bytes(), "text of {script}");
    }
    Ok(())
}

/// Each block is a write of its own, so that the sink has all blocks before the one whose write
/// fails, or for which there is no room, and none after it. Answers are gathered.
#[test]
fn each_block_is_written_before_the_next(rt: HostRuntime) -> Result<(), Fail> {
    for (script, texts) in [
        (MEETINGS, MEETINGS_TEXT),
        (MEETINGS_BY_NEXT, MEETINGS_BY_NEXT_TEXT),
    ] {
        for call in 0..5 {
            let text = texts[call];
            let failing = vec![in rt.alloc(); call as u64]?;
            let none = Vec::new(rt.alloc());
            for (room, failing) in [(200, failing), (text.len() as u64, none)] {
                let (found, sink) = play(rt.alloc(), script, room, failing)?;
                assert!(rt;
                    found == Status::Fault(Side::Write),
                    "call {call}, room {room}"
                );
                assert!(rt; sink.held() == text.as_bytes(), "call {call}, room {room}");
            }
        }
    }
    Ok(())
}
