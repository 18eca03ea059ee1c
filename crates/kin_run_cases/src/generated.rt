//! Generated runs.

use crate::runs::source_of;
use kin_io::memory::MemSink;
use kin_run::run::run;
use kin_run::status::{Side, Status};
use std::alloc::Global;
use std::test::Fail;

/// Runs the generated script of a seed and a count, to a sink with so much room, of whose calls those with these
/// numbers fail. The source has nothing to give.
fn generate_to(
    alloc: Global,
    seed: &str,
    count: &str,
    room: u64,
    failing: Vec<u64>,
) -> Result<(Status, MemSink), Fail> {
    let words = vec![in alloc;
        String::from_str(alloc, "demo")?,
        String::from_str(alloc, seed)?,
        String::from_str(alloc, count)?,
    ]?;
    let mut source = source_of(alloc, "", 1, vec![in alloc; 0]?)?;
    let mut sink = MemSink::new(alloc, room, failing)?;
    let status = run(alloc, &words, &mut source, &mut sink);
    Ok((status, sink))
}

const SIXTEEN: &str = "2\n5 6 1 8 2 10 13\n3 9\n14\n372\ndemo 217 288\n";

const FIVE_HUNDRED_AND_TWELVE: &str =
    "98\n27 167 255 341 50 409 311 224 356 98 309 467 406 115 205\n171 491\n14 38 272\n14380\ndemo 30656 199855\n";

/// Seeds and counts, and the texts of their runs.
const RUNS: [(&str, &str, &str); 5] = [
    ("0", "1", "0\n0\nnone\nnone\n0\ndemo 0 0\n"),
    ("0", "2", "1\n1 0\n0 1\nnone\n15\ndemo 2 2\n"),
    ("1", "16", SIXTEEN),
    // Zeros before a number don't matter.
    (
        "04294967295",
        "012",
        "3\n7 10 5 0 3 6\n0 2\n1\n261\ndemo 85 113\n",
    ),
    (
        "1",
        "256",
        "98\n27 167 255 50 239 224 98 210 115 205\n17 204\n14 38\n7092\ndemo 14246 50898\n",
    ),
];

#[test]
fn a_generated_run_gives_its_text(rt: HostRuntime) -> Result<(), Fail> {
    for (seed, count, text) in RUNS {
        let (found, sink) = generate_to(rt.alloc(), seed, count, 200, Vec::new(rt.alloc()))?;
        assert!(rt; found == Status::Done, "demo {seed} {count}");
        assert!(rt; sink.held() == text.as_bytes(), "demo {seed} {count}");
    }
    Ok(())
}

/// It ends within the time of a test only where a failure changes few certificates.
#[test]
fn a_large_run_gives_its_text(rt: HostRuntime) -> Result<(), Fail> {
    let (found, sink) = generate_to(rt.alloc(), "1", "512", 200, Vec::new(rt.alloc()))?;
    assert!(rt; found == Status::Done);
    assert!(rt; sink.held() == FIVE_HUNDRED_AND_TWELVE.as_bytes());
    Ok(())
}

#[test]
fn a_generated_run_that_cannot_be_written_says_so(rt: HostRuntime) -> Result<(), Fail> {
    for (room, call) in [(100, 0), (100, 1), (41, 9), (0, 9)] {
        let failing = vec![in rt.alloc(); call]?;
        let (found, sink) = generate_to(rt.alloc(), "1", "16", room, failing)?;
        assert!(rt; found == Status::Fault(Side::Write), "room {room}");
        assert!(rt; SIXTEEN.as_bytes().starts_with(sink.held()), "room {room}");
    }
    Ok(())
}

#[test]
fn a_run_of_no_points_is_no_form_of_arguments(rt: HostRuntime) -> Result<(), Fail> {
    for (seed, count) in [("1", "0"), ("1", "1025"), ("4294967296", "1")] {
        let (found, sink) = generate_to(rt.alloc(), seed, count, 100, Vec::new(rt.alloc()))?;
        assert!(rt; found == Status::Words, "demo {seed} {count}");
        assert!(rt; sink.held().is_empty(), "demo {seed} {count}");
    }
    Ok(())
}
