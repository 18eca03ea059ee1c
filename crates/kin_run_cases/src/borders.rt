//! Arguments that have none of the forms, and scripts that are too long.

use crate::runs::{run_to, source_of, word};
use crate::worked::CROSSING;
use kin_io::memory::{MemSink, MemSource};
use kin_io::source::read_all;
use kin_run::run::run;
use kin_run::status::Status;
use std::alloc::Global;
use std::test::Fail;

/// A source of a script that is so many bytes long: a line with the size, and a comment.
fn source_of_length(alloc: Global, length: usize) -> Result<MemSource, Fail> {
    let mut bytes = Vec::from_slice(alloc, b"size 1\n#")?;
    bytes.resize(length, b'x')?;
    Ok(MemSource::new(bytes, 1 << 16, Vec::new(alloc)))
}

#[test]
fn the_longest_script_runs_and_a_longer_one_does_not(rt: HostRuntime) -> Result<(), Fail> {
    for (length, status) in [(1 << 20, Status::Done), ((1 << 20) + 1, Status::TooLong)] {
        let source = source_of_length(rt.alloc(), length)?;
        let (found, sink) = run_to(rt.alloc(), source, 100, Vec::new(rt.alloc()))?;
        assert!(rt; found == status, "{length} bytes");
        assert!(rt; sink.held().is_empty(), "{length} bytes");
    }
    Ok(())
}

#[test]
fn other_words_touch_nothing(rt: HostRuntime) -> Result<(), Fail> {
    let other = String::from_str(rt.alloc(), "Run")?;
    let mut words = word(rt.alloc())?;
    words.push(other)?;
    for form in [&words[..0], &words[1..], &words[..]] {
        let mut source = source_of(rt.alloc(), CROSSING, 64, Vec::new(rt.alloc()))?;
        let mut sink = MemSink::new(rt.alloc(), 100, Vec::new(rt.alloc()))?;
        let found = run(rt.alloc(), form, &mut source, &mut sink);
        assert!(rt; found == Status::Words);
        assert!(rt; sink.held().is_empty());
        let left = read_all(rt.alloc(), &mut source, 100)?;
        assert!(rt; left.as_slice() == CROSSING.as_bytes());
    }
    Ok(())
}
