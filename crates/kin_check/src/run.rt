//! A claimed text on a source is held against its script, and the verdict is written.

ghost use Rattle.std.specs.Prelude.{◌≡◌, ◌≤◌};
ghost use Rattle.kin_io.specs.Causes.{Rose};
ghost use Rattle.kin_check.specs.Checked.{Checks, Tells, line_of, status_of_verdict};
ghost use Rattle.kin_status.specs.Written.{Wrote};

use crate::verdict::{Verdict, check};
use kin_io::sink::{Sink, write_all};
use kin_io::source::{Source, Untaken, read_all};
use kin_num::memory::NoMemory;
use kin_status::status::{LIMIT, Side, Status};
use std::alloc::Global;

/// The line that is written of a verdict.
fn line_of(verdict: Verdict) -> &'static [u8]
    ensures { result.now ≡ line_of verdict }
{
    match verdict {
        Verdict::Yes => b"yes\n",
        Verdict::No => b"no\n",
        Verdict::Unsplit => b"",
    }
}

/// The status of a run that has written it.
fn status_of(verdict: Verdict) -> Status
    ensures { result ≡ status_of_verdict verdict }
{
    match verdict {
        Verdict::Yes => Status::Done,
        Verdict::No => Status::Differs,
        Verdict::Unsplit => Status::Unsplit,
    }
}

/// Writes the line of a verdict. An input that isn't parted has none, and nothing is asked of the sink.
fn tell<K: Sink>(verdict: Verdict, sink: &mut K) -> Status
    ensures writes { Wrote (K.held sink.old) (K.held sink.new) (Tells verdict result) }
    ensures later { K.faults sink.old ≤ K.faults sink.new }
    ensures cause { result ≡ Status.Fault Side.Write → Rose (K.faults sink.old) (K.faults sink.new) }
{
    if let Verdict::Unsplit = verdict {
        return Status::Unsplit;
    }
    match write_all(sink, line_of(verdict)) {
        Ok(()) => status_of(verdict),
        Err(_) => Status::Fault(Side::Write),
    }
}

/// Reads the whole input, and holds its claimed text against its script.
pub fn run_check<S: Source, K: Sink>(alloc: Global, source: &mut S, sink: &mut K) -> Status
    ensures checks { Checks (S.left source.old) (S.left source.new) (S.ended source.new) (K.held sink.old) (K.held sink.new) result }
    ensures read_fault { result ≡ Status.Fault Side.Read → Rose (S.faults source.old) (S.faults source.new) }
    ensures write_fault { result ≡ Status.Fault Side.Write → Rose (K.faults sink.old) (K.faults sink.new) }
{
    match read_all(alloc, source, LIMIT) {
        Ok(input) => match check(alloc, &input) {
            Ok(verdict) => tell(verdict, sink),
            Err(NoMemory) => Status::NoMemory,
        },
        Err(Untaken::Fault) => Status::Fault(Side::Read),
        Err(Untaken::TooLong) => Status::TooLong,
        Err(Untaken::NoMemory) => Status::NoMemory,
    }
}
