//! The top call.

ghost use Rattle.std.specs.Prelude.{◌≡◌, ◌≤◌, ◌<◌, ◌^◌, ◌↔◌, ◌⊎◌, ℕ, List, length, true, Ok, Err, Some, None};
ghost use Rattle.kin_io.specs.Causes.{Rose};
ghost use Rattle.kin_check.specs.declared.verdict.Verdict.{Verdict};
ghost use Rattle.kin_check.specs.Checked.{Checks, IsVerdict, status_of_verdict};
ghost use Rattle.kin_script.specs.Grammar.{script_of};
ghost use Rattle.kin_script.specs.Inputs.{IsTextOf};
ghost use Rattle.kin_script.specs.Ranges.{IsInRange};
ghost use Rattle.kin_script.specs.declared.refusal.Refusal.{Refusal};
ghost use Rattle.kin_status.specs.Demo.{WritesDemo};
ghost use Rattle.kin_status.specs.Headline.{Writes, Answers, IsBrokenOff};
ghost use Rattle.kin_status.specs.Words.{asked_of};
ghost use Rattle.kin_status.specs.Written.{Wrote};

use crate::demo::run_demo;
use crate::play::play_script;
use kin_check::run::run_check;
use kin_io::sink::Sink;
use kin_io::source::{Source, Untaken, read_all};
use kin_script::read::{ReadError, read};
use kin_script::script::Script;
use kin_status::ending::refuse_script;
use kin_status::status::{LIMIT, Side, Status, status_of};
use kin_status::words::{Asked, parse};
use std::alloc::Global;
use std::marker::Brand;
use std::sync::ledger::{Blank, Ledger};

/// Runs the commands of a script.
fn run_script<K: Sink, L: Ledger>(
    alloc: Global,
    input: &[u8],
    script: &Script,
    sink: &mut K,
    blank: Blank,
) -> Status
    requires name { blank.name ≡ L.name }
    requires parts { blank.parts ≡ L.parts }
    requires some { 0 < L.parts }
    requires ranges { IsInRange script.now }
    requires reads { script_of input.now ≡ Ok script.now }
    ensures writes { Wrote (K.held sink.old) (K.held sink.new) (Writes input.now result) }
    ensures later { K.faults sink.old ≤ K.faults sink.new }
    ensures cause { result ≡ Status.Fault Side.Write → Rose (K.faults sink.old) (K.faults sink.new) }
{
    match play_script::<K, L>(alloc, script, sink, blank, &mut None) {
        Ok(None) => Status::Done,
        Ok(Some((line, refusal))) => Status::Command(line, refusal),
        Err(stop) => status_of(stop),
    }
}

/// Reads a whole input by the grammar, and runs it.
fn run_bytes<K: Sink>(alloc: Global, input: &[u8], sink: &mut K) -> Status
    requires { length input.now ≤ 2 ^ 20 }
    ensures writes { Wrote (K.held sink.old) (K.held sink.new) (Writes input.now result) }
    ensures later { K.faults sink.old ≤ K.faults sink.new }
    ensures cause { result ≡ Status.Fault Side.Write → Rose (K.faults sink.old) (K.faults sink.new) }
{
    match read(alloc, input) {
        Ok(script) => run_script::<K, Brand>(alloc, input, &script, sink, Blank::new(1)),
        Err(ReadError::BadLine(line)) => refuse_script(alloc, input, line, sink),
        Err(ReadError::NoMemory) => Status::NoMemory,
    }
}

/// Reads the whole input by the grammar, and runs it.
fn run_input<S: Source, K: Sink>(alloc: Global, source: &mut S, sink: &mut K) -> Status
    ensures headline { Answers (S.left source.old) (S.left source.new) (S.ended source.new) (K.held sink.old) (K.held sink.new) result }
    ensures read_fault { result ≡ Status.Fault Side.Read → Rose (S.faults source.old) (S.faults source.new) }
    ensures write_fault { result ≡ Status.Fault Side.Write → Rose (K.faults sink.old) (K.faults sink.new) }
{
    match read_all(alloc, source, LIMIT) {
        Ok(input) => run_bytes(alloc, &input, sink),
        Err(Untaken::Fault) => Status::Fault(Side::Read),
        Err(Untaken::TooLong) => Status::TooLong,
        Err(Untaken::NoMemory) => Status::NoMemory,
    }
}

/// With the argument `run`: reads the whole input by the grammar, and runs its commands up to the first
/// that is refused. With `check`: reads a script, a line `=` and a claimed text, and writes whether the
/// claim is true. With `demo`: runs a generated script, and reads nothing. With other arguments: does
/// nothing, and answers `Words`.
///
/// No clause says when bytes are written: not before the whole input is known to be in the grammar or
/// not, then in pieces of some 64 KiB, and with the journal on each block before the next is computed.
pub fn run<S: Source, K: Sink>(
    alloc: Global,
    words: &[String],
    source: &mut S,
    sink: &mut K,
) -> Status
    // The arguments alone decide whether there is a run.
    ensures words { (result ≡ Status.Words) ↔ (asked_of words.now ≡ None) }
    ensures untouched { result ≡ Status.Words → (source.new ≡ source.old) × (sink.new ≡ sink.old) }

    // The headline: the bytes written are the text of the bytes taken, by the status.
    ensures headline { asked_of words.now ≡ Some Asked.Run →
        Answers (S.left source.old) (S.left source.new) (S.ended source.new) (K.held sink.old) (K.held sink.new) result }

    // A known input has its own status: of the end, of the first line outside the grammar, of the first
    // refused command, or of its length. Only a run that is broken off has another.
    ensures done { asked_of words.now ≡ Some Asked.Run → (input text : List ℕ) →
        S.left source.old ≡ Some input → length input ≤ 2 ^ 20 → IsTextOf input text None →
        (result ≡ Status.Done) ⊎ IsBrokenOff result }
    ensures command { asked_of words.now ≡ Some Asked.Run → (input text : List ℕ) (line : ℕ) (refusal : Refusal) →
        S.left source.old ≡ Some input → length input ≤ 2 ^ 20 → IsTextOf input text (Some (line, refusal)) →
        (result ≡ Status.Command line refusal) ⊎ IsBrokenOff result }
    ensures script { asked_of words.now ≡ Some Asked.Run → (input : List ℕ) (line : ℕ) →
        S.left source.old ≡ Some input → length input ≤ 2 ^ 20 → script_of input ≡ Err line →
        (result ≡ Status.Script line) ⊎ IsBrokenOff result }
    ensures too_long { asked_of words.now ≡ Some Asked.Run → (input : List ℕ) →
        S.left source.old ≡ Some input → 2 ^ 20 < length input →
        (result ≡ Status.TooLong) ⊎ IsBrokenOff result }

    // A claimed text is held against its script: the verdict is written and answered once the input was
    // taken to its end. A known input has its own verdict.
    ensures check { asked_of words.now ≡ Some Asked.Check →
        Checks (S.left source.old) (S.left source.new) (S.ended source.new) (K.held sink.old) (K.held sink.new) result }
    ensures verdict { asked_of words.now ≡ Some Asked.Check → (input : List ℕ) (verdict : Verdict) →
        S.left source.old ≡ Some input → length input ≤ 2 ^ 20 → IsVerdict input verdict →
        (result ≡ status_of_verdict verdict) ⊎ IsBrokenOff result }
    ensures check_too_long { asked_of words.now ≡ Some Asked.Check → (input : List ℕ) →
        S.left source.old ≡ Some input → 2 ^ 20 < length input →
        (result ≡ Status.TooLong) ⊎ IsBrokenOff result }

    // A generated run writes its own text, or is broken off at a prefix of it. It reads nothing from the
    // source.
    ensures demo { (seed count : ℕ) → asked_of words.now ≡ Some (Asked.Demo seed count) →
        Wrote (K.held sink.old) (K.held sink.new) (WritesDemo seed count result) }
    ensures no_input { (seed count : ℕ) → asked_of words.now ≡ Some (Asked.Demo seed count) → source.new ≡ source.old }

    // A fault comes only from the outside.
    ensures read_fault { result ≡ Status.Fault Side.Read → Rose (S.faults source.old) (S.faults source.new) }
    ensures write_fault { result ≡ Status.Fault Side.Write → Rose (K.faults sink.old) (K.faults sink.new) }
{
    match parse(words) {
        Some(Asked::Run) => run_input(alloc, source, sink),
        Some(Asked::Check) => run_check(alloc, source, sink),
        Some(Asked::Demo { seed, count }) => run_demo(alloc, seed, count, sink),
        None => Status::Words,
    }
}
