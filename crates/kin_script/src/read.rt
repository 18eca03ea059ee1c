//! The reader.

ghost use Rattle.std.specs.Prelude.{◌≡◌, ◌≤◌, ◌<◌, ◌^◌, ◌==◌, [], ◌∷◌, List, length, IfOk, OnOk, Some, None, MatchResult};
ghost use Rattle.kin_script.specs.declared.read.ReadError.TheVariants.{NoMemory};
ghost use Rattle.kin_script.specs.Left.{Numbered, with_words, after};
ghost use Rattle.kin_script.specs.Grammar.{script_of, script_of_lines, behind_size, with_header_line};
ghost use Rattle.kin_script.specs.Gives.{Gives, IfBadLine};
ghost use Rattle.kin_script.specs.Ranges.{IsInRange};
ghost use Rattle.kin_script.specs.Reading.{reads, header, finished, Continues, IsDraftInRange};

use crate::line::{HeaderLine, command_of, header_line_of, size_of};
use crate::lines::{Line, Lines};
use crate::script::{Commands, Keeps, Script};
use kin_motion::keep::may_keep_more;
use std::alloc::{AllocError, Global};

/// Why there is no script.
#[derive(Clone, Copy, Debug, PartialEq, Eq)]
pub enum ReadError {
    /// The first line outside the grammar, counted from 1.
    BadLine(u32),
    NoMemory,
}

impl From<AllocError> for ReadError {
    ghost from_gives = { λ _ e. e ≡ NoMemory };

    fn from(_error: AllocError) -> ReadError {
        ReadError::NoMemory
    }
}

/// What is read so far.
#[derive(Drop)]
struct Draft {
    size: u32,
    keeps: Keeps,
    /// What the journal line says, if there was one.
    journal: Option<bool>,
    commands: Commands,
}

impl Draft {
    /// A script of this size that has no further line yet.
    fn new(alloc: Global, size: u32) -> Draft
        requires low { 1 ≤ size }
        requires high { size ≤ 12 }
        ensures header { header result ≡ record { size = size; keeps = []; journal = None } }
        ensures commands { result.commands ≡ [] }
        ensures range { IsDraftInRange result }
    {
        Draft {
            size,
            keeps: Keeps::new(alloc),
            journal: None,
            commands: Commands::new(alloc),
        }
    }

    /// Whether no command was read yet.
    fn is_in_header(&self) -> bool
        ensures { result ≡ (length self.now.commands == 0) }
    {
        self.commands.is_empty()
    }

    /// Takes a line of the header.
    fn set(&mut self, number: u32, header_line: HeaderLine) -> Result<(), ReadError>
        requires { IsDraftInRange self.old }
        ensures ok { OnOk result (with_header_line (header self.old) header_line ≡ Some (header self.new)) }
        ensures bad { IfBadLine result (λ n. (with_header_line (header self.old) header_line ≡ None) × (n ≡ number)) }
        ensures commands { self.new.commands ≡ self.old.commands }
        ensures range { IsDraftInRange self.new }
    {
        match header_line {
            HeaderLine::Keep(keep) => {
                if !may_keep_more(self.keeps.as_slice(), &keep) {
                    return Err(ReadError::BadLine(number));
                }
                self.keeps.push(keep)?;
            }
            HeaderLine::Journal(on) => {
                if self.journal.is_some() {
                    return Err(ReadError::BadLine(number));
                }
                self.journal = Some(on);
            }
        }
        Ok(())
    }

    /// Takes a line after the size line.
    fn take(&mut self, line: Line<'_>) -> Result<(), ReadError>
        requires range { IsDraftInRange self.old }
        ensures line { (ls : List Numbered) → Continues result (reads self.old ((line.entry.number, line.entry.words) ∷ ls)) (reads self.new ls) }
        ensures range { IsDraftInRange self.new }
    {
        if self.is_in_header() {
            if let Some(header_line) = header_line_of(line.words.again()) {
                return self.set(line.number, header_line);
            }
        }
        match command_of(self.size, line.words) {
            Some(command) => {
                self.commands.push((line.number, command))?;
                Ok(())
            }
            None => Err(ReadError::BadLine(line.number)),
        }
    }

    /// The script, where no line is left.
    fn finish(self) -> Script
        ensures { result ≡ finished self [] }
    {
        Script {
            size: self.size,
            keeps: self.keeps,
            journal: self.journal.unwrap_or(false),
            lines: self.commands,
        }
    }
}

/// The script of the lines after the size line.
fn read_behind_size(alloc: Global, size: u32, lines: &mut Lines<'_>) -> Result<Script, ReadError>
    requires low { 1 ≤ size }
    requires high { size ≤ 12 }
    ensures { Gives result (behind_size (record { size = size; keeps = []; journal = None }) (with_words lines.old)) }
{
    let mut draft = Draft::new(alloc, size);
    while let Some(line) = lines.next() {
        draft.take(line)?;
    }
    Ok(draft.finish())
}

/// The script of all lines.
#[tactic(auto, unfolding(crate::specs::Grammar::script_of_lines))]
fn read_lines(alloc: Global, lines: &mut Lines<'_>) -> Result<Script, ReadError>
    ensures { Gives result (script_of_lines (after lines.old) (with_words lines.old)) }
{
    let Some(line) = lines.next() else {
        return Err(ReadError::BadLine(lines.number()));
    };
    match size_of(line.words) {
        Some(size) => read_behind_size(alloc, size, lines),
        None => Err(ReadError::BadLine(line.number)),
    }
}

/// The script that the bytes are, at most 2^20 of them, or the first line outside the grammar.
#[tactic(auto, unfolding(crate::specs::Grammar::script_of))]
pub fn read(alloc: Global, bytes: &[u8]) -> Result<Script, ReadError>
    requires { length bytes.now ≤ 2 ^ 20 }
    ensures value { Gives result (script_of bytes.now) }
    ensures range { IfOk result IsInRange }
{
    read_lines(alloc, &mut Lines::of(bytes))
}
