//! A replay of a script, held against a claimed text.

ghost use Rattle.std.specs.Prelude.{◌≡◌, ◌≤◌, ◌<◌, ◌↔◌, ◌^◌, Ok, Err, IfOk, IsTrue, All, length};
ghost use Rattle.kin_script.specs.Grammar.{script_of};
ghost use Rattle.kin_script.specs.Inputs.{IsInputText};
ghost use Rattle.kin_script.specs.Ranges.{IsCommandInRange, IsInRange};
ghost use Rattle.kin_script.specs.States.{start};
ghost use Rattle.kin_script.specs.Text.{refused_line};
ghost use Rattle.kin_check.specs.Claims.{IsTextFrom};
ghost use Rattle.kin_check.specs.Sound.{IsSound};

use crate::claim::Claim;
use crate::halt::Halt;
use crate::perform::perform;
use crate::state::State;
use kin_num::Steps;
use kin_num::memory::NoMemory;
use kin_script::command::Command;
use kin_script::read::{ReadError, read};
use kin_script::refusal::Refusal;
use kin_script::script::Script;
use kin_status::text::{bad_text, put_refused};
use std::alloc::Global;
use std::marker::Brand;
use std::sync::ledger::{Blank, Ledger};

/// Whether the line of a refused command is all that is left. Nothing follows it.
fn ends_refused(
    alloc: Global,
    line: u32,
    refusal: Refusal,
    claim: &Claim<'_>,
) -> Result<bool, NoMemory>
    ensures { IfOk result (λ is. IsTrue is ↔ (claim.now ≡ refused_line line refusal)) }
{
    let mut out = Vec::new(alloc);
    put_refused(&mut out, line, refusal)?;
    Ok(claim.is(&out))
}

/// Whether the text of these commands is all that is left. The first difference ends it.
fn is_text_from<L: Ledger>(
    alloc: Global,
    state: &mut State,
    lines: &[(u32, Command)],
    claim: &mut Claim<'_>,
    steps: &mut Steps<L>,
) -> Result<bool, NoMemory>
    requires sound { IsSound state.old }
    requires ranges { All (λ line. IsCommandInRange state.old.size line.1) lines.now }
    ensures { IfOk result (λ is. IsTrue is ↔ IsTextFrom state.old lines.now claim.old) }
{
    for (line, command) in lines {
        match perform(alloc, state, command, claim, steps) {
            Ok(true) => {}
            Ok(false) => return Ok(false),
            Err(Halt::Refused(refusal)) => return ends_refused(alloc, *line, refusal, claim),
            Err(Halt::NoMemory) => return Err(NoMemory),
        }
    }
    Ok(claim.is(&[]))
}

/// Whether a text is that of a script. The steps are in no contract.
fn is_text_of_script<L: Ledger>(
    alloc: Global,
    script: &Script,
    text: &[u8],
    blank: Blank,
) -> Result<bool, NoMemory>
    requires name { blank.name ≡ L.name }
    requires parts { blank.parts ≡ L.parts }
    requires some { 0 < L.parts }
    requires ranges { IsInRange script.now }
    ensures { IfOk result (λ is. IsTrue is ↔ IsTextFrom (start script.now.size script.now.keeps script.now.journal) script.now.lines text.now) }
{
    let mut steps = Steps::<L>::open(blank);
    let mut state = State::start(alloc, script.size, script.keeps.as_slice(), script.journal)?;
    is_text_from(
        alloc,
        &mut state,
        script.lines.as_slice(),
        &mut Claim::of(text),
        &mut steps,
    )
}

/// Whether a text is that of some bytes: of the script that they are, or of the first line outside the grammar.
pub fn is_text_of(alloc: Global, bytes: &[u8], text: &[u8]) -> Result<bool, NoMemory>
    requires { length bytes.now ≤ 2 ^ 20 }
    ensures { IfOk result (λ is. IsTrue is ↔ IsInputText bytes.now text.now) }
{
    match read(alloc, bytes) {
        Ok(script) => is_text_of_script::<Brand>(alloc, &script, text, Blank::new(1)),
        Err(ReadError::BadLine(line)) => Ok(Claim::of(text).is(&bad_text(alloc, line)?)),
        Err(ReadError::NoMemory) => Err(NoMemory),
    }
}
