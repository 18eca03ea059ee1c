//! Moments as texts.

ghost use Rattle.std.specs.Prelude.{◌≡◌, ◌++◌, ◌∷◌, [], IfOk};
ghost use Rattle.kin_script.specs.Printed.{moment_text};
ghost use Rattle.kin_c.specs.Buffers.{buffer};
ghost use Rattle.kin_c.specs.Questions.{Prints, Spells};
ghost use Rattle.kin_c.specs.Statuses.{Answers};

use crate::buffer::put;
use crate::moment::KinMoment;
use crate::status::Status;
use kin_num::NoMemory;
use kin_print::{put_bytes, put_moment};
use kin_tracker::{Moment, Refusal};
use std::alloc::Global;

/// Prints a moment as a script does, and a zero after it.
#[unsafe(no_mangle)]
pub extern "C" fn kin_print_moment(
    alloc: Global,
    moment: &KinMoment,
    out: &mut [u8],
    len: &mut usize,
) -> u32
    ensures { Answers result (Prints moment.now (buffer out.old len.old) (buffer out.new len.new)) }
{
    print(alloc, moment, out, len).code()
}

/// Prints the moment that the numbers name, if there is one.
fn print(alloc: Global, moment: &KinMoment, out: &mut [u8], len: &mut usize) -> Status
    ensures { Prints moment.now (buffer out.old len.old) (buffer out.new len.new) result }
{
    match moment.read() {
        Ok(moment) => spell(alloc, &moment, out, len),
        Err(refusal) => Status::Refused(refusal),
    }
}

/// Prints a moment.
fn spell(alloc: Global, moment: &Moment, out: &mut [u8], len: &mut usize) -> Status
    ensures { Spells (buffer out.old len.old) (buffer out.new len.new) moment.now result }
{
    match text_of(alloc, moment) {
        Ok(text) => put(&text, out, len),
        Err(NoMemory) => Status::Refused(Refusal::NoMemory),
    }
}

/// The text of a moment, and a zero.
fn text_of(alloc: Global, moment: &Moment) -> Result<Vec<u8>, NoMemory>
    ensures { IfOk result (λ text. text.items ≡ moment_text moment.now ++ 0 ∷ []) }
{
    let mut text = Vec::new(alloc);
    put_moment(&mut text, moment)?;
    put_bytes(&mut text, &[0])?;
    Ok(text)
}
