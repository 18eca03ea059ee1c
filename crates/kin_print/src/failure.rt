//! Failures of facts, as the journal lists them.

ghost use Rattle.std.specs.Prelude.{◌≡◌, ◌++◌, OnOk, OnErr, codes};
ghost use Rattle.std.specs.Fmt.{decimal};
ghost use Rattle.std.specs.List.{flat_map};
ghost use Rattle.kin_fail.specs.Blocks.{failure_of};
ghost use Rattle.kin_script.specs.Printed.{PutsFront};
ghost use Rattle.kin_script.specs.PrintedJournal.{sign_text, line_text, kind_text, form_text, failure_line};
ghost use Rattle.kin_motion.specs.Forms.{numbers_of};
ghost use Rattle.kin_print.specs.Pieces.{spaced, owner_piece, signs_piece};

use crate::list::put_each;
use crate::moment::put_moment;
use crate::piece::{digits, put_bytes, put_pieces};
use itoa::Buffer;
use kin_fail::Failure;
use kin_motion::form::Form;
use kin_num::{Moment, NoMemory, Sign};

/// Appends a failure at the moment, as a line: whose fact it is, its form, its sign before and its
/// sign now, as in `! 5 0/0 line(1,0) 0 1 + 0`.
pub fn put_failure(out: &mut Vec<u8>, m: &Moment, f: &Failure) -> Result<(), NoMemory>
    ensures ok { OnOk result (out.new.items ≡ out.old.items ++ failure_line m.now (failure_of f.now)) }
    ensures err { OnErr result (PutsFront out.old.items out.new.items (failure_line m.now (failure_of f.now))) }
{
    put_bytes(out, b"! ")?;
    put_moment(out, m)?;
    put_owner(out, f.structure, f.part)?;
    put_form(out, &f.form)?;
    put_signs(out, f.before, f.after)
}

/// Appends the structure and the part: ` 0/4 `.
fn put_owner(out: &mut Vec<u8>, structure: u32, part: u32) -> Result<(), NoMemory>
    ensures ok { OnOk result (out.new.items ≡ out.old.items ++ owner_piece structure part) }
    ensures err { OnErr result (PutsFront out.old.items out.new.items (owner_piece structure part)) }
{
    let (mut first, mut second) = (Buffer::new(), Buffer::new());
    let structure = digits(&mut first, structure);
    let part = digits(&mut second, part);
    put_pieces(out, &[b" ", structure, b"/", part, b" "])
}

/// Appends both signs, and the line end: ` + 0`.
fn put_signs(out: &mut Vec<u8>, before: Sign, after: Sign) -> Result<(), NoMemory>
    ensures ok { OnOk result (out.new.items ≡ out.old.items ++ signs_piece before after) }
    ensures err { OnErr result (PutsFront out.old.items out.new.items (signs_piece before after)) }
{
    put_pieces(out, &[b" ", sign(before), b" ", sign(after), b"\n"])
}

/// The sign as it is printed.
fn sign(sign: Sign) -> &'static [u8]
    ensures { result.now ≡ sign_text sign }
{
    match sign {
        Sign::Minus => b"-",
        Sign::Zero => b"0",
        Sign::Plus => b"+",
    }
}

/// Appends a form: `line(1,0) 0 1`.
fn put_form(out: &mut Vec<u8>, form: &Form) -> Result<(), NoMemory>
    ensures ok { OnOk result (out.new.items ≡ out.old.items ++ form_text form.now) }
    ensures err { OnErr result (PutsFront out.old.items out.new.items (form_text form.now)) }
{
    put_kind(out, form)?;
    put_points(out, form)
}

/// Appends the kind of a form: `line(1,0)`, or `turn`.
fn put_kind(out: &mut Vec<u8>, form: &Form) -> Result<(), NoMemory>
    ensures ok { OnOk result (out.new.items ≡ out.old.items ++ kind_text form.now) }
    ensures err { OnErr result (PutsFront out.old.items out.new.items (kind_text form.now)) }
{
    match *form {
        Form::Line { dx, dy, off, .. } => put_line_kind(out, dx, dy, off),
        Form::Turn { .. } => put_bytes(out, b"turn"),
        Form::Slope { .. } => put_bytes(out, b"slope"),
        Form::Dist { .. } => put_bytes(out, b"dist"),
    }
}

/// Appends the kind of a line: `line(1,0)`, or `line(1,0,-5)` with an offset.
fn put_line_kind(out: &mut Vec<u8>, dx: i32, dy: i32, off: i32) -> Result<(), NoMemory>
    ensures ok { OnOk result (out.new.items ≡ out.old.items ++ line_text dx dy off) }
    ensures err { OnErr result (PutsFront out.old.items out.new.items (line_text dx dy off)) }
{
    let (mut first, mut second, mut third) = (Buffer::new(), Buffer::new(), Buffer::new());
    let dx = digits(&mut first, dx);
    let dy = digits(&mut second, dy);
    if off == 0 {
        return put_pieces(out, &[b"line(", dx, b",", dy, b")"]);
    }
    let off = digits(&mut third, off);
    put_pieces(out, &[b"line(", dx, b",", dy, b",", off, b")"])
}

/// Appends the numbers of a form, each after a space.
fn put_points(out: &mut Vec<u8>, form: &Form) -> Result<(), NoMemory>
    ensures ok { OnOk result (out.new.items ≡ out.old.items ++ flat_map spaced (numbers_of form.now)) }
    ensures err { OnErr result (PutsFront out.old.items out.new.items (flat_map spaced (numbers_of form.now))) }
{
    match *form {
        Form::Line { i, j, .. } => put_each(out, &[i, j]),
        Form::Turn { i, j, k } => put_each(out, &[i, j, k]),
        Form::Slope { i, j, k, l } => put_each(out, &[i, j, k, l]),
        Form::Dist { i, j, k, l } => put_each(out, &[i, j, k, l]),
    }
}
