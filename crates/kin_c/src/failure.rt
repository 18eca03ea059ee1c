//! Failures as plain numbers.

ghost use Rattle.std.specs.Prelude.{◌≡◌, pos, map};
ghost use Rattle.kin_fail.specs.Blocks.{failure_of};
ghost use Rattle.kin_c.specs.Buffers.{Puts, buffer};
ghost use Rattle.kin_c.specs.Failures.{failure_numbers, form_numbers, sign_number};

use crate::status::Status;
use kin_num::Sign;
use kin_tracker::{Failure, Form};

/// A form: its kind, the points that it names, and the direction and the offset of a line.
#[repr(C)]
#[derive(Clone, Copy)]
pub struct KinForm {
    /// 0 a line, 1 a turn, 2 a slope, 3 a distance.
    pub kind: u32,
    pub i: u32,
    pub j: u32,
    pub k: u32,
    pub l: u32,
    pub dx: i32,
    pub dy: i32,
    pub off: i32,
}

/// A failure: a form of a part of a structure, and its signs before and now.
#[repr(C)]
#[derive(Clone, Copy)]
pub struct KinFailure {
    pub structure: u32,
    pub part: u32,
    pub form: KinForm,
    pub before: i32,
    pub after: i32,
}

impl KinForm {
    /// The numbers of a form.
    fn of(form: &Form) -> KinForm
        ensures { result ≡ form_numbers form.now }
    {
        match *form {
            Form::Line { dx, dy, off, i, j } => KinForm {
                dx,
                dy,
                off,
                ..points(0, i, j, 0, 0)
            },
            Form::Turn { i, j, k } => points(1, i, j, k, 0),
            Form::Slope { i, j, k, l } => points(2, i, j, k, l),
            Form::Dist { i, j, k, l } => points(3, i, j, k, l),
        }
    }
}

/// A form of this kind that names these points, with no direction.
fn points(kind: u32, i: u32, j: u32, k: u32, l: u32) -> KinForm
    ensures { result ≡ record { kind = kind; i = i; j = j; k = k; l = l; dx = pos 0; dy = pos 0; off = pos 0 } }
{
    KinForm {
        kind,
        i,
        j,
        k,
        l,
        dx: 0,
        dy: 0,
        off: 0,
    }
}

impl KinFailure {
    /// The numbers of a failure.
    fn of(failure: &Failure) -> KinFailure
        ensures { result ≡ failure_numbers (failure_of failure.now) }
    {
        KinFailure {
            structure: failure.structure,
            part: failure.part,
            form: KinForm::of(&failure.form),
            before: sign_number(failure.before),
            after: sign_number(failure.after),
        }
    }
}

/// A sign as a number.
fn sign_number(sign: Sign) -> i32
    ensures { result ≡ sign_number sign }
{
    match sign {
        Sign::Minus => -1,
        Sign::Zero => 0,
        Sign::Plus => 1,
    }
}

/// Gives failures, where there is room for them.
pub(crate) fn put_failures(list: &[Failure], out: &mut [KinFailure], len: &mut usize) -> Status
    ensures { Puts (map failure_numbers (map failure_of list.now)) (buffer out.old len.old) (buffer out.new len.new) result }
{
    *len = list.len();
    if out.len() < list.len() {
        return Status::TooSmall;
    }
    for place in 0..list.len() {
        out[place] = KinFailure::of(&list[place]);
    }
    Status::Done
}
