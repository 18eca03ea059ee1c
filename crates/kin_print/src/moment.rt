//! Instants and moments.

ghost use Rattle.std.specs.Prelude.{◌≡◌, ◌<ℤ◌, pos, ◌++◌, OnOk, OnErr};
ghost use Rattle.kin_script.specs.Printed.{ratio_text, root_text, side_text, instant_text, phase_text, moment_text, PutsFront};

use crate::piece::{digits, put_bytes, put_pieces};
use itoa::Buffer;
use kin_num::{Instant, Moment, NoMemory, Phase, Shape};

/// Appends a fraction: `7/3`, or `5` for `5/1`.
fn put_ratio(out: &mut Vec<u8>, n: i64, d: i64) -> Result<(), NoMemory>
    requires { pos 0 <ℤ d }
    ensures ok { OnOk result (out.new.items ≡ out.old.items ++ ratio_text n d) }
    ensures err { OnErr result (PutsFront out.old.items out.new.items (ratio_text n d)) }
{
    let (mut over, mut under) = (Buffer::new(), Buffer::new());
    let n = digits(&mut over, n);
    if d == 1 {
        return put_pieces(out, &[n]);
    }
    put_pieces(out, &[n, b"/", digits(&mut under, d)])
}

/// Appends a root of a quadratic: `r(1,0,-2,hi)`.
fn put_root(out: &mut Vec<u8>, a: i64, b: i64, c: i64, upper: bool) -> Result<(), NoMemory>
    ensures ok { OnOk result (out.new.items ≡ out.old.items ++ root_text a b c upper) }
    ensures err { OnErr result (PutsFront out.old.items out.new.items (root_text a b c upper)) }
{
    let (mut first, mut second, mut third) = (Buffer::new(), Buffer::new(), Buffer::new());
    let a = digits(&mut first, a);
    let b = digits(&mut second, b);
    let c = digits(&mut third, c);
    put_pieces(out, &[b"r(", a, b",", b, b",", c, b",", side(upper), b")"])
}

/// The word for the greater root or the lesser one.
fn side(upper: bool) -> &'static [u8]
    ensures { result.now ≡ side_text upper }
{
    if upper { b"hi" } else { b"lo" }
}

/// Appends an instant, in its canonical form.
fn put_instant(out: &mut Vec<u8>, at: &Instant) -> Result<(), NoMemory>
    ensures ok { OnOk result (out.new.items ≡ out.old.items ++ instant_text at.now) }
    ensures err { OnErr result (PutsFront out.old.items out.new.items (instant_text at.now)) }
{
    match at.shape() {
        Shape::Ratio { n, d } => put_ratio(out, n, d),
        Shape::Root { a, b, c, upper } => put_root(out, a, b, c, upper),
    }
}

/// Appends a moment: its instant, and a `+` for just after.
pub fn put_moment(out: &mut Vec<u8>, m: &Moment) -> Result<(), NoMemory>
    ensures ok { OnOk result (out.new.items ≡ out.old.items ++ moment_text m.now) }
    ensures err { OnErr result (PutsFront out.old.items out.new.items (moment_text m.now)) }
{
    put_instant(out, &m.at)?;
    put_bytes(out, mark(m.phase))
}

/// What follows the instant of a moment.
fn mark(phase: Phase) -> &'static [u8]
    ensures { result.now ≡ phase_text phase }
{
    match phase {
        Phase::At => b"",
        Phase::After => b"+",
    }
}
