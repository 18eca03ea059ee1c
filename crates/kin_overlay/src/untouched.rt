//! Which records of the old list can be drawn as they are.

ghost use Rattle.std.specs.Prelude.{◌≡◌, ◌<◌, false, Contains, IsTrue, IsFalse, length};
ghost use Rattle.kin_motion.specs.declared.fact.Fact.{Fact as Claim};
ghost use Rattle.kin_motion.specs.declared.fact.Placed.{Placed as Put};
ghost use Rattle.kin_motion.specs.Numbers.{is_in};
ghost use Rattle.kin_overlay.specs.Overlays.{names_any};
ghost use Rattle.kin_overlay.specs.Passing.{begins_with, put_of, IsUntouched};
ghost use Rattle.kin_overlay.specs.Remembered.{turn_fact, slope_facts};

use crate::half::Half;
use crate::names::is_one_of;
use crate::record::Record;
use crate::sketch::Puts;
use crate::standing::Standing;
use kin_motion::fact::Placed;
use kin_motion::form::Form;

/// Whether a turn or a slope form begins with this point.
#[inline(always)]
fn begins_with(form: &Form, point: u32) -> bool
    ensures { result ≡ begins_with form.now point }
{
    match form {
        Form::Turn { i, .. } | Form::Slope { i, .. } => *i == point,
        Form::Line { .. } | Form::Dist { .. } => false,
    }
}

/// Whether a fact has failed that begins with this point, as both facts of a record begin with its left
/// point.
#[inline(always)]
fn is_doubted(left: u32, failed: &[Placed]) -> bool
    ensures { IsFalse result → (p : Put) → Contains failed.now p → begins_with p.fact.form left ≡ false }
{
    for placed in failed {
        if begins_with(&placed.fact.form, left) {
            return true;
        }
    }
    false
}

/// Whether a fact of the record names one of the numbers that have left.
#[inline(always)]
fn names_some(noted: &Record, gone: &[u32]) -> bool
    ensures turn { IsFalse result → names_any (turn_fact noted.now).form gone.now ≡ false }
    ensures slope { IsFalse result → (f : Claim) → Contains (slope_facts noted.now) f → names_any f.form gone.now ≡ false }
{
    for no in gone {
        if noted.turn_names(*no) || noted.slope_names(*no) {
            return true;
        }
    }
    false
}

/// Whether the right point of the breakpoint was put into its half.
#[inline(always)]
fn is_put(noted: &Record, puts: Puts) -> bool
    ensures { result ≡ is_in noted.now.at.right (put_of noted.now.at.half puts.entry.a.now puts.entry.b.now) }
{
    match noted.at.half {
        Half::A => is_one_of(noted.at.right, puts.a),
        Half::B => is_one_of(noted.at.right, puts.b),
    }
}

/// True only if the record can be drawn as it is, where its breakpoint is still there and its point of
/// the other half is current.
#[inline(always)]
pub fn is_untouched(noted: &Record, puts: Puts, standing: &Standing) -> bool
    ensures { IsTrue result → IsUntouched standing.now puts.entry.a.now puts.entry.b.now noted.now }
{
    if is_doubted(noted.at.left, standing.failed) {
        return false;
    }
    if names_some(noted, standing.gone) {
        return false;
    }
    !is_put(noted, puts)
}
