//! Buckets of facts.

ghost use Rattle.std.specs.Prelude.{◌≡◌};
ghost use Rattle.kin_cert.specs.Bucket.{bucket_number, bucket_of};
ghost use Rattle.kin_cert.specs.Keys.{label_of};

use kin_motion::fact::Placed;
use kin_motion::form::Form;

/// The number of a form is the first one that it names, and this more for a turn, twice this more for a slope.
pub(crate) const KIND: u32 = 1 << 30;

/// What a structure knows a fact by: its part, and a number of its form.
#[derive(Clone, Copy)]
pub(crate) struct Label {
    pub(crate) part: u32,
    pub(crate) number: u32,
}

impl Label {
    /// The label of a fact.
    #[inline(always)]
    pub(crate) fn of(placed: &Placed) -> Label
        ensures { result ≡ label_of placed.now.part placed.now.fact.form }
    {
        Label {
            part: placed.part,
            number: bucket_number(&placed.fact.form),
        }
    }
}

/// Structure, part and a number of the form.
pub type Bucket = [u32; 3];

/// The bucket of a form of an owner.
pub fn bucket(structure: u32, part: u32, form: Form) -> Bucket
    ensures { result ≡ bucket_of structure part form }
{
    [structure, part, bucket_number(&form)]
}

/// The number that distinguishes a form from others of its part: the first one that it names, and 0
/// for a comparison of distances, since a match of a tournament has one. Turns count from `2^30` on
/// and slopes from `2^31` on, since a line, a turn and a slope of a merge may have one first number.
#[inline(always)]
pub fn bucket_number(form: &Form) -> u32
    ensures { result ≡ bucket_number form.now }
{
    match *form {
        Form::Line { i, .. } => i,
        _ => curve_number(form),
    }
}

// The same, out of line: only the number of a line is read in place, without a table of jumps.
#[inline(never)]
fn curve_number(form: &Form) -> u32
    ensures { result ≡ bucket_number form.now }
{
    match *form {
        Form::Line { i, .. } => i,
        Form::Turn { i, .. } => i.wrapping_add(KIND),
        Form::Slope { i, .. } => i.wrapping_add(2 * KIND),
        Form::Dist { .. } => 0,
    }
}
