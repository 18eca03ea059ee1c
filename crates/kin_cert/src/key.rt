//! What facts are known by.

ghost use Rattle.std.specs.Prelude.{◌≡◌, ◌↔◌, IsTrue};
ghost use Rattle.kin_cert.specs.Keys.{key_of, key_at};

use crate::bucket::{Bucket, Label, bucket};
use crate::plan::Plan;
use kin_motion::form::Form;

/// What a fact is known by: its seat or, where it has none, its bucket. Most keys have one live fact at a time, and a
/// repair usually puts another fact into it.
#[derive(Clone, Copy)]
pub(crate) enum Key {
    Seat(usize),
    Bucket(Bucket),
}

impl Key {
    /// Whether it is the same one.
    pub(crate) fn is(&self, other: &Key) -> bool
        ensures { IsTrue result ↔ (self.now ≡ other.now) }
    {
        match (self, other) {
            (Key::Seat(one), Key::Seat(two)) => *one == *two,
            (Key::Bucket(one), Key::Bucket(two)) => *one == *two,
            _ => false,
        }
    }
}

/// The key of a form of an owner.
#[inline(always)]
pub(crate) fn key_of(plan: &Plan, structure: u32, part: u32, form: &Form) -> Key
    ensures { result ≡ key_of plan.now structure part form.now }
{
    match plan.seat_of(structure, part, form) {
        Some(seat) => Key::Seat(seat),
        None => Key::Bucket(bucket(structure, part, *form)),
    }
}

/// Whether facts of a structure with these labels are known by one key.
#[inline(always)]
pub(crate) fn have_one_key(plan: &Plan, structure: u32, old: Label, new: Label) -> bool
    ensures { IsTrue result → key_at plan.now structure new ≡ key_at plan.now structure old }
{
    let is_one_number = new.number == old.number;
    if new.part == old.part {
        return is_one_number || plan.is_node(structure, old.part);
    }
    is_one_number && new.part / 2 == old.part / 2 && plan.has_pair_seat(structure, old)
}
