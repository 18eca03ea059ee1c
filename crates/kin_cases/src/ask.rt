//! What the driver asks for itself.

ghost use Rattle.std.specs.Prelude.{◌≡◌, ◌↔◌, ◌<◌, IsTrue, IfOk};
ghost use Rattle.std.specs.List.{All};
ghost use Rattle.kin_motion.specs.Course.{live_of};
ghost use Rattle.kin_motion.specs.Forms.{IsAskable};
ghost use Rattle.kin_motion.specs.Numbers.{IsIn};

use crate::fault::Fault;
use kin_fail::Now;
use kin_motion::form::Form;
use kin_motion::motion::Motions;
use kin_motion::signs::Signs;
use kin_num::{Sign, Steps};
use std::marker::Brand;
use std::sync::ledger::{Blank, Ledger};

/// Whether the number is live.
pub fn is_live(motions: &Motions, no: u32) -> bool
    ensures { IsTrue result ↔ IsIn no (live_of motions.now) }
{
    motions.get(no).is_some()
}

/// Whether the form may be asked.
pub fn is_askable(form: &Form, motions: &Motions) -> bool
    ensures { IsTrue result → IsAskable (live_of motions.now) form.now }
{
    let live = |no: u32| is_live(motions, no);
    match *form {
        Form::Line { dx, dy, off, i, j } => {
            let near = dx.unsigned_abs() <= 16 && dy.unsigned_abs() <= 16;
            near && off.unsigned_abs() <= 1 << 16 && live(i) && live(j)
        }
        Form::Turn { i, j, k } => live(i) && live(j) && live(k),
        Form::Slope { i, j, k, l } => live(i) && live(j) && live(k) && live(l),
        Form::Dist { i, j, k, l } => live(i) && live(j) && live(k) && live(l),
    }
}

/// Whether each number of a list is live.
pub fn are_live(motions: &Motions, list: &[u32]) -> bool
    ensures { IsTrue result → All (λ i. IsIn i (live_of motions.now)) list.now }
{
    for no in list {
        if !is_live(motions, *no) {
            return false;
        }
    }
    true
}

fn sign_for<O: Signs, L: Ledger>(signs: &O, form: &Form, blank: Blank) -> Sign
    requires askable { IsAskable (O.scene signs.now).live form.now }
    requires name { blank.name ≡ L.name }
    requires parts { blank.parts ≡ L.parts }
    requires some { 0 < L.parts }
    ensures { result ≡ (O.scene signs.now).sign form.now }
{
    signs.sign(form, &mut Steps::<L>::open(blank))
}

/// The sign of a form, by a counter of its own.
fn sign_of<O: Signs>(signs: &O, form: &Form) -> Sign
    requires { IsAskable (O.scene signs.now).live form.now }
    ensures { result ≡ (O.scene signs.now).sign form.now }
{
    sign_for::<O, Brand>(signs, form, Blank::new(1))
}

/// The signs of forms at one moment, with the motions of the points that they name.
#[derive(Drop)]
pub struct Sight<'a, O: Signs> {
    pub signs: &'a O,
    pub motions: &'a Motions,
    ghost live: { (O.scene signs.now).live ≡ live_of motions.now },
}

impl<'a, 'b> Sight<'a, Now<'b>> {
    /// The signs of motions at a moment.
    pub fn at(now: &'a Now<'b>) -> Sight<'a, Now<'b>>
        ensures { result.signs.now ≡ now.now }
    {
        Sight {
            signs: now,
            motions: now.motions,
        }
    }
}

impl<O: Signs> Sight<'_, O> {
    /// The sign of a form, if it may be asked.
    pub fn sign(&self, form: &Form) -> Result<Sign, Fault>
        ensures { IfOk result (λ t. t ≡ (O.scene self.now.signs.now).sign form.now) }
    {
        if !is_askable(form, self.motions) {
            return Err(Fault::NotAskable);
        }
        Ok(sign_of(self.signs, form))
    }
}
