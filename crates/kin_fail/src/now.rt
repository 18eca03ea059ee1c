//! Motions at one moment.

ghost use Rattle.std.specs.Prelude.{◌≡◌, ◌+◌};
ghost use Rattle.kin_motion.specs.Course.{live_of};
ghost use Rattle.kin_motion.specs.Forms.{IsAskable};
ghost use Rattle.kin_motion.specs.Scene.{scene_at};

use kin_instant::sign::sign_at;
use kin_motion::form::Form;
use kin_motion::motion::Motions;
use kin_motion::poly::{poly_of, poly_of_line};
use kin_motion::signs::Signs;
use kin_num::{Moment, Sign, Steps};
use std::sync::ledger::Ledger;

/// Motions at one moment, which give the signs of forms.
#[derive(Drop)]
pub struct Now<'a> {
    pub motions: &'a Motions,
    pub moment: &'a Moment,
}

#[tactic(auto, unfolding(kin_motion::specs::Forms::sign_of_form))]
impl Signs for Now<'_> {
    ghost use Rattle.kin_motion.specs.Scene.{scene_at};

    ghost scene = { λ now. scene_at now.motions.now now.moment.now };

    #[inline(always)]
    fn sign<L: Ledger>(&self, form: &Form, steps: &mut Steps<L>) -> Sign {
        match *form {
            Form::Line { dx, dy, off, i, j } => {
                let p = poly_of_line(self.motions, dx, dy, off, i, j);
                sign_at(&p, self.moment, steps)
            }
            _ => curved_sign(form, self.motions, self.moment, steps),
        }
    }
}

/// The sign of a form of any degree. It is asked in line, so that a form whose kind is known where it is
/// asked for is never made.
#[inline(always)]
#[tactic(auto, unfolding(kin_motion::specs::Forms::sign_of_form))]
fn curved_sign<L: Ledger>(
    form: &Form,
    motions: &Motions,
    moment: &Moment,
    steps: &mut Steps<L>,
) -> Sign
    requires askable { IsAskable (live_of motions.now) form.now }
    ensures value { result ≡ (scene_at motions.now moment.now).sign form.now }
    ensures count { steps.new ≡ steps.old + 1 }
{
    let p = poly_of(form, motions);
    sign_at(&p, moment, steps)
}
