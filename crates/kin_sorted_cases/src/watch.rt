//! Motions at a whole time.

use kin_instant::sign::sign_at;
use kin_motion::{Form, Motions, Signs, poly_of};
use kin_num::{Moment, Sign, Steps};
use std::sync::ledger::Ledger;

/// Motions at a moment.
#[derive(Drop)]
pub(crate) struct Watch<'a> {
    pub motions: &'a Motions,
    pub moment: &'a Moment,
}

#[tactic(auto, unfolding(kin_motion::specs::Forms::sign_of_form))]
impl Signs for Watch<'_> {
    ghost use Rattle.kin_motion.specs.Scene.{scene_at};

    ghost scene = { λ w. scene_at w.motions.now w.moment.now };

    fn sign<L: Ledger>(&self, form: &Form, steps: &mut Steps<L>) -> Sign {
        let p = poly_of(form, self.motions);
        sign_at(&p, self.moment, steps)
    }
}
