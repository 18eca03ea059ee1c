//! Motions at a moment, which count how often they are asked.

use kin_instant::sign::sign_at;
use kin_motion::{Form, Motions, Signs, poly_of};
use kin_num::{Moment, Sign, Steps};
use std::cell::Cell;
use std::sync::ledger::Ledger;

/// Motions at a moment, which count how often they are asked.
#[derive(Drop)]
pub(crate) struct Watch<'a> {
    pub motions: &'a Motions,
    pub moment: &'a Moment,
    pub calls: &'a Cell<u64>,
}

#[tactic(auto, unfolding(kin_motion::specs::Forms::sign_of_form))]
impl Signs for Watch<'_> {
    ghost use Rattle.kin_motion.specs.Scene.{scene_at};

    ghost scene = { λ w. scene_at w.motions.now w.moment.now };

    fn sign<L: Ledger>(&self, form: &Form, steps: &mut Steps<L>) -> Sign {
        self.calls.set(self.calls.get().wrapping_add(1));
        let p = poly_of(form, self.motions);
        sign_at(&p, self.moment, steps)
    }
}
