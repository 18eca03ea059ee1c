//! The moment after y is turned round.

use kin_motion::form::Form;
use kin_motion::signs::Signs;
use kin_num::Sign;
use kin_num::steps::Steps;
use std::sync::ledger::Ledger;

/// The same moment after y is turned round. A lower chain is the upper chain there.
#[derive(Drop)]
pub struct Mirrored<'a, O: Signs> {
    pub now: &'a O,
}

impl<O: Signs> Signs for Mirrored<'_, O> {
    ghost use Rattle.kin_motion.specs.Scene.{reflected};

    ghost scene = { λ m. reflected (O.scene m.now.now) };

    fn sign<L: Ledger>(&self, form: &Form, steps: &mut Steps<L>) -> Sign {
        match *form {
            Form::Line { dx, dy, off, i, j } => {
                let turned = Form::Line {
                    dx,
                    dy: -dy,
                    off,
                    i,
                    j,
                };
                self.now.sign(&turned, steps)
            }
            Form::Turn { .. } | Form::Slope { .. } => self.now.sign(form, steps).opposite(),
            Form::Dist { .. } => self.now.sign(form, steps),
        }
    }
}
