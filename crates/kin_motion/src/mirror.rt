//! The signs of the points reflected in the x axis.

ghost use Rattle.kin_motion.specs.Scene.{Scene, reflected};

use crate::form::Form;
use crate::signs::Signs;
use kin_num::Sign;
use kin_num::steps::Steps;
use std::sync::ledger::Ledger;

/// The same moment with every y and v negated. A lower chain is the upper chain of the mirrored
/// motions.
#[derive(Drop)]
pub struct Mirror<'a, O: Signs> {
    pub inner: &'a O,
}

impl<O: Signs> Signs for Mirror<'_, O> {
    ghost scene = { λ s. reflected (O.scene s.inner.now) };

    #[inline(always)]
    fn sign<L: Ledger>(&self, form: &Form, steps: &mut Steps<L>) -> Sign {
        match *form {
            Form::Line { dx, dy, off, i, j } => self.inner.sign(
                &Form::Line {
                    dx,
                    dy: -dy,
                    off,
                    i,
                    j,
                },
                steps,
            ),
            Form::Turn { .. } | Form::Slope { .. } => self.inner.sign(form, steps).opposite(),
            Form::Dist { .. } => self.inner.sign(form, steps),
        }
    }
}
