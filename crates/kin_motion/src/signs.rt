//! The signs of forms at one moment.

ghost use Rattle.std.specs.Prelude.{◌≡◌, ◌+◌};
ghost use Rattle.kin_motion.specs.Forms.{IsAskable};
ghost use Rattle.kin_motion.specs.Scene.{Scene};

use crate::form::Form;
use kin_num::Sign;
use kin_num::steps::Steps;
use std::sync::ledger::Ledger;

/// Motions at one moment, which give the signs of forms. A structure that asks only these never
/// sees an instant.
pub trait Signs {
    /// The live numbers and the sign of each form at that moment.
    ghost scene: { Self → Scene };

    /// The sign of the form's polynomial at the moment. Counts one step. Each named number is live. A line's
    /// direction is in -16..16 along x and y, and its offset in -2^16..2^16.
    fn sign<L: Ledger>(&self, form: &Form, steps: &mut Steps<L>) -> Sign
        requires askable { IsAskable (scene self.now).live form.now }
        ensures value { result ≡ (scene self.now).sign form.now }
        ensures count { steps.new ≡ steps.old + 1 };
}
