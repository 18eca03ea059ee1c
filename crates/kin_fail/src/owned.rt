//! Facts with their owners, failures, and blocks of failures.

use kin_motion::fact::Fact;
use kin_motion::form::Form;
use kin_num::{Moment, Sign};
use std::marker::Model;

/// A fact with its owner.
#[derive(Clone, Copy, Debug, PartialEq, Eq)]
pub struct Owned {
    pub structure: u32,
    pub part: u32,
    pub fact: Fact,
}

/// A form of an owner, with the sign of its fact before and the sign that it has at the failure.
#[derive(Clone, Copy, Debug, PartialEq, Eq)]
pub struct Failure {
    pub structure: u32,
    pub part: u32,
    pub form: Form,
    pub before: Sign,
    pub after: Sign,
}

/// The failures at one moment.
#[derive(Drop)]
pub struct Block {
    pub moment: Moment,
    pub failures: Vec<Failure>,
}

impl Model for Block {
    ghost use Rattle.std.specs.Prelude.{map};
    ghost use Rattle.kin_motion.specs.Journal.{Block as Listed};
    ghost use Rattle.kin_fail.specs.Blocks.{failure_of};

    ghost Value = { Listed };

    ghost view = { λ b. record { moment = b.moment; failures = map failure_of b.failures.items } };
}
