//! Which calls of a source or a sink in memory fail.

ghost use Rattle.std.specs.Prelude.{◌≡◌, ◌≤◌, ◌↔◌, Some, IsTrue};
ghost use Rattle.kin_io.specs.Causes.{Rose};
ghost use Rattle.kin_io.specs.Memory.{IsDue, after_call};

use std::marker::Model;

/// The numbers of the calls that fail, the next call's number, and how many calls have failed.
#[derive(Drop)]
pub struct Schedule {
    failing: Vec<u64>,
    /// None once the numbers of 64 bits have all been given.
    number: Option<u64>,
    /// Stops at the greatest number.
    faults: u64,
}

impl Model for Schedule {
    ghost use Rattle.std.specs.Prelude.{◌<◌, ◌^◌};
    ghost use Rattle.kin_io.specs.Memory.{Schedule as Plan};

    ghost Value = { Plan };

    ghost view = { λ s. record { number = s.number; failing = s.failing.items; faults = s.faults } };
}

impl Schedule {
    /// Numbers the calls from 0.
    pub fn new(failing: Vec<u64>) -> Schedule
        ensures { result ≡ record { number = Some 0; failing = failing.items; faults = 0 } }
    {
        Schedule {
            failing,
            number: Some(0),
            faults: 0,
        }
    }

    /// Whether the next call's number is among those that fail.
    pub fn is_due(&self) -> bool
        ensures { IsTrue result ↔ IsDue self.now }
    {
        match self.number {
            Some(number) => self.failing.contains(&number),
            None => false,
        }
    }

    /// Counts one more call.
    #[tactic(auto, using(crate::proofs::Counts::rose_by_one))]
    pub fn count(&mut self, failed: bool)
        ensures after { self.new ≡ after_call self.old failed }
        ensures later { self.old.faults ≤ self.new.faults }
        ensures rose { IsTrue failed → Rose self.old.faults self.new.faults }
    {
        self.number = self.number.and_then(|number| number.checked_add(1));
        if failed {
            self.faults = self.faults.saturating_add(1);
        }
    }
}
