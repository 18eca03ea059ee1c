//! A counter for callers that don't count steps.

ghost use Rattle.std.specs.Prelude.{◌≡◌, ◌<◌};

use kin_num::Steps;
use std::marker::Brand;
use std::sync::ledger::{Blank, Ledger};

/// Work that needs a counter.
pub trait Work {
    /// The outcome.
    type Outcome;

    /// What the work requires.
    ghost can_run: { Self → Type 0 } = { λ _. Unit {0} };

    /// What is known of the outcome.
    ghost run_gives: { Self → Self.Outcome → Type 0 } = { λ _ _. Unit {0} };

    /// Does the work with this counter, which takes no memory and no time.
    fn run<L: Ledger>(self, steps: &mut Steps<L>) -> Self::Outcome
        requires { can_run self }
        ensures { run_gives self result };
}

/// Does the work with a counter that is never read.
pub fn uncounted<W: Work>(work: W) -> W::Outcome
    requires { W.can_run work }
    ensures { W.run_gives work result }
{
    run_with::<W, Brand>(work, Blank::new(1))
}

// Opens the counter.
fn run_with<W: Work, L: Ledger>(work: W, blank: Blank) -> W::Outcome
    requires name { blank.name ≡ L.name }
    requires parts { blank.parts ≡ L.parts }
    requires some { 0 < L.parts }
    requires can { W.can_run work }
    ensures { W.run_gives work result }
{
    let mut steps = Steps::<L>::open(blank);
    work.run(&mut steps)
}
