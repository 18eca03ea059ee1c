//! How much a run has passed.

ghost use Rattle.std.specs.Prelude.{◌≡◌};
ghost use Rattle.kin_status.specs.Tallies.{one_more, counted_on};

/// How many blocks were passed, and how many failures they held. Both counts stop at 2^64 - 1.
#[derive(Clone, Copy)]
pub struct Tally {
    pub moments: u64,
    pub failures: u64,
}

impl Tally {
    /// Nothing yet.
    pub fn new() -> Tally
        ensures { result ≡ record { moments = 0; failures = 0 } }
    {
        Tally {
            moments: 0,
            failures: 0,
        }
    }

    /// Counts one more block, with this many failures.
    pub fn count(&mut self, failures: usize)
        ensures { self.new ≡ one_more failures self.old }
    {
        self.moments = self.moments.saturating_add(1);
        self.failures = self.failures.saturating_add(failures as u64);
    }
}

/// Counts one more block, with this many failures, where the counts are wanted.
pub fn count_on(tally: &mut Option<Tally>, failures: usize)
    ensures { tally.new ≡ counted_on failures tally.old }
{
    if let Some(counts) = tally {
        counts.count(failures);
    }
}
