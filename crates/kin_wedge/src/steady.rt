//! What a settle leaves as it is, and what it spends.

use crate::wedges::Wedges;
use kin_motion::fact::{Delta, Placed};
use kin_motion::kinetic::Kinetic;
use kin_motion::signs::Signs;
use kin_motion::steady::Steady;
use kin_num::memory::NoMemory;
use kin_num::steps::Steps;
use std::sync::ledger::Ledger;

impl Steady for Wedges {
    ghost use Rattle.std.specs.Prelude.{◌≡◌};
    ghost use Rattle.kin_wedge.specs.Costs.{AreFewBelow};

    ghost stays = { λ old new. new.size ≡ old.size };

    ghost spends = { λ old new failed out out' before after. AreFewBelow 8 old.mark old.orders new.orders out out' before after };

    fn settle_steadily<O: Signs, L: Ledger>(
        &mut self,
        now: &O,
        failed: &[Placed],
        out: &mut Delta,
        steps: &mut Steps<L>,
    ) -> Result<(), NoMemory> {
        self.settle(now, failed, out, steps)
    }
}
