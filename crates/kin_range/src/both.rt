//! Both lists settle.

ghost use Rattle.std.specs.Prelude.{◌≡◌, ◌∷◌, [], true, length, OnOk};
ghost use Rattle.kin_motion.specs.Kinetics.{ListsFailing, HasChanged};
ghost use Rattle.kin_motion.specs.Scene.{IsReal};
ghost use Rattle.kin_list.specs.declared.mark.Mark.TheVariants.{Rest};
ghost use Rattle.kin_list.specs.Listing.{IsReadyListing, names_leaving};
ghost use Rattle.kin_wedge.specs.Parts.{facts_from};
ghost use Rattle.kin_range.specs.Ranging.{AreJoined, AreFewTests, IsSettledRanging};

use kin_list::KinList;
use kin_motion::fact::{Delta, Placed};
use kin_motion::signs::Signs;
use kin_num::memory::NoMemory;
use kin_num::steps::Steps;
use kin_wedge::mail::Mail;
use kin_wedge::part::settle_list;
use std::sync::ledger::Ledger;

/// Settles the list along x and the list along y, each by the failed facts of its part.
pub(crate) fn settle_both<O: Signs, L: Ledger>(
    by_x: &mut KinList,
    by_y: &mut KinList,
    mail: &mut Mail,
    now: &O,
    failed: &[Placed],
    out: &mut Delta,
    steps: &mut Steps<L>,
) -> Result<(), NoMemory>
    requires real { IsReal (O.scene now.now) }
    requires joined { AreJoined by_x.old by_y.old }
    requires ready { IsReadyListing by_x.old (O.scene now.now) }
    requires told { length mail.old.boxes.items ≡ 2 }
    requires failing { ListsFailing (facts_from 0 (by_x.old ∷ by_y.old ∷ [])) (names_leaving by_x.old.mark) (O.scene now.now) failed.now }
    ensures joined { OnOk result (AreJoined by_x.new by_y.new) }
    ensures rest { OnOk result (by_x.new.mark ≡ Rest) }
    ensures settled { OnOk result (IsSettledRanging (record { by_x = by_x.new; by_y = by_y.new; whole = true }) (O.scene now.now)) }
    ensures delta { OnOk result (HasChanged (facts_from 0 (by_x.old ∷ by_y.old ∷ [])) (facts_from 0 (by_x.new ∷ by_y.new ∷ [])) out.old out.new) }
    ensures tests { OnOk result (AreFewTests (record { by_x = by_x.old; by_y = by_y.old; whole = true }) (record { by_x = by_x.new; by_y = by_y.new; whole = true }) out.old out.new steps.old steps.new) }
    ensures room { OnOk result (by_x.new.room ≡ by_x.old.room) }
    ensures told { length mail.new.boxes.items ≡ 2 }
{
    mail.sort(failed)?;
    settle_list(by_x, 0, mail.told(0), now, out, steps)?;
    settle_list(by_y, 1, mail.told(1), now, out, steps)
}
