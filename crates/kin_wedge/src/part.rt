//! A list settles as one part of a structure.

ghost use Rattle.std.specs.Prelude.{◌≡◌, [], map, OnOk};
ghost use Rattle.kin_motion.specs.Kinetics.{ListsFailing, HasChanged};
ghost use Rattle.kin_motion.specs.Parts.{moved_by};
ghost use Rattle.kin_motion.specs.Scene.{IsReal};
ghost use Rattle.kin_list.specs.declared.mark.Mark.TheVariants.{Rest};
ghost use Rattle.kin_list.specs.Listing.{IsReadyListing, AreFewTests, names_leaving};
ghost use Rattle.kin_wedge.specs.Parts.{IsResettled};

use kin_list::KinList;
use kin_motion::fact::{Delta, Placed};
use kin_motion::signs::Signs;
use kin_num::memory::NoMemory;
use kin_num::steps::Steps;
use std::sync::ledger::Ledger;

/// Settles the list of a part by its failed facts, in its own part 0. Where there are none and no
/// mark waits, the list is skipped.
pub fn settle_list<O: Signs, L: Ledger>(
    list: &mut KinList,
    part: u32,
    told: &[Placed],
    now: &O,
    out: &mut Delta,
    steps: &mut Steps<L>,
) -> Result<(), NoMemory>
    requires real { IsReal (O.scene now.now) }
    requires ready { IsReadyListing list.old (O.scene now.now) }
    requires failing { ListsFailing list.old.facts (names_leaving list.old.mark) (O.scene now.now) told.now }
    ensures resettled { OnOk result (IsResettled (O.scene now.now) list.old list.new) }
    ensures quiet { OnOk result (told.now ≡ [] → list.old.mark ≡ Rest → list.new.swaps ≡ []) }
    ensures delta { OnOk result (HasChanged (map (moved_by part) list.old.facts) (map (moved_by part) list.new.facts) out.old out.new) }
    ensures tests { OnOk result (AreFewTests list.old.mark list.old.items list.new.items out.old out.new steps.old steps.new) }
{
    if told.is_empty() && list.is_at_rest() {
        list.stand_still();
        return Ok(());
    }
    list.settle_in(part, now, told, out, steps)
}
