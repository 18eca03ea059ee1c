//! Both lists at once.

ghost use Rattle.std.specs.Prelude.{◌≡◌, true, OnOk, filter, map};
ghost use Rattle.kin_motion.specs.Kinetics.{ListsFailing, HasChanged};
ghost use Rattle.kin_motion.specs.Scene.{IsReal};
ghost use Rattle.kin_sorted.specs.Sorting.{unmarked};
ghost use Rattle.kin_boxes.specs.Boxing.{AreJoined, AreJoinedBut, AreFewTests, IsReadyBoxing, IsSettledBoxing, boxing_of, facts_of, is_spared, is_along_x, is_along_y, moved_back, with_leaving};

use crate::axis::leave;
use crate::mail::{Mail, PARTS};
use kin_motion::fact::{Delta, Placed};
use kin_motion::signs::Signs;
use kin_num::memory::NoMemory;
use kin_num::steps::Steps;
use kin_sorted::{Ends, Sorted};
use std::sync::ledger::Ledger;

/// Marks both ends of the box that is to leave, if there is one, along both axes.
pub(crate) fn leave_both(
    by_x: &mut Sorted<Ends>,
    by_y: &mut Sorted<Ends>,
    leaving: Option<u32>,
) -> Result<(), NoMemory>
    requires { AreJoinedBut leaving by_x.old by_y.old }
    ensures x { OnOk result (by_x.new ≡ with_leaving leaving by_x.old) }
    ensures y { OnOk result (by_y.new ≡ with_leaving leaving by_y.old) }
    ensures x_same { by_x.new.rank ≡ by_x.old.rank }
    ensures y_same { by_y.new.rank ≡ by_y.old.rank }
{
    if let Some(no) = leaving {
        leave(by_x, no)?;
        leave(by_y, no)?;
    }
    Ok(())
}

/// Settles the order along x and the order along y, each by the failed facts of its parts.
pub(crate) fn settle_both<O: Signs, L: Ledger>(
    by_x: &mut Sorted<Ends>,
    by_y: &mut Sorted<Ends>,
    mail: &mut Mail,
    now: &O,
    failed: &[Placed],
    out: &mut Delta,
    steps: &mut Steps<L>,
) -> Result<(), NoMemory>
    requires real { IsReal (O.scene now.now) }
    requires joined { AreJoined by_x.old by_y.old }
    requires ready { IsReadyBoxing (boxing_of by_x.old by_y.old) (O.scene now.now) }
    requires failing { ListsFailing (facts_of (boxing_of by_x.old by_y.old)) (is_spared (boxing_of by_x.old by_y.old)) (O.scene now.now) failed.now }
    ensures joined { OnOk result (AreJoined by_x.new by_y.new) }
    ensures rest { OnOk result (by_x.new.marks ≡ unmarked) }
    ensures settled { OnOk result (IsSettledBoxing (boxing_of by_x.new by_y.new) (O.scene now.now)) }
    ensures delta { OnOk result (HasChanged (facts_of (boxing_of by_x.old by_y.old)) (facts_of (boxing_of by_x.new by_y.new)) out.old out.new) }
    ensures tests { OnOk result (AreFewTests (boxing_of by_x.old by_y.old) (boxing_of by_x.new by_y.new) out.old out.new steps.old steps.new) }
    ensures x_same { by_x.new.rank ≡ by_x.old.rank }
    ensures y_same { by_y.new.rank ≡ by_y.old.rank }
{
    mail.sort(failed)?;
    by_x.settle_in(0, now, mail.x.facts(), out, steps)?;
    by_y.settle_in(PARTS, now, mail.y.facts(), out, steps)
}
