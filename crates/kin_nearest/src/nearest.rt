//! Kinetic nearest neighbours.

ghost use Rattle.std.specs.Prelude.{◌≡◌, ◌*◌, ◌≤◌, ◌<◌, ◌^◌, [], None, false, true, replicate, IfOk, OnOk, OnErr};
ghost use Rattle.kin_motion.specs.Kinetics.{ListsFailing, HasChanged};
ghost use Rattle.kin_motion.specs.Nearest.{IsNearest};
ghost use Rattle.kin_motion.specs.Numbers.{is_in, IsIn};
ghost use Rattle.kin_motion.specs.Scene.{IsReal};
ghost use Rattle.kin_motion.specs.Spending.{HasRisenWithin};
ghost use Rattle.kin_list.specs.declared.mark.Mark.TheVariants.{Rest, Enters, Leaves, Broken};
ghost use Rattle.kin_list.specs.Listing.{names_leaving};
ghost use Rattle.kin_wedge.specs.Costs.{AreFewBelow};
ghost use Rattle.kin_wedge.specs.Wedging.{members_of, IsReadyWedging, IsWedgingAtRest, IsSettledWedging};
ghost use Rattle.kin_nearest.specs.Nearing.{MayNearestAsk};

use crate::best::best_of_hits;
use kin_motion::fact::{Delta, Placed};
use kin_motion::kinetic::Kinetic;
use kin_motion::signs::Signs;
use kin_num::memory::NoMemory;
use kin_num::steps::Steps;
use kin_wedge::Wedges;
use std::alloc::Global;
use std::marker::Model;
use std::sync::ledger::Ledger;

/// Moving points with their candidates in octants, by which the nearest other point of each is found.
///
/// The eight orders have the parts 0 to 7.
#[derive(Drop)]
pub struct KinNearest {
    wedges: Wedges,
}

impl Model for KinNearest {
    ghost use Rattle.kin_wedge.specs.Wedging.{Wedging};

    ghost Value = { Wedging };

    ghost view = { λ k. k.wedges };
}

impl KinNearest {
    /// No points, with room for the numbers below `2^size`.
    pub fn new(alloc: Global, size: u32) -> Result<KinNearest, NoMemory>
        requires low { 1 ≤ size }
        requires high { size ≤ 12 }
        ensures { IfOk result (λ k. k ≡ record { size = size; orders = replicate 8 []; facts = []; candidates = replicate (8 * 2 ^ size) None; changed = []; mark = Rest }) }
    {
        let wedges = Wedges::new(alloc, size)?;
        Ok(KinNearest { wedges })
    }

    /// Marks a number as entering. It is no member, and no mark waits. After want of memory the structure
    /// may not be used again.
    pub fn insert(&mut self, no: u32) -> Result<(), NoMemory>
        requires rest { IsWedgingAtRest self.old }
        requires within { no < 2 ^ self.old.size }
        requires new { is_in no (members_of self.old) ≡ false }
        ensures ok { OnOk result (self.new ≡ record self.old { mark = Enters no }) }
        ensures err { OnErr result (self.new.mark ≡ Broken) }
    {
        self.wedges.insert(no)
    }

    /// Marks a member as leaving. No mark waits.
    pub fn remove(&mut self, no: u32)
        requires rest { IsWedgingAtRest self.old }
        requires member { is_in no (members_of self.old) ≡ true }
        ensures { self.new ≡ record self.old { mark = Leaves no } }
    {
        self.wedges.remove(no);
    }

    /// The nearest other point of a member at the moment `now`; of equally near ones it is the least. `None` comes
    /// exactly where there is no other. The structure is settled there, as it is while its facts hold.
    ///
    /// Besides the member, it asks signs only of points that have it as their candidate, of the points at their places,
    /// and of the candidates of all these in octant 4. Over all apexes and octants whose candidate the member is, it asks
    /// at most 4 signs, and one more for each lesser point at the apex's place. It takes no memory.
    pub fn nearest<O: Signs, L: Ledger>(
        &self,
        now: &O,
        no: u32,
        steps: &mut Steps<L>,
    ) -> Option<u32>
        requires real { IsReal (O.scene now.now) }
        requires settled { IsSettledWedging self.now (O.scene now.now) }
        requires member { IsIn no (O.scene now.now).live }
        ensures nearest { IsNearest (O.scene now.now) no result }
        ensures tests { HasRisenWithin (MayNearestAsk self.now (O.scene now.now) no) steps.old steps.new }
    {
        best_of_hits(&self.wedges, now, no, steps)
    }
}

impl Kinetic for KinNearest {
    ghost use Rattle.kin_list.specs.Listing.{names_leaving};
    ghost use Rattle.kin_wedge.specs.Wedging.{IsReadyWedging, IsWedgingAtRest, IsSettledWedging};
    ghost use Rattle.kin_wedge.specs.WedgingLaws.{determined_lem};

    ghost facts = { λ k. k.facts };

    ghost is_spared = { λ k p. names_leaving k.mark p };

    ghost ready = { IsReadyWedging };

    ghost at_rest = { IsWedgingAtRest };

    ghost settled = { IsSettledWedging };

    ghost grounded = { λ k w. Unit {0} };

    ghost determined = { determined_lem };

    fn settle<O: Signs, L: Ledger>(
        &mut self,
        now: &O,
        failed: &[Placed],
        out: &mut Delta,
        steps: &mut Steps<L>,
    ) -> Result<(), NoMemory>
        requires real { IsReal (O.scene now.now) }
        requires ready { IsReadyWedging self.old (O.scene now.now) }
        requires failing { ListsFailing self.old.facts (names_leaving self.old.mark) (O.scene now.now) failed.now }
        ensures rest { OnOk result (IsWedgingAtRest self.new) }
        ensures settled { OnOk result (IsSettledWedging self.new (O.scene now.now)) }
        ensures delta { OnOk result (HasChanged self.old.facts self.new.facts out.old out.new) }
        ensures broken { OnErr result (self.new.mark ≡ Broken) }
        ensures tests { OnOk result (AreFewBelow 8 self.old.mark self.old.orders self.new.orders out.old out.new steps.old steps.new) }
        ensures same { self.new.size ≡ self.old.size }
    {
        self.wedges.settle(now, failed, out, steps)
    }
}
