//! The eight orders with their candidates.

ghost use Rattle.std.specs.Prelude.{◌≡◌, ℕ, ◌*◌, ◌≤◌, ◌<◌, ◌^◌, [], Some, None, true, false, replicate, slice_get, IfOk, OnOk, OnErr, MatchOption};
ghost use Rattle.kin_motion.specs.Kinetics.{ListsFailing, HasChanged};
ghost use Rattle.kin_motion.specs.Numbers.{is_in, IsIn};
ghost use Rattle.kin_motion.specs.Octants.{Octant, octants, octant_members, IsCandidate, ListsChanged};
ghost use Rattle.kin_motion.specs.Sets.{ListsExactly};
ghost use Rattle.kin_motion.specs.Scene.{Scene, IsReal};
ghost use Rattle.kin_list.specs.declared.mark.Mark.TheVariants.{Rest, Enters, Leaves, Broken};
ghost use Rattle.kin_list.specs.Listing.{names_leaving};
ghost use Rattle.kin_wedge.specs.Costs.{AreFewBelow};
ghost use Rattle.kin_wedge.specs.Wedging.{members_of, candidate_told, IsReadyWedging, IsWedgingAtRest, IsSettledWedging};

use crate::candidates::Candidates;
use crate::hits::Hits;
use crate::orders::Orders;
use kin_list::Mark;
use kin_motion::fact::{Delta, Placed};
use kin_motion::kinetic::Kinetic;
use kin_motion::signs::Signs;
use kin_num::memory::NoMemory;
use kin_num::steps::Steps;
use std::alloc::Global;
use std::marker::Model;
use std::sync::ledger::Ledger;

/// Moving points in eight orders, with the candidate of each point in each of the eight octants
/// around it.
#[derive(Drop)]
pub struct Wedges {
    size: u32,
    orders: Orders,
    candidates: Candidates,
    mark: Mark,
}

impl Model for Wedges {
    ghost use Rattle.kin_wedge.specs.Parts.{facts_from};
    ghost use Rattle.kin_wedge.specs.Passages.{changed_slots};
    ghost use Rattle.kin_wedge.specs.Seen.{rows_of};
    ghost use Rattle.kin_wedge.specs.Wedging.{Wedging, AreWedges};

    ghost Value = { Wedging };

    ghost view = { λ k. record { size = k.size; orders = rows_of k.orders.lists.items; facts = facts_from 0 k.orders.lists.items; candidates = k.candidates.table; changed = changed_slots k.candidates.table k.candidates.touches.all.items; mark = k.mark } };

    ghost invariant = { λ k. AreWedges k.size k.mark k.orders.lists.items k.candidates.rows.rows.items k.candidates.table };
}

impl Wedges {
    /// No points, with room for the numbers below `2^size`.
    pub fn new(alloc: Global, size: u32) -> Result<Wedges, NoMemory>
        requires low { 1 ≤ size }
        requires high { size ≤ 12 }
        ensures { IfOk result (λ k. k ≡ record { size = size; orders = replicate 8 []; facts = []; candidates = replicate (8 * 2 ^ size) None; changed = []; mark = Rest }) }
    {
        Ok(Wedges {
            size,
            orders: Orders::new(alloc, size)?,
            candidates: Candidates::new(alloc, size)?,
            mark: Mark::Rest,
        })
    }

    /// Marks a number as entering. It is no member, and no mark waits. After want of memory the structure
    /// may not be used again.
    pub fn insert(&mut self, no: u32) -> Result<(), NoMemory>
        requires rest { self.old.mark ≡ Rest }
        requires within { no < 2 ^ self.old.size }
        requires new { is_in no (members_of self.old) ≡ false }
        ensures ok { OnOk result (self.new ≡ record self.old { mark = Enters no }) }
        ensures err { OnErr result (self.new.mark ≡ Broken) }
    {
        self.mark = Mark::Broken;
        self.orders.insert(no)?;
        self.mark = Mark::Enters(no);
        Ok(())
    }

    /// Marks a member as leaving. No mark waits.
    pub fn remove(&mut self, no: u32)
        requires rest { self.old.mark ≡ Rest }
        requires member { is_in no (members_of self.old) ≡ true }
        ensures { self.new ≡ record self.old { mark = Leaves no } }
    {
        self.orders.remove(no);
        self.mark = Mark::Leaves(no);
    }

    /// The candidate of an apex in an octant as it was settled last: of the points there, the first in the
    /// octant's third order. For a member, `None` comes exactly where the octant is empty; for any other
    /// number always.
    pub fn candidate(&self, apex: u32, octant: u32) -> Option<u32>
        requires apex { apex < 2 ^ self.now.size }
        requires octant { octant < 8 }
        ensures told { result ≡ candidate_told self.now apex octant }
        ensures within { MatchOption result (Unit {0}) (λ c. c < 2 ^ self.now.size) }
        ensures settled { (s : Scene) (o : Octant) → IsReal s → IsSettledWedging self.now s → IsIn apex s.live → slice_get octants octant ≡ Some o → MatchOption result (octant_members s o apex ≡ []) (IsCandidate s o apex) }
    {
        self.candidates.table.candidate(8 * apex + octant)
    }

    /// The apexes whose candidate in an octant a number is, each once, in no order.
    pub fn hits(&self, no: u32, octant: u32) -> Hits<'_>
        requires { octant < 8 }
        ensures listed { ListsExactly result (λ apex. (apex < 2 ^ self.now.size) × (candidate_told self.now apex octant ≡ Some no)) }
        ensures room { (apex : ℕ) → candidate_told self.now apex octant ≡ Some no → apex < 2 ^ self.now.size }
    {
        self.candidates.table.hits(no, octant)
    }

    /// Lists the slots whose candidate the last `settle` has changed, rising and each once. Slot
    /// `8 * apex + octant` is that of an apex and an octant. What was in the list before is taken out.
    pub fn list_changed(&self, slots: &mut Vec<u32>) -> Result<(), NoMemory>
        ensures { OnOk result (slots.new.items ≡ self.now.changed) }
    {
        self.candidates.list_changed(slots)
    }
}

impl Kinetic for Wedges {
    ghost use Rattle.kin_list.specs.Listing.{names_leaving};
    ghost use Rattle.kin_wedge.specs.Wedging.{IsReadyWedging, IsWedgingAtRest, IsSettledWedging};
    ghost use Rattle.kin_wedge.specs.WedgingLaws.{determined_lem};

    ghost facts = { λ k. k.facts };

    ghost is_spared = { λ k p. names_leaving k.mark p };

    ghost ready = { IsReadyWedging };

    ghost at_rest = { IsWedgingAtRest };

    ghost settled = { IsSettledWedging };

    ghost grounded = { λ k w. Unit {0} };

    ghost determined = { determined_lem };

    fn settle<O: Signs, L: Ledger>(
        &mut self,
        now: &O,
        failed: &[Placed],
        out: &mut Delta,
        steps: &mut Steps<L>,
    ) -> Result<(), NoMemory>
        requires real { IsReal (O.scene now.now) }
        requires ready { IsReadyWedging self.old (O.scene now.now) }
        requires failing { ListsFailing self.old.facts (names_leaving self.old.mark) (O.scene now.now) failed.now }
        ensures rest { OnOk result (IsWedgingAtRest self.new) }
        ensures settled { OnOk result (IsSettledWedging self.new (O.scene now.now)) }
        ensures delta { OnOk result (HasChanged self.old.facts self.new.facts out.old out.new) }
        ensures broken { OnErr result (self.new.mark ≡ Broken) }

        // The slots that have another candidate, the tests, and what stays.
        ensures changed { OnOk result (ListsChanged self.old.size (candidate_told self.old) (candidate_told self.new) self.new.changed) }
        ensures tests { OnOk result (AreFewBelow 8 self.old.mark self.old.orders self.new.orders out.old out.new steps.old steps.new) }
        ensures same { self.new.size ≡ self.old.size }
    {
        let mark = self.mark;
        self.mark = Mark::Broken;
        self.orders.settle(mark, now, failed, out, steps)?;
        self.candidates.follow(mark, &self.orders)?;
        self.mark = Mark::Rest;
        Ok(())
    }
}
