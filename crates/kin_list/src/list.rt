//! The kinetic sorted list.

ghost use Rattle.std.specs.Prelude.{◌≡◌, ◌<◌, ◌≤◌, ◌^◌, ◌↔◌, unsigned_abs, [], Some, true, false, length, map, slice_get, IsTrue, IfOk, OnOk, OnErr, IfSome, IsNone};
ghost use Rattle.kin_motion.specs.Records.{moved_pairs};
ghost use Rattle.kin_motion.specs.Kinetics.{ListsFailing, HasChanged};
ghost use Rattle.kin_motion.specs.Numbers.{is_in};
ghost use Rattle.kin_motion.specs.Parts.{moved_by};
ghost use Rattle.kin_motion.specs.Scene.{Scene, IsReal};
ghost use Rattle.kin_list.specs.declared.mark.Mark.TheVariants.{Rest, Enters, Leaves, Broken};
ghost use Rattle.kin_list.specs.Listing.{IsAtRest, IsReadyListing, IsSettledListing, AreFewTests, names_leaving, staying, lasting};
ghost use Rattle.kin_list.specs.Rows.{exchanged};

use crate::mark::{Mark, single};
use kin_motion::fact::{Delta, Placed};
use kin_motion::kinetic::Kinetic;
use kin_motion::signs::Signs;
use kin_num::memory::NoMemory;
use kin_num::steps::Steps;
use kin_sorted::{Direction, Sorted};
use std::alloc::Global;
use std::marker::Model;
use std::sync::ledger::Ledger;

/// Moving points in their order along a direction.
///
/// The mark is the list's own, and none is ever left in the sorted list: so `remove` takes no memory, and a
/// `settle` finds by one look that nothing waits.
#[derive(Drop)]
pub struct KinList {
    sorted: Sorted<Direction>,
    mark: Mark,
}

impl Model for KinList {
    ghost use Rattle.kin_list.specs.Listing.{Listing};
    ghost use Rattle.kin_list.specs.Sound.{IsSound};

    ghost Value = { Listing };

    ghost view = { λ k. record {
      dx = k.sorted.rank.dx;
      dy = k.sorted.rank.dy;
      room = k.sorted.rank.slots;
      items = k.sorted.items;
      facts = k.sorted.facts;
      swaps = k.sorted.swaps;
      mark = k.mark;
    } };

    ghost invariant = { λ k. IsSound k.mark k.sorted };
}

/// How many numbers have this size.
fn room_for(size: u32) -> u16
    requires { size ≤ 12 }
    ensures value { result ≡ 2 ^ size }
    ensures small { result ≤ 2 ^ 15 }
{
    1 << size
}

impl KinList {
    /// An empty list along a direction, for the numbers below `2^size`.
    pub fn new(alloc: Global, dx: i32, dy: i32, size: u32) -> Result<KinList, NoMemory>
        requires dx { unsigned_abs dx ≤ 16 }
        requires dy { unsigned_abs dy ≤ 16 }
        requires low { 1 ≤ size }
        requires high { size ≤ 12 }
        ensures { IfOk result (λ k. k ≡ record { dx = dx; dy = dy; room = 2 ^ size; items = []; facts = []; swaps = []; mark = Rest }) }
    {
        let along = Direction::new(dx, dy, room_for(size));
        let sorted = Sorted::new(alloc, along)?;
        Ok(KinList {
            sorted,
            mark: Mark::Rest,
        })
    }

    /// Marks a number as entering. It is no member, and no mark waits. Want of memory changes nothing.
    pub fn insert(&mut self, no: u32) -> Result<(), NoMemory>
        requires rest { self.old.mark ≡ Rest }
        requires within { no < self.old.room }
        requires new { is_in no self.old.items ≡ false }
        ensures ok { OnOk result (self.new ≡ record self.old { mark = Enters no }) }
        ensures err { OnErr result (self.new ≡ self.old) }
    {
        self.sorted.reserve()?;
        self.mark = Mark::Enters(no);
        Ok(())
    }

    /// Marks a member as leaving. No mark waits.
    pub fn remove(&mut self, no: u32)
        requires rest { self.old.mark ≡ Rest }
        requires member { is_in no self.old.items ≡ true }
        ensures { self.new ≡ record self.old { mark = Leaves no } }
    {
        self.mark = Mark::Leaves(no);
    }

    /// Whether no mark waits.
    pub fn is_at_rest(&self) -> bool
        ensures { IsTrue result ↔ IsAtRest self.now }
    {
        match self.mark {
            Mark::Rest => true,
            Mark::Enters(_) | Mark::Leaves(_) | Mark::Broken => false,
        }
    }

    /// Forgets the exchanges of the last `settle`. Where no mark waits and no fact has failed, a
    /// `settle` would do nothing else.
    pub fn stand_still(&mut self)
        ensures same { self.new ≡ record self.old { swaps = [] } }
        ensures settled { IsAtRest self.old → (s : Scene) → IsReal s → IsReadyListing self.old s → ListsFailing self.old.facts (names_leaving self.old.mark) s [] → IsSettledListing self.new s }
    {
        self.sorted.stand_still();
    }

    /// `settle` as a part of a structure: the change is reported as that of the facts in this part.
    pub fn settle_in<O: Signs, L: Ledger>(
        &mut self,
        part: u32,
        now: &O,
        failed: &[Placed],
        out: &mut Delta,
        steps: &mut Steps<L>,
    ) -> Result<(), NoMemory>
        requires real { IsReal (O.scene now.now) }
        requires ready { IsReadyListing self.old (O.scene now.now) }
        requires failing { ListsFailing self.old.facts (names_leaving self.old.mark) (O.scene now.now) failed.now }
        ensures rest { OnOk result (IsAtRest self.new) }
        ensures settled { OnOk result (IsSettledListing self.new (O.scene now.now)) }
        ensures delta { OnOk result (HasChanged (map (moved_by part) self.old.facts) (map (moved_by part) self.new.facts) out.old out.new) }
        ensures broken { OnErr result (self.new.mark ≡ Broken) }

        // The exchanges lead from the old order to the new one, one for each moved pair.
        ensures exchanges { OnOk result (exchanged self.new.swaps (staying self.old.mark self.old.items) ≡ lasting self.old.mark self.new.items) }
        ensures moved { OnOk result (length self.new.swaps ≡ moved_pairs self.old.items self.new.items) }

        // The tests, and what stays.
        ensures tests { OnOk result (AreFewTests self.old.mark self.old.items self.new.items out.old out.new steps.old steps.new) }
        ensures same { OnOk result ((self.new.dx ≡ self.old.dx) × (self.new.dy ≡ self.old.dy) × (self.new.room ≡ self.old.room)) }
    {
        let settled = self
            .sorted
            .settle_one(single(self.mark), part, now, failed, out, steps);
        self.mark = if settled.is_ok() {
            Mark::Rest
        } else {
            Mark::Broken
        };
        settled
    }

    /// The places of the exchanges of the last `settle`, in their order.
    pub fn swaps(&self) -> &[u32]
        ensures { result.now ≡ self.now.swaps }
    {
        self.sorted.swaps()
    }

    /// The place of a number, or `None` exactly where it is no member.
    pub fn place_of(&self, no: u32) -> Option<u32>
        ensures some { IfSome result (λ p. slice_get self.now.items p ≡ Some no) }
        ensures none { IsNone result ↔ (is_in no self.now.items ≡ false) }
    {
        self.sorted.find_slot(no)
    }

    /// The place of a member.
    #[inline(always)]
    pub fn place_of_member(&self, no: u32) -> u32
        requires { is_in no self.now.items ≡ true }
        ensures { slice_get self.now.items result ≡ Some no }
    {
        self.sorted.place_of_slot(no)
    }

    /// The members, in their order as it was settled last.
    pub fn items(&self) -> &[u32]
        ensures { result.now ≡ self.now.items }
    {
        self.sorted.slots()
    }
}

impl Kinetic for KinList {
    ghost use Rattle.kin_list.specs.Listing.{IsAtRest, IsReadyListing, IsSettledListing, names_leaving};
    ghost use Rattle.kin_list.specs.ListingLaws.{determined_lem};

    ghost facts = { λ k. k.facts };

    ghost is_spared = { λ k p. names_leaving k.mark p };

    ghost ready = { IsReadyListing };

    ghost at_rest = { IsAtRest };

    ghost settled = { IsSettledListing };

    ghost grounded = { λ k w. Unit {0} };

    ghost determined = { determined_lem };

    fn settle<O: Signs, L: Ledger>(
        &mut self,
        now: &O,
        failed: &[Placed],
        out: &mut Delta,
        steps: &mut Steps<L>,
    ) -> Result<(), NoMemory>
        requires real { IsReal (O.scene now.now) }
        requires ready { IsReadyListing self.old (O.scene now.now) }
        requires failing { ListsFailing self.old.facts (names_leaving self.old.mark) (O.scene now.now) failed.now }
        ensures rest { OnOk result (IsAtRest self.new) }
        ensures settled { OnOk result (IsSettledListing self.new (O.scene now.now)) }
        ensures delta { OnOk result (HasChanged self.old.facts self.new.facts out.old out.new) }
        ensures broken { OnErr result (self.new.mark ≡ Broken) }

        // The exchanges lead from the old order to the new one, one for each moved pair.
        ensures exchanges { OnOk result (exchanged self.new.swaps (staying self.old.mark self.old.items) ≡ lasting self.old.mark self.new.items) }
        ensures moved { OnOk result (length self.new.swaps ≡ moved_pairs self.old.items self.new.items) }

        // The tests, and what stays.
        ensures tests { OnOk result (AreFewTests self.old.mark self.old.items self.new.items out.old out.new steps.old steps.new) }
        ensures same { OnOk result ((self.new.dx ≡ self.old.dx) × (self.new.dy ≡ self.old.dy) × (self.new.room ≡ self.old.room)) }
    {
        self.settle_in(0, now, failed, out, steps)
    }
}
