//! The kinetic closest pair.

ghost use Rattle.std.specs.Prelude.{◌≡◌, ◌↔◌, ◌≤◌, ◌<◌, ◌^◌, ◌+◌, ℕ, [], None, true, false, IfOk, OnOk, OnErr};
ghost use Rattle.kin_motion.specs.ClosestPairs.{IsClosest};
ghost use Rattle.kin_motion.specs.Kinetics.{ListsFailing, HasChanged};
ghost use Rattle.kin_motion.specs.Numbers.{is_in, IsIn};
ghost use Rattle.kin_motion.specs.Scene.{Scene, IsReal};
ghost use Rattle.kin_list.specs.declared.mark.Mark.TheVariants.{Rest, Enters, Leaves};
ghost use Rattle.kin_list.specs.Listing.{names_leaving};
ghost use Rattle.kin_wedge.specs.Wedging.{members_of};
ghost use Rattle.kin_closest.specs.Closing.{IsClosingAtRest, IsReadyClosing, IsSettledClosing, AreFewTests, facts_of};

use crate::pairs::tell_all;
use kin_motion::fact::{Delta, Placed};
use kin_motion::kinetic::Kinetic;
use kin_motion::signs::Signs;
use kin_num::memory::NoMemory;
use kin_num::steps::Steps;
use kin_pairs::{Distance, Mail};
use kin_tourney::Tourney;
use kin_wedge::Wedges;
use std::alloc::Global;
use std::marker::Model;
use std::sync::ledger::Ledger;

/// The orders have the parts 0 to 7, and the nodes of the tournament those after.
const ORDERS: u32 = 8;

/// The closest pair of moving points: the best of all pairs of a point and its candidate in an octant,
/// by a tournament over the slots `8 * apex + octant`.
///
/// The eight orders have the parts 0 to 7, and node v of the tournament has part 8 + v.
#[derive(Drop)]
pub struct KinClosest {
    wedges: Wedges,
    pairs: Tourney<Distance>,
    mail: Mail,
    /// The slots that have another candidate. Reused.
    changed: Vec<u32>,
    /// Whether no call that takes memory is under way and none has run out of it.
    whole: bool,
}

impl Model for KinClosest {
    ghost use Rattle.std.specs.Prelude.{IsTrue};
    ghost use Rattle.kin_closest.specs.Closing.{Closing, AreJoined};

    ghost Value = { Closing };

    ghost view = { λ k. record { wedges = k.wedges; pairs = k.pairs; whole = k.whole } };

    ghost invariant = { λ k. IsTrue k.whole → AreJoined k.wedges k.pairs };
}

impl KinClosest {
    /// No points, with room for the numbers below `2^size`.
    pub fn new(alloc: Global, size: u32) -> Result<KinClosest, NoMemory>
        requires low { 1 ≤ size }
        requires high { size ≤ 12 }
        ensures size { IfOk result (λ k. k.wedges.size ≡ size) }
        ensures rest { IfOk result IsClosingAtRest }
        ensures members { IfOk result (λ k. members_of k.wedges ≡ []) }
        ensures facts { IfOk result (λ k. facts_of k ≡ []) }
        ensures settled { IfOk result (λ k. (s : Scene) → s.live ≡ [] → IsSettledClosing k s) }
    {
        Ok(KinClosest {
            wedges: Wedges::new(alloc, size)?,
            pairs: Tourney::new(alloc, Distance, size + 3)?,
            mail: Mail::new(alloc),
            changed: Vec::new(alloc),
            whole: true,
        })
    }

    /// Marks a number as entering. It is no member, and no mark waits. After want of memory the structure
    /// may not be used again.
    pub fn insert(&mut self, no: u32) -> Result<(), NoMemory>
        requires rest { IsClosingAtRest self.old }
        requires within { no < 2 ^ self.old.wedges.size }
        requires new { is_in no (members_of self.old.wedges) ≡ false }
        ensures ok { OnOk result (self.new ≡ record self.old { wedges = record self.old.wedges { mark = Enters no } }) }
        ensures err { OnErr result (self.new.whole ≡ false) }
    {
        self.whole = false;
        self.wedges.insert(no)?;
        self.whole = true;
        Ok(())
    }

    /// Marks a member as leaving. No mark waits.
    pub fn remove(&mut self, no: u32)
        requires rest { IsClosingAtRest self.old }
        requires member { is_in no (members_of self.old.wedges) ≡ true }
        ensures { self.new ≡ record self.old { wedges = record self.old.wedges { mark = Leaves no } } }
    {
        self.wedges.remove(no);
    }

    /// The closest pair as it was settled last, the lesser number first, or `None` exactly with fewer
    /// than two members. Of equally close pairs it is the one with the least first number, then with the
    /// least second one.
    pub fn closest(&self) -> Option<(u32, u32)>
        requires rest { IsClosingAtRest self.now }
        ensures closest { (s : Scene) → IsSettledClosing self.now s → IsClosest s result }
        ensures none { (result ≡ None) ↔ ((i j : ℕ) → IsIn i (members_of self.now.wedges) → IsIn j (members_of self.now.wedges) → i ≡ j) }
    {
        let best = self.pairs.winner(1)?;
        Some(best.points())
    }
}

impl Kinetic for KinClosest {
    ghost use Rattle.kin_list.specs.Listing.{names_leaving};
    ghost use Rattle.kin_closest.specs.Closing.{IsClosingAtRest, IsReadyClosing, IsSettledClosing, facts_of};
    ghost use Rattle.kin_closest.specs.ClosingLaws.{determined_lem};

    ghost facts = { facts_of };

    ghost is_spared = { λ k p. names_leaving k.wedges.mark p };

    ghost ready = { IsReadyClosing };

    ghost at_rest = { IsClosingAtRest };

    ghost settled = { IsSettledClosing };

    ghost grounded = { λ k w. Unit {0} };

    ghost determined = { determined_lem };

    fn settle<O: Signs, L: Ledger>(
        &mut self,
        now: &O,
        failed: &[Placed],
        out: &mut Delta,
        steps: &mut Steps<L>,
    ) -> Result<(), NoMemory>
        requires real { IsReal (O.scene now.now) }
        requires ready { IsReadyClosing self.old (O.scene now.now) }
        requires failing { ListsFailing (facts_of self.old) (names_leaving self.old.wedges.mark) (O.scene now.now) failed.now }
        ensures rest { OnOk result (IsClosingAtRest self.new) }
        ensures settled { OnOk result (IsSettledClosing self.new (O.scene now.now)) }
        ensures delta { OnOk result (HasChanged (facts_of self.old) (facts_of self.new) out.old out.new) }
        ensures broken { OnErr result (self.new.whole ≡ false) }
        ensures tests { OnOk result (AreFewTests self.old self.new failed.now out.old steps.old steps.new) }
        ensures same { OnOk result (self.new.wedges.size ≡ self.old.wedges.size) }
    {
        self.whole = false;
        self.mail.sort(ORDERS, failed)?;
        self.wedges
            .settle(now, self.mail.others(ORDERS, failed), out, steps)?;
        self.wedges.list_changed(&mut self.changed)?;
        tell_all(&mut self.pairs, &self.wedges, &self.changed);
        self.mail
            .settle_pairs(ORDERS, &mut self.pairs, now, out, steps)?;
        self.whole = true;
        Ok(())
    }
}
