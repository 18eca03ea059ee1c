//! The farthest pair as its callers see it.

ghost use Rattle.std.specs.Prelude.{◌≡◌, ◌≤◌, ◌<◌, ◌^◌, ◌↔◌, [], None, Some, false, IfOk, IsTrue, OnOk, OnErr};
ghost use Rattle.kin_motion.specs.Farthest.{IsFarthest};
ghost use Rattle.kin_motion.specs.Kinetics.{ListsFailing, HasChanged};
ghost use Rattle.kin_motion.specs.Scene.{Scene, IsReal};
ghost use Rattle.kin_diameter.specs.Diameter.{IsDiameterAtRest, IsReadyDiameter, IsSettledKinDiameter, StaysDiameter, AreFewTests, facts_of, names_leaving};

use crate::seats::Seats;
use crate::sweep::Sweep;
use kin_motion::fact::{Delta, Placed};
use kin_motion::kinetic::Kinetic;
use kin_motion::signs::Signs;
use kin_num::memory::NoMemory;
use kin_num::steps::Steps;
use kin_pairs::Mail;
use std::alloc::Global;
use std::marker::Model;
use std::sync::ledger::Ledger;

/// The slopes of the sweep have part 0, and the nodes of the tournament those after.
const SLOPES: u32 = 1;

/// The farthest pair of moving points: the best of the pairs of points that are current in a cell of the
/// sweep of both chains of their hull. It is given the chains before each `settle` where one has changed.
///
/// A slope has part 0, and node v of the tournament has part 1 + v.
#[derive(Drop)]
pub struct KinDiameter {
    size: u32,
    /// Both chains from left to right, as they were given last.
    upper: Vec<u32>,
    lower: Vec<u32>,
    sweep: Sweep,
    seats: Seats,
    mail: Mail,
    /// The number that leaves. No fact that names it is asked.
    leaving: Option<u32>,
    /// Whether no call that takes memory is under way and none has run out of it.
    whole: bool,
}

impl Model for KinDiameter {
    ghost use Rattle.std.specs.Prelude.{IsTrue};
    ghost use Rattle.kin_diameter.specs.Diameter.{Diameter, IsSound};

    ghost Value = { Diameter };

    ghost view = { λ k. record {
      size = k.size;
      upper = k.upper.items;
      lower = k.lower.items;
      breakpoints = k.sweep.breakpoints;
      slopes = k.sweep.facts;
      cells = k.seats.tourney;
      leaving = k.leaving;
      whole = k.whole;
    } };

    ghost invariant = { λ k. IsTrue k.whole → IsSound k.size k.sweep.facts k.seats.tourney k.seats.cells.items k.seats.places.items };
}

impl KinDiameter {
    /// No points and no chains, with room for the numbers below `2^size`.
    pub fn new(alloc: Global, size: u32) -> Result<KinDiameter, NoMemory>
        requires low { 1 ≤ size }
        requires high { size ≤ 12 }
        ensures size { IfOk result (λ k. k.size ≡ size) }
        ensures rest { IfOk result IsDiameterAtRest }
        ensures upper { IfOk result (λ k. k.upper ≡ []) }
        ensures lower { IfOk result (λ k. k.lower ≡ []) }
        ensures facts { IfOk result (λ k. facts_of k ≡ []) }
        ensures settled { IfOk result (λ k. (s : Scene) → s.live ≡ [] → IsSettledKinDiameter k s) }
    {
        Ok(KinDiameter {
            size,
            upper: Vec::new(alloc),
            lower: Vec::new(alloc),
            sweep: Sweep::new(alloc),
            seats: Seats::new(alloc, size + 1)?,
            mail: Mail::new(alloc),
            leaving: None,
            whole: true,
        })
    }

    /// Whether these are the chains that it was given last. Compares them number by number.
    pub fn has_chains(&self, upper: &[u32], lower: &[u32]) -> bool
        ensures { IsTrue result ↔ ((self.now.upper ≡ upper.now) × (self.now.lower ≡ lower.now)) }
    {
        self.upper.as_slice() == upper && self.lower.as_slice() == lower
    }

    /// Gives it both chains of the hull, each from left to right. It may settle in scenes of which they are
    /// the chains. A number may be marked as leaving before or after. After want of memory the structure may
    /// not be used again.
    pub fn chains(&mut self, upper: &[u32], lower: &[u32]) -> Result<(), NoMemory>
        requires whole { IsTrue self.old.whole }
        ensures ok { OnOk result (self.new ≡ record self.old { upper = upper.now; lower = lower.now }) }
        ensures err { OnErr result (self.new.whole ≡ false) }
    {
        self.whole = false;
        self.upper.clear();
        self.upper.extend_from_slice(upper)?;
        self.lower.clear();
        self.lower.extend_from_slice(lower)?;
        self.whole = true;
        Ok(())
    }

    /// Marks a number as leaving: until the next `settle` no fact that names it is asked. No mark waits.
    pub fn remove(&mut self, no: u32)
        requires rest { IsDiameterAtRest self.old }
        ensures { self.new ≡ record self.old { leaving = Some no } }
    {
        self.leaving = Some(no);
    }

    /// The farthest pair as it was settled last, the lesser number first, or `None` where all points are at
    /// one place or there is none. Of equally far pairs it is the one with the least first number, then with
    /// the least second one.
    pub fn farthest(&self) -> Option<(u32, u32)>
        requires rest { IsDiameterAtRest self.now }
        ensures { (s : Scene) → IsSettledKinDiameter self.now s → IsFarthest s result }
    {
        let best = self.seats.tourney.winner(1)?;
        let (i, j) = best.points();
        if i < j { Some((i, j)) } else { None }
    }
}

impl Kinetic for KinDiameter {
    ghost use Rattle.kin_diameter.specs.Diameter.{IsDiameterAtRest, IsReadyDiameter, IsSettledKinDiameter, IsGrounded, facts_of, names_leaving};
    ghost use Rattle.kin_diameter.specs.DiameterLaws.{determined_lem};

    ghost facts = { facts_of };

    ghost is_spared = { λ k p. names_leaving k.leaving p };

    ghost ready = { IsReadyDiameter };

    ghost at_rest = { IsDiameterAtRest };

    ghost settled = { IsSettledKinDiameter };

    ghost grounded = { IsGrounded };

    ghost determined = { determined_lem };

    /// Merges the breakpoints of the chains that were given last, gives the slots the pairs of the cells, and
    /// repairs their tournament where a slot has another pair or a fact has failed.
    fn settle<O: Signs, L: Ledger>(
        &mut self,
        now: &O,
        failed: &[Placed],
        out: &mut Delta,
        steps: &mut Steps<L>,
    ) -> Result<(), NoMemory>
        requires real { IsReal (O.scene now.now) }
        requires ready { IsReadyDiameter self.old (O.scene now.now) }
        requires failing { ListsFailing (facts_of self.old) (names_leaving self.old.leaving) (O.scene now.now) failed.now }
        ensures rest { OnOk result (IsDiameterAtRest self.new) }
        ensures settled { OnOk result (IsSettledKinDiameter self.new (O.scene now.now)) }
        ensures delta { OnOk result (HasChanged (facts_of self.old) (facts_of self.new) out.old out.new) }
        ensures broken { OnErr result (self.new.whole ≡ false) }
        ensures tests { OnOk result (AreFewTests self.old self.new failed.now steps.old steps.new) }
        ensures same { OnOk result (StaysDiameter self.old self.new) }
    {
        self.whole = false;
        self.mail.sort(SLOPES, failed)?;
        self.sweep.renew(now, &self.upper, &self.lower, out, steps)?;
        self.seats
            .fill(&self.upper, &self.lower, self.sweep.breakpoints())?;
        self.mail
            .settle_pairs(SLOPES, &mut self.seats.tourney, now, out, steps)?;
        self.leaving = None;
        self.whole = true;
        Ok(())
    }
}
