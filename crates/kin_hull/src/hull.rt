//! The kinetic convex hull.

ghost use Rattle.std.specs.Prelude.{◌≡◌, ◌≤◌, ◌<◌, ◌^◌, ◌+◌, ◌*◌, ℕ, List, [], length, true, false, slice_set, IsTrue, IsOk, IfOk, OnOk, OnErr};
ghost use Rattle.kin_motion.specs.declared.fact.Placed.{Placed as Put};
ghost use Rattle.kin_motion.specs.Chains.{IsHullCycle, IsLowerChain, IsUpperChain};
ghost use Rattle.kin_motion.specs.Forms.{names};
ghost use Rattle.kin_motion.specs.Kinetics.{ListsFailing, HasChanged};
ghost use Rattle.kin_motion.specs.Numbers.{HasEntered};
ghost use Rattle.kin_motion.specs.Scene.{Scene, IsReal};
ghost use Rattle.kin_env.specs.Trees.{names_leaving, top_of};
ghost use Rattle.kin_env.specs.Walks.{slot_in};
ghost use Rattle.kin_hull.specs.Hulls.{HullsKeepOrder, IsHullAtRest, IsReadyHull, IsSettledKinHull, HasMembers, facts_of};

use crate::around::go_round;
use crate::mail::Mail;
use crate::side::Side;
use kin_env::EnvTree;
use kin_motion::fact::{Delta, Placed};
use kin_motion::kinetic::Kinetic;
use kin_motion::mirror::Mirror;
use kin_motion::signs::Signs;
use kin_num::memory::NoMemory;
use kin_num::steps::Steps;
use std::alloc::Global;
use std::marker::Model;
use std::sync::ledger::Ledger;

/// The convex hull of moving points: a tree of upper chains, and one for the points reflected in the
/// x axis.
///
/// Node v of the upper tree has part 2v, and node v of the lower tree part 2v + 1.
#[derive(Drop)]
pub struct KinHull {
    alloc: Global,
    upper: EnvTree,
    lower: EnvTree,
    mail: Mail,
    /// False from the start of a `settle` to its Ok end.
    whole: bool,
}

impl Model for KinHull {
    ghost use Rattle.std.specs.Prelude.{IsTrue};
    ghost use Rattle.kin_hull.specs.Hulls.{Hull, ArePaired};

    ghost Value = { Hull };

    ghost view = { λ k. record { upper = k.upper; lower = k.lower; whole = k.whole } };

    ghost invariant = { λ k. IsTrue k.whole → ArePaired k.upper k.lower };
}

impl KinHull {
    /// No points, with room for the numbers below `2^size`. The size is from 1 to 12.
    pub fn new(alloc: Global, size: u32) -> Result<KinHull, NoMemory>
        requires low { 1 ≤ size }
        requires high { size ≤ 12 }
        ensures size { IfOk result (λ k. k.upper.size ≡ size) }
        ensures rest { IfOk result IsHullAtRest }
        ensures members { IfOk result (λ k. HasMembers k []) }
        ensures facts { IfOk result (λ k. facts_of k ≡ []) }
        ensures settled { IfOk result (λ k. (s : Scene) → s.live ≡ [] → IsSettledKinHull k s) }
    {
        Ok(KinHull {
            alloc,
            upper: EnvTree::new(alloc, size)?,
            lower: EnvTree::new(alloc, size)?,
            mail: Mail::new(alloc),
            whole: true,
        })
    }

    /// Marks a number as entering: it is below `2^size` and isn't a member, and no other mark waits.
    /// Both trees take it in at the next `settle`. The answer is always `Ok`.
    pub fn insert(&mut self, no: u32) -> Result<(), NoMemory>
        requires rest { IsHullAtRest self.old }
        requires within { no < 2 ^ self.old.upper.size }
        requires new { slot_in self.old.upper.slots no ≡ false }
        ensures ok { IsOk result }
        ensures members { OnOk result ((before after : List ℕ) → HasMembers self.old before → HasEntered no before after → HasMembers self.new after) }
        ensures marked { OnOk result (self.new ≡ record self.old { upper = record self.old.upper { slots = slice_set self.old.upper.slots no true }; lower = record self.old.lower { slots = slice_set self.old.lower.slots no true } }) }
    {
        self.upper.set(no);
        self.lower.set(no);
        Ok(())
    }

    /// Marks a member as leaving, where no other mark waits. Both trees let it go at the next
    /// `settle`.
    pub fn remove(&mut self, no: u32)
        requires rest { IsHullAtRest self.old }
        requires within { no < 2 ^ self.old.upper.size }
        requires member { slot_in self.old.upper.slots no ≡ true }
        ensures members { (before after : List ℕ) → HasMembers self.old before → HasEntered no after before → HasMembers self.new after }
        ensures spares { (p : Put) → names_leaving self.new.upper p ≡ false → names p.fact.form no ≡ false }
        ensures marked { self.new ≡ record self.old { upper = record self.old.upper { slots = slice_set self.old.upper.slots no false }; lower = record self.old.lower { slots = slice_set self.old.lower.slots no false } } }
    {
        self.upper.clear(no);
        self.lower.clear(no);
    }

    /// The upper chain from left to right, where the hull is settled. It takes no memory.
    pub fn upper(&self) -> &[u32]
        requires rest { IsHullAtRest self.now }
        ensures told { result.now ≡ top_of self.now.upper }
        ensures chain { (s : Scene) → IsSettledKinHull self.now s → IsUpperChain s s.live result.now }
    {
        self.upper.top()
    }

    /// The lower chain from left to right, where the hull is settled. It takes no memory.
    pub fn lower(&self) -> &[u32]
        requires rest { IsHullAtRest self.now }
        ensures told { result.now ≡ top_of self.now.lower }
        ensures chain { (s : Scene) → IsSettledKinHull self.now s → IsLowerChain s s.live result.now }
    {
        self.lower.top()
    }

    /// The hull cycle, where the hull is settled: the lower chain from left to right, then the upper
    /// one from right to left without what is listed already. So it begins at the lowest of the
    /// leftmost points (law `cycles_begin_leftmost`). It is given no signs.
    pub fn cycle(&self) -> Result<Vec<u32>, NoMemory>
        requires rest { IsHullAtRest self.now }
        ensures { IfOk result (λ cycle. (s : Scene) → IsSettledKinHull self.now s → IsHullCycle s cycle.items) }
    {
        go_round(self.alloc, self.lower.top(), self.upper.top())
    }
}

impl Kinetic for KinHull {
    ghost use Rattle.kin_env.specs.Trees.{names_leaving};
    ghost use Rattle.kin_hull.specs.Hulls.{IsHullAtRest, IsReadyHull, IsSettledKinHull, facts_of};
    ghost use Rattle.kin_hull.specs.HullLaws.{determined_lem};

    ghost facts = { facts_of };

    ghost is_spared = { λ k p. names_leaving k.upper p };

    ghost ready = { IsReadyHull };

    ghost at_rest = { IsHullAtRest };

    ghost settled = { IsSettledKinHull };

    ghost grounded = { λ k w. Unit {0} };

    ghost determined = { determined_lem };

    /// Settles the upper tree and then the lower one, each by its own failed facts. `failed` lists
    /// exactly the facts that don't hold and name no number that leaves. After want of memory the
    /// hull can only be dropped.
    fn settle<O: Signs, L: Ledger>(
        &mut self,
        now: &O,
        failed: &[Placed],
        out: &mut Delta,
        steps: &mut Steps<L>,
    ) -> Result<(), NoMemory>
        requires real { IsReal (O.scene now.now) }
        requires ready { IsReadyHull self.old (O.scene now.now) }
        requires failing { ListsFailing (facts_of self.old) (names_leaving self.old.upper) (O.scene now.now) failed.now }
        ensures rest { OnOk result (IsHullAtRest self.new) }
        ensures settled { OnOk result (IsSettledKinHull self.new (O.scene now.now)) }
        ensures delta { OnOk result (HasChanged (facts_of self.old) (facts_of self.new) out.old out.new) }
        // At most five signs for each fact born and one for each dropped, where the chains keep their order.
        ensures tests { OnOk result (HullsKeepOrder self.old self.new → steps.new + (5 * length out.old.born + length out.old.dropped) ≤ steps.old + (5 * length out.new.born + length out.new.dropped)) }
        ensures broken { OnErr result (self.new.whole ≡ false) }
        ensures size { OnOk result (self.new.upper.size ≡ self.old.upper.size) }
        ensures slots { OnOk result (self.new.upper.slots ≡ self.old.upper.slots) }
    {
        self.whole = false;
        self.mail.sort(failed)?;
        self.mail
            .settle(Side::Upper, &mut self.upper, now, out, steps)?;
        let mirror = Mirror { inner: now };
        self.mail
            .settle(Side::Lower, &mut self.lower, &mirror, out, steps)?;
        self.whole = true;
        Ok(())
    }
}
