//! Structures that a world keeps, over all live numbers.

ghost use Rattle.std.specs.Prelude.{◌≡◌, ◌≤◌, ◌<◌, ◌^◌, ℕ, List, [], true, false, Contains, IfOk, OnOk};
ghost use Rattle.kin_motion.specs.declared.fact.Placed.{Placed as Put};
ghost use Rattle.kin_motion.specs.declared.keep.Keep.{Keep as Kind};
ghost use Rattle.kin_motion.specs.Deltas.{Change};
ghost use Rattle.kin_motion.specs.Forms.{names};
ghost use Rattle.kin_motion.specs.Kinetics.{AllHold, ListsFailing, HasChanged};
ghost use Rattle.kin_motion.specs.Live.{IsKeepFact, IsSmallKeep};
ghost use Rattle.kin_motion.specs.Numbers.{is_in, HasEntered};
ghost use Rattle.kin_motion.specs.Scene.{Scene, IsReal, Holds};
ghost use Rattle.kin_motion.specs.Sets.{ListsExactly};
ghost use Rattle.kin_motion.specs.Spending.{AreInStep, HasRisenWithin, MayAsk};

use crate::fact::{Delta, Placed};
use crate::keep::Keep;
use crate::signs::Signs;
use crate::steady::Steady;
use kin_num::memory::NoMemory;
use kin_num::steps::Steps;
use std::alloc::Global;
use std::sync::ledger::Ledger;

/// A kinetic structure of a keep over numbers below `2^size`, which enter and leave one at a time.
pub trait Kept: Steady {
    /// It is the structure of this keep, for the numbers below `2^size`.
    ghost is_for: { Self → ℕ → Kind → Type 0 };

    /// The keep is of this kind of structure.
    ghost serves: { Kind → Type 0 };

    /// These numbers are its members once the mark, if it has one, is carried out.
    ghost has_members: { Self → List ℕ → Type 0 };

    /// It was settled in this scene. Since then these have become the live numbers, and it was marked
    /// accordingly.
    ghost follows: { Self → Scene → List ℕ → Type 0 };

    /// The structure of a keep, without members and without facts.
    fn vacant(alloc: Global, keep: &Keep, size: u32) -> Result<Self, NoMemory>
        requires low { 1 ≤ size }
        requires high { size ≤ 12 }
        requires small { IsSmallKeep keep.now }
        requires serves { serves keep.now }
        ensures kind { IfOk result (λ k. is_for k size keep.now) }
        ensures rest { IfOk result (λ k. Self.at_rest k) }
        ensures members { IfOk result (λ k. has_members k []) }
        ensures settled { IfOk result (λ k. (s : Scene) → s.live ≡ [] → Self.settled k s) }
        ensures facts { IfOk result (λ k. Self.facts k ≡ []) };

    /// Marks a number as entering. It is no member, and no mark waits. After want of memory the
    /// structure may not be used again.
    fn mark_entering(&mut self, no: u32) -> Result<(), NoMemory>
        requires rest { Self.at_rest self.old }
        requires room { (size : ℕ) × (keep : Kind) × is_for self.old size keep × (no < 2 ^ size) }
        requires new { (members : List ℕ) × has_members self.old members × (is_in no members ≡ false) }
        ensures kind { OnOk result ((size : ℕ) (keep : Kind) → is_for self.old size keep → is_for self.new size keep) }
        ensures members { OnOk result ((before after : List ℕ) → has_members self.old before → HasEntered no before after → has_members self.new after) }
        ensures follows { OnOk result ((s : Scene) (after : List ℕ) → has_members self.old s.live → Self.settled self.old s → HasEntered no s.live after → follows self.new s after) }
        ensures facts { OnOk result (Self.facts self.new ≡ Self.facts self.old) };

    /// Marks a member as leaving. No mark waits. From then on a fact that isn't spared doesn't name it.
    fn mark_leaving(&mut self, no: u32)
        requires rest { Self.at_rest self.old }
        requires room { (size : ℕ) × (keep : Kind) × is_for self.old size keep × (no < 2 ^ size) }
        requires member { (s : Scene) × has_members self.old s.live × Self.settled self.old s × (is_in no s.live ≡ true) }
        ensures kind { (size : ℕ) (keep : Kind) → is_for self.old size keep → is_for self.new size keep }
        ensures members { (before after : List ℕ) → has_members self.old before → HasEntered no after before → has_members self.new after }
        ensures follows { (s : Scene) (after : List ℕ) → has_members self.old s.live → Self.settled self.old s → HasEntered no after s.live → follows self.new s after }
        ensures facts { Self.facts self.new ≡ Self.facts self.old }
        ensures spares { (p : Put) → Contains (Self.facts self.old) p → Self.is_spared self.new p ≡ false → names p.fact.form no ≡ false };

    /// Over the live numbers it may settle.
    ghost ready_over: { (k : Self) (s : Scene) → has_members k s.live → Self.ready k s };

    /// At rest it spares no fact.
    ghost spares_none: { (k : Self) (p : Put) → Self.at_rest k → Self.is_spared k p ≡ false };

    /// A settle leaves the keep as it is.
    ghost kind_stays: { (old new : Self) (size : ℕ) (keep : Kind) → Self.stays old new → is_for old size keep → is_for new size keep };

    /// After a settle over the live numbers they are its members.
    ghost members_stay: { (old new : Self) (s : Scene) → has_members old s.live → Self.stays old new → Self.at_rest new → Self.settled new s → has_members new s.live };

    /// Settled over the live numbers, it has the facts of its keep.
    ghost exact: { (k : Self) (size : ℕ) (keep : Kind) (s : Scene) → is_for k size keep → has_members k s.live → Self.settled k s → ListsExactly (Self.facts k) (IsKeepFact size s keep) };

    /// At rest it follows the scene in which it was settled.
    ghost follows_scene: { (k : Self) (s : Scene) (live : List ℕ) → Self.at_rest k → has_members k s.live → Self.settled k s → s.live ≡ live → follows k s live };

    /// Let it follow one scene, and settle in another one that the bound allows (`AreInStep`). Then it
    /// spends no more than its keep may between the two.
    ghost frugal: { (old new : Self) (size : ℕ) (keep : Kind) (v w : Scene) (failed : List Put) (out out' : Change) (before after : ℕ) → is_for old size keep → is_for new size keep → AreInStep size keep v w → follows old v w.live → has_members new w.live → Self.settled new w → ListsFailing (Self.facts old) (Self.is_spared old) w failed → HasChanged (Self.facts old) (Self.facts new) out out' → Self.spends old new failed out out' before after → HasRisenWithin (MayAsk size keep v w) before after };

    /// The determination law requires nothing of a scene but the facts.
    ghost stands_alone: { (k : Self) (s : Scene) → Self.grounded k s };
}

/// Repairs everything that has failed at one moment together. No mark waits, and the members are the
/// live numbers. `failed` lists exactly the facts that don't hold now. `out` gains what changed. From
/// each scene in which it was settled it asks no more than its keep may (`within`). After want of memory
/// the structure may not be used again.
pub fn repair<K: Kept, O: Signs, L: Ledger>(
    kept: &mut K,
    now: &O,
    failed: &[Placed],
    out: &mut Delta,
    steps: &mut Steps<L>,
) -> Result<(), NoMemory>
    requires real { IsReal (O.scene now.now) }
    requires rest { K.at_rest kept.old }
    requires members { K.has_members kept.old (O.scene now.now).live }
    requires failing { ListsExactly failed.now (λ p. Contains (K.facts kept.old) p × ¬ (Holds (O.scene now.now) p.fact)) }
    ensures kind { OnOk result ((size : ℕ) (keep : Kind) → K.is_for kept.old size keep → K.is_for kept.new size keep) }
    ensures rest { OnOk result (K.at_rest kept.new) }
    ensures members { OnOk result (K.has_members kept.new (O.scene now.now).live) }
    ensures settled { OnOk result (K.settled kept.new (O.scene now.now)) }
    ensures delta { OnOk result (HasChanged (K.facts kept.old) (K.facts kept.new) out.old out.new) }
    ensures within { OnOk result ((size : ℕ) (keep : Kind) (v : Scene) → K.is_for kept.old size keep → AreInStep size keep v (O.scene now.now) → K.settled kept.old v → v.live ≡ (O.scene now.now).live → HasRisenWithin (MayAsk size keep v (O.scene now.now)) steps.old steps.new) }
{
    kept.settle_steadily(now, failed, out, steps)
}

/// Takes in a number that has become live. No mark waits, the members were the other live numbers,
/// and no fact has failed. `out` gains what changed. From
/// each scene in which it was settled it asks no more than its keep may (`within`). After want of memory
/// the structure may not be used again.
pub fn enter<K: Kept, O: Signs, L: Ledger>(
    kept: &mut K,
    entering: u32,
    now: &O,
    out: &mut Delta,
    steps: &mut Steps<L>,
) -> Result<(), NoMemory>
    requires real { IsReal (O.scene now.now) }
    requires rest { K.at_rest kept.old }
    requires room { (size : ℕ) × (keep : Kind) × K.is_for kept.old size keep × (entering < 2 ^ size) }
    requires entered { (before : List ℕ) × K.has_members kept.old before × HasEntered entering before (O.scene now.now).live }
    requires hold { AllHold (O.scene now.now) (K.facts kept.old) }
    ensures kind { OnOk result ((size : ℕ) (keep : Kind) → K.is_for kept.old size keep → K.is_for kept.new size keep) }
    ensures rest { OnOk result (K.at_rest kept.new) }
    ensures members { OnOk result (K.has_members kept.new (O.scene now.now).live) }
    ensures settled { OnOk result (K.settled kept.new (O.scene now.now)) }
    ensures delta { OnOk result (HasChanged (K.facts kept.old) (K.facts kept.new) out.old out.new) }
    ensures within { OnOk result ((size : ℕ) (keep : Kind) (v : Scene) → K.is_for kept.old size keep → AreInStep size keep v (O.scene now.now) → K.settled kept.old v → K.has_members kept.old v.live → HasEntered entering v.live (O.scene now.now).live → HasRisenWithin (MayAsk size keep v (O.scene now.now)) steps.old steps.new) }
{
    kept.mark_entering(entering)?;
    kept.settle_steadily(now, &[], out, steps)
}

/// Lets go of a number that isn't live any more. No mark waits, the structure was settled over the live
/// numbers and this one, and no fact has failed that doesn't name it. `out` gains what changed. From
/// each scene in which it was settled it asks no more than its keep may (`within`). After want of memory
/// the structure may not be used again.
pub fn leave<K: Kept, O: Signs, L: Ledger>(
    kept: &mut K,
    leaving: u32,
    now: &O,
    out: &mut Delta,
    steps: &mut Steps<L>,
) -> Result<(), NoMemory>
    requires real { IsReal (O.scene now.now) }
    requires rest { K.at_rest kept.old }
    requires room { (size : ℕ) × (keep : Kind) × K.is_for kept.old size keep × (leaving < 2 ^ size) }
    requires left { (before : Scene) × K.has_members kept.old before.live × K.settled kept.old before × HasEntered leaving (O.scene now.now).live before.live }
    requires hold { (p : Put) → Contains (K.facts kept.old) p → names p.fact.form leaving ≡ false → Holds (O.scene now.now) p.fact }
    ensures kind { OnOk result ((size : ℕ) (keep : Kind) → K.is_for kept.old size keep → K.is_for kept.new size keep) }
    ensures rest { OnOk result (K.at_rest kept.new) }
    ensures members { OnOk result (K.has_members kept.new (O.scene now.now).live) }
    ensures settled { OnOk result (K.settled kept.new (O.scene now.now)) }
    ensures delta { OnOk result (HasChanged (K.facts kept.old) (K.facts kept.new) out.old out.new) }
    ensures within { OnOk result ((size : ℕ) (keep : Kind) (v : Scene) → K.is_for kept.old size keep → AreInStep size keep v (O.scene now.now) → K.settled kept.old v → K.has_members kept.old v.live → HasEntered leaving (O.scene now.now).live v.live → HasRisenWithin (MayAsk size keep v (O.scene now.now)) steps.old steps.new) }
{
    kept.mark_leaving(leaving);
    kept.settle_steadily(now, &[], out, steps)
}
