//! The structures that a world keeps.
//!
//! Only this module gives a structure its failed facts and the number that enters or leaves. What
//! holds of every kind is in `specs/Structures`.

ghost use Rattle.std.specs.Prelude.{◌≡◌, ◌≤◌, ◌<◌, ◌^◌, ℕ, ℤ, List, [], Contains, IfOk, OnOk};
ghost use Rattle.kin_motion.specs.declared.keep.Keep.{Keep as Kind};
ghost use Rattle.kin_motion.specs.declared.keep.Keep.TheVariants.{Order as KeepOrder, Extreme as KeepExtreme, Hull as KeepHull, Closest as KeepClosest, Range as KeepRange, Nearest as KeepNearest, Diameter as KeepDiameter, Boxes as KeepBoxes};
ghost use Rattle.kin_motion.specs.Boxes.{IsRectInRange, points_in};
ghost use Rattle.kin_motion.specs.Chains.{IsHullCycle};
ghost use Rattle.kin_motion.specs.ClosestPairs.{IsClosest};
ghost use Rattle.kin_motion.specs.Extremes.{IsExtremePoint};
ghost use Rattle.kin_motion.specs.Farthest.{IsFarthest};
ghost use Rattle.kin_motion.specs.Nearest.{IsNearest};
ghost use Rattle.kin_motion.specs.Orders.{IsOrder};
ghost use Rattle.kin_motion.specs.Overlaps.{ListsOverlaps};
ghost use Rattle.kin_motion.specs.Kinetics.{AllHold, HasChanged, HaveSameLive};
ghost use Rattle.kin_motion.specs.Live.{IsSmallKeep};
ghost use Rattle.kin_motion.specs.Numbers.{HasEntered, IsIn};
ghost use Rattle.kin_motion.specs.Sets.{ListsExactly};
ghost use Rattle.kin_motion.specs.Scene.{Scene, IsReal, scene_at};
ghost use Rattle.kin_motion.specs.Spending.{AreInStep, HasRisenWithin, MayAsk};
ghost use Rattle.kin_world.specs.Kinds.{placed_facts, IsFor, IsAtRest, HasMembers, IsSettledIn};
ghost use Rattle.kin_world.specs.Structures.{AreFailing, AreLiveAfter, HasNeeds, HoldBut, HoldFor, IsKept, marked};

use crate::counter::{Work, uncounted};
use crate::farthest::{follow_hull, repair_pair};
use kin_boxes::KinBoxes;
use kin_closest::KinClosest;
use kin_diameter::KinDiameter;
use kin_fail::Now;
use kin_hull::KinHull;
use kin_list::KinList;
use kin_motion::kept::{Kept, enter, leave, repair};
use kin_motion::{Delta, Keep, Motions, Placed, Rect, Signs};
use kin_nearest::KinNearest;
use kin_num::{Moment, NoMemory, Steps};
use kin_range::KinRange;
use kin_tourney::{Along, Tourney};
use std::alloc::Global;
use std::sync::ledger::Ledger;

/// A structure of one of the kinds.
#[derive(Drop)]
pub enum Structure {
    Order(KinList),
    Extreme(Tourney<Along>),
    Hull(KinHull),
    Closest(KinClosest),
    Range(KinRange),
    Nearest(KinNearest),
    Diameter(KinDiameter),
    Boxes(KinBoxes),
}

/// A number that has become live, or that isn't live any more.
#[derive(Clone, Copy)]
pub enum Mark {
    Enters(u32),
    Leaves(u32),
}

impl Structure {
    /// The structure of a keep for the numbers below `2^size`, without members. Takes room for all
    /// of them.
    pub fn new(alloc: Global, keep: &Keep, size: u32) -> Result<Structure, NoMemory>
        requires low { 1 ≤ size }
        requires high { size ≤ 12 }
        requires small { IsSmallKeep keep.now }
        ensures kind { IfOk result (λ st. IsFor size keep.now st) }
        ensures rest { IfOk result IsAtRest }
        ensures members { IfOk result (HasMembers []) }
        ensures settled { IfOk result (λ st. (s : Scene) → s.live ≡ [] → IsSettledIn s st) }
        ensures facts { IfOk result (λ st. placed_facts st ≡ []) }
    {
        match *keep {
            Keep::Order { .. } => Ok(Structure::Order(KinList::vacant(alloc, keep, size)?)),
            Keep::Extreme { .. } => Ok(Structure::Extreme(Tourney::vacant(alloc, keep, size)?)),
            Keep::Hull => Ok(Structure::Hull(KinHull::vacant(alloc, keep, size)?)),
            Keep::Closest => Ok(Structure::Closest(KinClosest::vacant(alloc, keep, size)?)),
            Keep::Range => Ok(Structure::Range(KinRange::vacant(alloc, keep, size)?)),
            Keep::Nearest => Ok(Structure::Nearest(KinNearest::vacant(alloc, keep, size)?)),
            Keep::Diameter => Ok(Structure::Diameter(KinDiameter::new(alloc, size)?)),
            Keep::Boxes { .. } => Ok(Structure::Boxes(KinBoxes::vacant(alloc, keep, size)?)),
        }
    }

    /// Repairs everything that has failed at one moment together. `failed` lists exactly the facts
    /// that don't hold now, and the structures before it are repaired. `out` gains what changed.
    pub fn settle<O: Signs, L: Ledger>(
        &mut self,
        before: &[Structure],
        now: &O,
        failed: &[Placed],
        out: &mut Delta,
        steps: &mut Steps<L>,
    ) -> Result<(), NoMemory>
        requires real { IsReal (O.scene now.now) }
        requires rest { IsAtRest self.old }
        requires members { HasMembers (O.scene now.now).live self.old }
        requires was { (v : Scene) × IsReal v × IsSettledIn v self.old × HaveSameLive v (O.scene now.now) }
        requires needs { HasNeeds (O.scene now.now) before.now self.old }
        requires failing { AreFailing (placed_facts self.old) (O.scene now.now) failed.now }
        ensures kind { OnOk result ((size : ℕ) (keep : Kind) → IsFor size keep self.old → IsFor size keep self.new) }
        ensures rest { OnOk result (IsAtRest self.new) }
        ensures members { OnOk result (HasMembers (O.scene now.now).live self.new) }
        ensures settled { OnOk result (IsSettledIn (O.scene now.now) self.new) }
        ensures delta { OnOk result (HasChanged (placed_facts self.old) (placed_facts self.new) out.old out.new) }
        ensures within { OnOk result ((size : ℕ) (keep : Kind) (v : Scene) → IsFor size keep self.old → AreInStep size keep v (O.scene now.now) → IsSettledIn v self.old → v.live ≡ (O.scene now.now).live → HasRisenWithin (MayAsk size keep v (O.scene now.now)) steps.old steps.new) }
    {
        match self {
            Structure::Order(list) => repair_all(list, now, failed, out, steps),
            Structure::Extreme(points) => repair_all(points, now, failed, out, steps),
            Structure::Hull(hull) => repair_all(hull, now, failed, out, steps),
            Structure::Closest(pairs) => repair_all(pairs, now, failed, out, steps),
            Structure::Range(lists) => repair_all(lists, now, failed, out, steps),
            Structure::Nearest(wedges) => repair_all(wedges, now, failed, out, steps),
            Structure::Diameter(pair) => repair_pair(pair, before, now, failed, out, steps),
            Structure::Boxes(boxes) => repair_all(boxes, now, failed, out, steps),
        }
    }

    /// Takes in a number that has become live, or lets go of one that isn't live any more. No fact
    /// has failed, but for those that name a number that leaves, and the structures before it have
    /// carried the mark out. `out` gains what changed.
    pub fn carry_out<O: Signs, L: Ledger>(
        &mut self,
        mark: Mark,
        before: &[Structure],
        now: &O,
        out: &mut Delta,
        steps: &mut Steps<L>,
    ) -> Result<(), NoMemory>
        requires real { IsReal (O.scene now.now) }
        requires rest { IsAtRest self.old }
        requires room { (size : ℕ) × (keep : Kind) × IsFor size keep self.old × (marked mark < 2 ^ size) }
        requires marked { (v : Scene) × HasMembers v.live self.old × IsSettledIn v self.old × AreLiveAfter mark v.live (O.scene now.now).live }
        requires needs { HasNeeds (O.scene now.now) before.now self.old }
        requires hold { HoldFor mark (placed_facts self.old) (O.scene now.now) }
        ensures kind { OnOk result ((size : ℕ) (keep : Kind) → IsFor size keep self.old → IsFor size keep self.new) }
        ensures rest { OnOk result (IsAtRest self.new) }
        ensures members { OnOk result (HasMembers (O.scene now.now).live self.new) }
        ensures settled { OnOk result (IsSettledIn (O.scene now.now) self.new) }
        ensures delta { OnOk result (HasChanged (placed_facts self.old) (placed_facts self.new) out.old out.new) }
        ensures within { OnOk result ((size : ℕ) (keep : Kind) (v : Scene) → IsFor size keep self.old → AreInStep size keep v (O.scene now.now) → IsSettledIn v self.old → HasMembers v.live self.old → AreLiveAfter mark v.live (O.scene now.now).live → HasRisenWithin (MayAsk size keep v (O.scene now.now)) steps.old steps.new) }
    {
        match mark {
            Mark::Enters(no) => self.enter(no, before, now, out, steps),
            Mark::Leaves(no) => self.leave(no, before, now, out, steps),
        }
    }

    // Takes in a number that has become live. No fact has failed.
    fn enter<O: Signs, L: Ledger>(
        &mut self,
        entering: u32,
        before: &[Structure],
        now: &O,
        out: &mut Delta,
        steps: &mut Steps<L>,
    ) -> Result<(), NoMemory>
        requires real { IsReal (O.scene now.now) }
        requires rest { IsAtRest self.old }
        requires room { (size : ℕ) × (keep : Kind) × IsFor size keep self.old × (entering < 2 ^ size) }
        requires entered { (v : Scene) × HasMembers v.live self.old × IsSettledIn v self.old × HasEntered entering v.live (O.scene now.now).live }
        requires needs { HasNeeds (O.scene now.now) before.now self.old }
        requires hold { AllHold (O.scene now.now) (placed_facts self.old) }
        ensures kind { OnOk result ((size : ℕ) (keep : Kind) → IsFor size keep self.old → IsFor size keep self.new) }
        ensures rest { OnOk result (IsAtRest self.new) }
        ensures members { OnOk result (HasMembers (O.scene now.now).live self.new) }
        ensures settled { OnOk result (IsSettledIn (O.scene now.now) self.new) }
        ensures delta { OnOk result (HasChanged (placed_facts self.old) (placed_facts self.new) out.old out.new) }
        ensures within { OnOk result ((size : ℕ) (keep : Kind) (v : Scene) → IsFor size keep self.old → AreInStep size keep v (O.scene now.now) → IsSettledIn v self.old → HasMembers v.live self.old → HasEntered entering v.live (O.scene now.now).live → HasRisenWithin (MayAsk size keep v (O.scene now.now)) steps.old steps.new) }
    {
        match self {
            Structure::Order(list) => enter(list, entering, now, out, steps),
            Structure::Extreme(points) => enter(points, entering, now, out, steps),
            Structure::Hull(hull) => enter(hull, entering, now, out, steps),
            Structure::Closest(pairs) => enter(pairs, entering, now, out, steps),
            Structure::Range(lists) => enter(lists, entering, now, out, steps),
            Structure::Nearest(wedges) => enter(wedges, entering, now, out, steps),
            Structure::Diameter(pair) => {
                follow_hull(pair, before, Mark::Enters(entering), now, out, steps)
            }
            Structure::Boxes(boxes) => enter(boxes, entering, now, out, steps),
        }
    }

    // Lets go of a number that isn't live any more. Each fact that doesn't name it holds.
    fn leave<O: Signs, L: Ledger>(
        &mut self,
        leaving: u32,
        before: &[Structure],
        now: &O,
        out: &mut Delta,
        steps: &mut Steps<L>,
    ) -> Result<(), NoMemory>
        requires real { IsReal (O.scene now.now) }
        requires rest { IsAtRest self.old }
        requires room { (size : ℕ) × (keep : Kind) × IsFor size keep self.old × (leaving < 2 ^ size) }
        requires left { (v : Scene) × HasMembers v.live self.old × IsSettledIn v self.old × HasEntered leaving (O.scene now.now).live v.live }
        requires needs { HasNeeds (O.scene now.now) before.now self.old }
        requires hold { HoldBut leaving (placed_facts self.old) (O.scene now.now) }
        ensures kind { OnOk result ((size : ℕ) (keep : Kind) → IsFor size keep self.old → IsFor size keep self.new) }
        ensures rest { OnOk result (IsAtRest self.new) }
        ensures members { OnOk result (HasMembers (O.scene now.now).live self.new) }
        ensures settled { OnOk result (IsSettledIn (O.scene now.now) self.new) }
        ensures delta { OnOk result (HasChanged (placed_facts self.old) (placed_facts self.new) out.old out.new) }
        ensures within { OnOk result ((size : ℕ) (keep : Kind) (v : Scene) → IsFor size keep self.old → AreInStep size keep v (O.scene now.now) → IsSettledIn v self.old → HasMembers v.live self.old → HasEntered leaving (O.scene now.now).live v.live → HasRisenWithin (MayAsk size keep v (O.scene now.now)) steps.old steps.new) }
    {
        match self {
            Structure::Order(list) => let_go(list, leaving, now, out, steps),
            Structure::Extreme(points) => let_go(points, leaving, now, out, steps),
            Structure::Hull(hull) => let_go(hull, leaving, now, out, steps),
            Structure::Closest(pairs) => let_go(pairs, leaving, now, out, steps),
            Structure::Range(lists) => let_go(lists, leaving, now, out, steps),
            Structure::Nearest(wedges) => let_go(wedges, leaving, now, out, steps),
            Structure::Diameter(pair) => {
                follow_hull(pair, before, Mark::Leaves(leaving), now, out, steps)
            }
            Structure::Boxes(boxes) => let_go(boxes, leaving, now, out, steps),
        }
    }

    /// The live numbers in their order along the direction. They aren't copied.
    pub fn order(&self) -> &[u32]
        requires kept { (size : ℕ) × (dx : ℤ) × (dy : ℤ) × (s : Scene) × IsKept size (KeepOrder dx dy) s self.now }
        ensures { (size : ℕ) (dx dy : ℤ) (s : Scene) → IsKept size (KeepOrder dx dy) s self.now → IsOrder s dx dy result.now }
    {
        match self {
            Structure::Order(list) => list.items(),
            _ => unreachable!(),
        }
    }

    /// The live number that lies farthest along the direction, at a tie the least one, or `None`
    /// where no number is live or no extreme point is kept. The structure is at rest, and the answer
    /// is that of the scene in which it is kept. It is meant to search nothing; no clause says so.
    pub fn extreme(&self) -> Option<u32>
        requires rest { IsAtRest self.now }
        ensures { (size : ℕ) (dx dy : ℤ) (s : Scene) → IsKept size (KeepExtreme dx dy) s self.now → IsExtremePoint s dx dy result }
    {
        match self {
            Structure::Extreme(points) => points.extreme(),
            _ => None,
        }
    }

    /// The hull cycle, from its leftmost point on, in the scene in which it is kept.
    pub fn hull(&self) -> Result<Vec<u32>, NoMemory>
        requires kept { (size : ℕ) × (s : Scene) × IsKept size KeepHull s self.now }
        ensures { IfOk result (λ cycle. (size : ℕ) (s : Scene) → IsKept size KeepHull s self.now → IsHullCycle s cycle.items) }
    {
        match self {
            Structure::Hull(hull) => hull.cycle(),
            _ => unreachable!(),
        }
    }

    /// The closest pair, the lesser number first, or `None` where fewer than two numbers are live
    /// or no closest pair is kept. The structure is at rest, and the answer is that of the scene in
    /// which it is kept. It is meant to search nothing; no clause says so.
    pub fn closest(&self) -> Option<(u32, u32)>
        requires rest { IsAtRest self.now }
        ensures { (size : ℕ) (s : Scene) → IsKept size KeepClosest s self.now → IsClosest s result }
    {
        match self {
            Structure::Closest(pairs) => pairs.closest(),
            _ => None,
        }
    }

    /// The farthest pair, the lesser number first, or `None` where no two points are at different
    /// places or no farthest pair is kept. The structure is at rest, and the answer is that of the
    /// scene in which it is kept. It is meant to search nothing; no clause says so.
    pub fn farthest(&self) -> Option<(u32, u32)>
        requires rest { IsAtRest self.now }
        ensures { (size : ℕ) (s : Scene) → IsKept size KeepDiameter s self.now → IsFarthest s result }
    {
        match self {
            Structure::Diameter(pair) => pair.farthest(),
            _ => None,
        }
    }

    /// The pairs of points whose boxes overlap, the lesser number first, rising, in each scene in which the boxes are
    /// kept. Boxes that touch overlap.
    pub fn overlaps(&self) -> Result<Vec<(u32, u32)>, NoMemory>
        requires kept { (size : ℕ) × (w : ℤ) × (h : ℤ) × (s : Scene) × IsKept size (KeepBoxes w h) s self.now }
        ensures { IfOk result (λ pairs. (size : ℕ) (w h : ℤ) (s : Scene) → IsKept size (KeepBoxes w h) s self.now → ListsOverlaps s w h pairs.items) }
    {
        match self {
            Structure::Boxes(boxes) => boxes.overlaps(),
            _ => unreachable!(),
        }
    }

    /// The live numbers in a rectangle, its border included, rising. It is meant to look at
    /// each of them once; no clause says so.
    pub fn inside(&self, motions: &Motions, now: &Moment, rect: &Rect) -> Result<Vec<u32>, NoMemory>
        requires kept { (size : ℕ) × IsKept size KeepRange (scene_at motions.now now.now) self.now }
        requires rect { IsRectInRange rect.now }
        ensures { IfOk result (λ list. list.items ≡ points_in motions.now now.now rect.now) }
    {
        match self {
            Structure::Range(lists) => lists.inside(motions, now, rect),
            _ => unreachable!(),
        }
    }

    /// The nearest other point of a live number, of equally near ones the least, or `None` where no other is live.
    /// Its steps aren't counted.
    pub fn nearest(&self, motions: &Motions, now: &Moment, no: u32) -> Option<u32>
        requires kept { (size : ℕ) × IsKept size KeepNearest (scene_at motions.now now.now) self.now }
        requires live { IsIn no (scene_at motions.now now.now).live }
        ensures { IsNearest (scene_at motions.now now.now) no result }
    {
        match self {
            Structure::Nearest(wedges) => uncounted(NearestTo {
                wedges,
                motions,
                now,
                no,
            }),
            _ => unreachable!(),
        }
    }
}

/// A question for the nearest other point of a number.
#[derive(Clone, Copy)]
struct NearestTo<'a> {
    wedges: &'a KinNearest,
    motions: &'a Motions,
    now: &'a Moment,
    no: u32,
}

impl Work for NearestTo<'_> {
    ghost use Rattle.kin_motion.specs.Nearest.{IsNearest};
    ghost use Rattle.kin_motion.specs.Numbers.{IsIn};
    ghost use Rattle.kin_motion.specs.Scene.{IsReal, scene_at};
    ghost use Rattle.kin_wedge.specs.Wedging.{IsSettledWedging};

    type Outcome = Option<u32>;

    ghost can_run = { λ work. let s = scene_at work.motions.now work.now.now in IsReal s × IsSettledWedging work.wedges.now s × IsIn work.no s.live };

    ghost run_gives = { λ work found. IsNearest (scene_at work.motions.now work.now.now) work.no found };

    fn run<L: Ledger>(self, steps: &mut Steps<L>) -> Option<u32> {
        let now = Now {
            motions: self.motions,
            moment: self.now,
        };
        self.wedges.nearest(&now, self.no, steps)
    }
}

// Repairs what has failed of a structure at rest.
fn repair_all<K: Kept, O: Signs, L: Ledger>(
    kept: &mut K,
    now: &O,
    failed: &[Placed],
    out: &mut Delta,
    steps: &mut Steps<L>,
) -> Result<(), NoMemory>
    requires real { IsReal (O.scene now.now) }
    requires rest { K.at_rest kept.old }
    requires members { K.has_members kept.old (O.scene now.now).live }
    requires failing { AreFailing (K.facts kept.old) (O.scene now.now) failed.now }
    ensures kind { OnOk result ((size : ℕ) (keep : Kind) → K.is_for kept.old size keep → K.is_for kept.new size keep) }
    ensures rest { OnOk result (K.at_rest kept.new) }
    ensures members { OnOk result (K.has_members kept.new (O.scene now.now).live) }
    ensures settled { OnOk result (K.settled kept.new (O.scene now.now)) }
    ensures delta { OnOk result (HasChanged (K.facts kept.old) (K.facts kept.new) out.old out.new) }
    ensures within { OnOk result ((size : ℕ) (keep : Kind) (v : Scene) → K.is_for kept.old size keep → AreInStep size keep v (O.scene now.now) → K.settled kept.old v → v.live ≡ (O.scene now.now).live → HasRisenWithin (MayAsk size keep v (O.scene now.now)) steps.old steps.new) }
{
    repair(kept, now, failed, out, steps)
}

// Lets go of a number that isn't live any more, of a structure at rest.
fn let_go<K: Kept, O: Signs, L: Ledger>(
    kept: &mut K,
    leaving: u32,
    now: &O,
    out: &mut Delta,
    steps: &mut Steps<L>,
) -> Result<(), NoMemory>
    requires real { IsReal (O.scene now.now) }
    requires rest { K.at_rest kept.old }
    requires room { (size : ℕ) × (keep : Kind) × K.is_for kept.old size keep × (leaving < 2 ^ size) }
    requires left { (before : Scene) × K.has_members kept.old before.live × K.settled kept.old before × HasEntered leaving (O.scene now.now).live before.live }
    requires hold { HoldBut leaving (K.facts kept.old) (O.scene now.now) }
    ensures kind { OnOk result ((size : ℕ) (keep : Kind) → K.is_for kept.old size keep → K.is_for kept.new size keep) }
    ensures rest { OnOk result (K.at_rest kept.new) }
    ensures members { OnOk result (K.has_members kept.new (O.scene now.now).live) }
    ensures settled { OnOk result (K.settled kept.new (O.scene now.now)) }
    ensures delta { OnOk result (HasChanged (K.facts kept.old) (K.facts kept.new) out.old out.new) }
    ensures within { OnOk result ((size : ℕ) (keep : Kind) (v : Scene) → K.is_for kept.old size keep → AreInStep size keep v (O.scene now.now) → K.settled kept.old v → K.has_members kept.old v.live → HasEntered leaving (O.scene now.now).live v.live → HasRisenWithin (MayAsk size keep v (O.scene now.now)) steps.old steps.new) }
{
    leave(kept, leaving, now, out, steps)
}
