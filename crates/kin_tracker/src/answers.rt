//! Questions. None of them changes the tracker.

ghost use Rattle.std.specs.Prelude.{◌≡◌, ◌≤◌, ℕ, ℤ, Some, IsSome, IsNone, IfOk, OnOk, IfErr, IfSome, MatchOption, length, slice_get};
ghost use Rattle.kin_motion.specs.declared.keep.Keep.TheVariants as keep;
ghost use Rattle.kin_motion.specs.Boxes.{IsRectInRange, points_in};
ghost use Rattle.kin_motion.specs.Chains.{IsHullCycle};
ghost use Rattle.kin_motion.specs.ClosestPairs.{IsClosest};
ghost use Rattle.kin_motion.specs.Course.{live_of, motion_of};
ghost use Rattle.kin_motion.specs.FactCounts.{most_live};
ghost use Rattle.kin_motion.specs.Farthest.{IsFarthest};
ghost use Rattle.kin_motion.specs.Nearest.{IsNearest};
ghost use Rattle.kin_motion.specs.Overlaps.{ListsOverlaps};
ghost use Rattle.kin_motion.specs.Sizes.{step_limit};
ghost use Rattle.kin_legs.specs.Nexts.{IsAtRest};
ghost use Rattle.kin_tracker.specs.Questions.{IsRefusedLook, IsRefusedNumber, HasOrder, HasExtreme, HasKeep, HasBoxes, IsRefusedAnswer, IsRefusedList, IsOrderAt, IsExtremeAt, IsRefusedInside, IsRefusedNearest, ArePresent, IsRefusedApproach, IsApproach};
ghost use Rattle.kin_tracker.specs.Trackers.{IsHere, IsPresent};
ghost use Rattle.kin_world.specs.Worlds.{IsNextMoment, world_scene, world_view};

use crate::counted;
use crate::ranges::is_rect_in_range;
use crate::refusal::Refusal;
use crate::tracker::{Tracker, is_present};
use kin_motion::{Keep, Motion, Rect};
use kin_num::Moment;
use std::marker::Brand;
use std::sync::ledger::Blank;

/// The greatest distance that may be asked for.
const FAR: u32 = 2 * Motion::LIMIT;

impl Tracker {
    /// The moment now.
    pub fn now(&self) -> Result<Moment, Refusal>
        ensures now { IfOk result (λ moment. moment ≡ self.now.moment) }
        ensures may { OnOk result (IsHere self.now) }
        ensures refused { IfErr result (IsRefusedLook self.now) }
    {
        if !self.world.is_whole() {
            return Err(Refusal::Lost);
        }
        Ok(*self.world.now())
    }

    /// The moment of the next failures, or at which the next leg begins, whichever is earlier; `None` exactly where neither
    /// comes any more.
    pub fn next(&self) -> Result<Option<Moment>, Refusal>
        ensures next { IfOk result (λ moment. MatchOption moment (IsAtRest (world_view self.now)) (IsNextMoment (world_view self.now))) }
        ensures may { OnOk result (IsHere self.now) }
        ensures refused { IfErr result (IsRefusedLook self.now) }
    {
        if !self.world.is_whole() {
            return Err(Refusal::Lost);
        }
        Ok(self.world.next())
    }

    /// How many facts are live.
    pub fn live(&self) -> Result<usize, Refusal>
        ensures count { IfOk result (λ count. count ≡ length self.now.live) }
        ensures few { IfOk result (λ count. count ≤ most_live self.now.size self.now.keeps (length (live_of self.now.motions))) }
        ensures may { OnOk result (IsHere self.now) }
        ensures refused { IfErr result (IsRefusedLook self.now) }
    {
        if !self.world.is_whole() {
            return Err(Refusal::Lost);
        }
        Ok(self.world.live())
    }

    /// The motion now of the point of this number.
    pub fn motion(&self, no: u32) -> Result<Motion, Refusal>
        ensures motion { IfOk result (λ motion. motion_of self.now.motions no ≡ Some motion) }
        ensures may { OnOk result (IsHere self.now) }
        ensures refused { IfErr result (IsRefusedNumber self.now no) }
    {
        if !self.world.is_whole() {
            return Err(Refusal::Lost);
        }
        let Some(motion) = self.world.motion(no) else {
            return Err(Refusal::Absent);
        };
        Ok(motion)
    }

    /// The live numbers in the order that is kept as the structure `s`.
    pub fn order(&self, s: u32) -> Result<Vec<u32>, Refusal>
        ensures order { IfOk result (λ list. IsOrderAt self.now s list.items) }
        ensures may { OnOk result (IsHere self.now) }
        ensures refused { IfErr result (IsRefusedList self.now (HasOrder self.now s)) }
    {
        if !self.world.is_whole() {
            return Err(Refusal::Lost);
        }
        let Some(Keep::Order { .. }) = self.world.keep(s) else {
            return Err(Refusal::NotKept);
        };
        let Ok(list) = self.world.order(s) else {
            return Err(Refusal::NoMemory);
        };
        Ok(list)
    }

    /// The extreme point that is kept as the structure `s`, or `None` exactly where no number is live.
    pub fn extreme(&self, s: u32) -> Result<Option<u32>, Refusal>
        ensures extreme { IfOk result (IsExtremeAt self.now s) }
        ensures may { OnOk result (IsHere self.now) }
        ensures refused { IfErr result (IsRefusedAnswer self.now (HasExtreme self.now s)) }
    {
        if !self.world.is_whole() {
            return Err(Refusal::Lost);
        }
        let Some(Keep::Extreme { .. }) = self.world.keep(s) else {
            return Err(Refusal::NotKept);
        };
        Ok(self.world.extreme(s))
    }

    /// The hull, counterclockwise, the leftmost point first.
    pub fn hull(&self) -> Result<Vec<u32>, Refusal>
        ensures hull { IfOk result (λ list. IsHullCycle (world_scene self.now) list.items) }
        ensures may { OnOk result (IsHere self.now × HasKeep self.now keep.Hull) }
        ensures refused { IfErr result (IsRefusedList self.now (HasKeep self.now keep.Hull)) }
    {
        if !self.world.is_whole() {
            return Err(Refusal::Lost);
        }
        if !self.world.keeps(&Keep::Hull) {
            return Err(Refusal::NotKept);
        }
        let Ok(list) = self.world.hull() else {
            return Err(Refusal::NoMemory);
        };
        Ok(list)
    }

    /// The closest pair, the lesser number first, or `None` exactly where fewer than two numbers are live.
    pub fn closest(&self) -> Result<Option<(u32, u32)>, Refusal>
        ensures closest { IfOk result (IsClosest (world_scene self.now)) }
        ensures may { OnOk result (IsHere self.now × HasKeep self.now keep.Closest) }
        ensures refused { IfErr result (IsRefusedAnswer self.now (HasKeep self.now keep.Closest)) }
    {
        if !self.world.is_whole() {
            return Err(Refusal::Lost);
        }
        if !self.world.keeps(&Keep::Closest) {
            return Err(Refusal::NotKept);
        }
        Ok(self.world.closest())
    }

    /// The live numbers in a rectangle, its border included, rising. Its borders are in -2^24..2^24.
    pub fn inside(&self, rect: &Rect) -> Result<Vec<u32>, Refusal>
        ensures inside { IfOk result (λ list. list.items ≡ points_in self.now.motions self.now.moment rect.now) }
        ensures may { OnOk result (IsHere self.now × IsRectInRange rect.now × HasKeep self.now keep.Range) }
        ensures refused { IfErr result (IsRefusedInside self.now rect.now) }
    {
        if !self.world.is_whole() {
            return Err(Refusal::Lost);
        }
        if !is_rect_in_range(rect) {
            return Err(Refusal::BadNumber);
        }
        if !self.world.keeps(&Keep::Range) {
            return Err(Refusal::NotKept);
        }
        let Ok(list) = self.world.inside(rect) else {
            return Err(Refusal::NoMemory);
        };
        Ok(list)
    }

    /// The nearest other point of the point of this number, or `None` exactly where no other number is live.
    pub fn nearest(&self, no: u32) -> Result<Option<u32>, Refusal>
        ensures nearest { IfOk result (IsNearest (world_scene self.now) no) }
        ensures may { OnOk result (IsHere self.now × HasKeep self.now keep.Nearest × IsPresent self.now no) }
        ensures refused { IfErr result (IsRefusedNearest self.now no) }
    {
        if !self.world.is_whole() {
            return Err(Refusal::Lost);
        }
        if !self.world.keeps(&Keep::Nearest) {
            return Err(Refusal::NotKept);
        }
        if !is_present(&self.world, no) {
            return Err(Refusal::Absent);
        }
        Ok(self.world.nearest(no))
    }

    /// The farthest pair, the lesser number first, or `None` exactly where no two live numbers are at different places.
    pub fn farthest(&self) -> Result<Option<(u32, u32)>, Refusal>
        ensures farthest { IfOk result (IsFarthest (world_scene self.now)) }
        ensures may { OnOk result (IsHere self.now × HasKeep self.now keep.Diameter) }
        ensures refused { IfErr result (IsRefusedAnswer self.now (HasKeep self.now keep.Diameter)) }
    {
        if !self.world.is_whole() {
            return Err(Refusal::Lost);
        }
        if !self.world.keeps(&Keep::Diameter) {
            return Err(Refusal::NotKept);
        }
        Ok(self.world.farthest())
    }

    /// The pairs of points whose boxes overlap, the lesser number first, rising. Boxes that touch overlap.
    pub fn overlaps(&self) -> Result<Vec<(u32, u32)>, Refusal>
        ensures overlaps { IfOk result (λ pairs. (place : ℕ) (w h : ℤ) → slice_get self.now.keeps place ≡ Some (keep.Boxes w h)
            → ListsOverlaps (world_scene self.now) w h pairs.items) }
        ensures may { OnOk result (IsHere self.now × HasBoxes self.now) }
        ensures refused { IfErr result (IsRefusedList self.now (HasBoxes self.now)) }
    {
        if !self.world.is_whole() {
            return Err(Refusal::Lost);
        }
        if !self.world.keeps_boxes() {
            return Err(Refusal::NotKept);
        }
        let Ok(pairs) = self.world.overlaps() else {
            return Err(Refusal::NoMemory);
        };
        Ok(pairs)
    }

    /// When two points come within a distance of at most 16384, from now on, if both keep their motions of now; `None`
    /// exactly where they never do.
    pub fn first_within(
        &self,
        one: u32,
        other: u32,
        distance: u32,
    ) -> Result<Option<Moment>, Refusal>
        ensures first { IfOk result (IsApproach self.now one other distance) }
        ensures may { OnOk result (IsHere self.now × (distance ≤ step_limit)) }
        ensures refused { IfErr result (IsRefusedApproach self.now one other distance) }
    {
        if !self.world.is_whole() {
            return Err(Refusal::Lost);
        }
        if FAR < distance {
            return Err(Refusal::BadNumber);
        }
        let (Some(motion), Some(other_motion)) = (self.world.motion(one), self.world.motion(other))
        else {
            return Err(Refusal::Absent);
        };
        let now = self.world.now();
        Ok(counted::first_within::<Brand>(&motion, &other_motion, distance, now, Blank::new(1)))
    }
}
