//! Calls that change the points: the refusals first, in the order of their tests, then the world's call.

ghost use Rattle.std.specs.Prelude.{◌≡◌, OnOk, IfErr};
ghost use Rattle.kin_tracker.specs.Changes.{MayInsert, IsRefusedInsert, MayRemove, IsRefusedRemoval, MayTurn, IsRefusedTurn, MayPlan, IsRefusedLeg};
ghost use Rattle.kin_tracker.specs.Trackers.{Leaves};
ghost use Rattle.kin_world.specs.Worlds.{HasInserted, HasRemoved, HasReplaced, HasTurned, HasPlanned};

use crate::counted;
use crate::ranges::{is_leg_in_range, is_slow_velocity};
use crate::refusal::Refusal;
use crate::tracker::{Tracker, is_present};
use kin_motion::Motion;
use kin_world::{LegError, TurnError};
use std::marker::Brand;
use std::sync::ledger::Blank;

impl Tracker {
    /// A point of this number, which is below `2^size`, starts with this motion.
    pub fn insert(&mut self, no: u32, motion: Motion) -> Result<(), Refusal>
        ensures may { OnOk result (MayInsert self.old no) }
        ensures inserted { OnOk result (HasInserted no motion self.old self.new) }
        ensures refused { IfErr result (IsRefusedInsert self.old no) }
        ensures leaves { IfErr result (Leaves self.old self.new) }
    {
        if !self.world.is_whole() {
            return Err(Refusal::Lost);
        }
        if is_present(&self.world, no) {
            return Err(Refusal::Taken);
        }
        if !self.world.can_insert(no) {
            return Err(Refusal::BadNumber);
        }
        let Ok(()) = counted::insert::<Brand>(&mut self.world, no, motion, Blank::new(1)) else {
            return Err(Refusal::NoMemory);
        };
        Ok(())
    }

    /// The point of this number leaves, and its legs are dropped.
    pub fn remove(&mut self, no: u32) -> Result<(), Refusal>
        ensures may { OnOk result (MayRemove self.old no) }
        ensures removed { OnOk result (HasRemoved no self.old self.new) }
        ensures refused { IfErr result (IsRefusedRemoval self.old no) }
        ensures leaves { IfErr result (Leaves self.old self.new) }
    {
        if !self.world.is_whole() {
            return Err(Refusal::Lost);
        }
        if !is_present(&self.world, no) {
            return Err(Refusal::Absent);
        }
        let Ok(()) = counted::remove::<Brand>(&mut self.world, no, Blank::new(1)) else {
            return Err(Refusal::NoMemory);
        };
        Ok(())
    }

    /// The point of this number starts anew, without legs.
    pub fn replace(&mut self, no: u32, motion: Motion) -> Result<(), Refusal>
        ensures may { OnOk result (MayRemove self.old no) }
        ensures replaced { OnOk result (HasReplaced no motion self.old self.new) }
        ensures refused { IfErr result (IsRefusedRemoval self.old no) }
        ensures leaves { IfErr result (Leaves self.old self.new) }
    {
        if !self.world.is_whole() {
            return Err(Refusal::Lost);
        }
        if !is_present(&self.world, no) {
            return Err(Refusal::Absent);
        }
        let Ok(()) = counted::replace::<Brand>(&mut self.world, no, motion, Blank::new(1)) else {
            return Err(Refusal::NoMemory);
        };
        Ok(())
    }

    /// The point of this number goes on from where it is, with this velocity and without legs.
    pub fn turn(&mut self, no: u32, u: i32, v: i32) -> Result<(), Refusal>
        ensures may { OnOk result (MayTurn self.old no u v) }
        ensures turned { OnOk result (HasTurned no u v self.old self.new) }
        ensures refused { IfErr result (IsRefusedTurn self.old no u v) }
        ensures leaves { IfErr result (Leaves self.old self.new) }
    {
        if !self.world.is_whole() {
            return Err(Refusal::Lost);
        }
        if !is_slow_velocity(u, v) {
            return Err(Refusal::BadNumber);
        }
        let Some(_) = self.world.motion(no) else {
            return Err(Refusal::Absent);
        };
        match self.world.turned(no, u, v) {
            Ok(_) => {
                let Ok(()) = counted::turn::<Brand>(&mut self.world, no, u, v, Blank::new(1)) else {
                    return Err(Refusal::NoMemory);
                };
                Ok(())
            }
            Err(TurnError::NotWhole) => Err(Refusal::NotWhole),
            Err(TurnError::OutOfBounds) => Err(Refusal::OutOfBounds),
        }
    }

    /// The point of this number is to have this velocity from the whole instant `at` on, which is below 2^31.
    pub fn leg(&mut self, no: u32, at: u32, u: i32, v: i32) -> Result<(), Refusal>
        ensures may { OnOk result (MayPlan self.old no at u v) }
        ensures planned { OnOk result (HasPlanned no at u v self.old self.new) }
        ensures refused { IfErr result (IsRefusedLeg self.old no at u v) }
        ensures leaves { IfErr result (Leaves self.old self.new) }
    {
        if !self.world.is_whole() {
            return Err(Refusal::Lost);
        }
        if !is_leg_in_range(at, u, v) {
            return Err(Refusal::BadNumber);
        }
        let Some(_) = self.world.motion(no) else {
            return Err(Refusal::Absent);
        };
        match self.world.planned(no, at, u, v) {
            Ok(_) => {
                let Ok(()) = self.world.leg(no, at, u, v) else {
                    return Err(Refusal::NoMemory);
                };
                Ok(())
            }
            Err(LegError::Past) => Err(Refusal::Past),
            Err(LegError::Planned) => Err(Refusal::Planned),
            Err(LegError::OutOfBounds) => Err(Refusal::OutOfBounds),
        }
    }
}
