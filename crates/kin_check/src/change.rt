//! Commands that change the points: the refusals first.

ghost use Rattle.std.specs.Prelude.{◌<◌, ◌≤◌, ◌^◌, OnOk, unsigned_abs};
ghost use Rattle.kin_motion.specs.Course.{IsSlow, motion_limit};
ghost use Rattle.kin_script.specs.Changes.{enters, leaves, restarts, turns, schedules};
ghost use Rattle.kin_script.specs.Deeds.{changes};
ghost use Rattle.kin_check.specs.Performed.{Changes};
ghost use Rattle.kin_check.specs.Sound.{IsSound};

use crate::halt::Halt;
use crate::plan::{Leg, is_after, whole};
use crate::state::State;
use kin_motion::Motion;
use kin_num::{Moment, Phase};
use kin_script::refusal::Refusal;
use kin_turn::turned::{TurnError, turned};

/// Gives a number that is not live its motion.
pub fn insert(state: &mut State, no: u32, m: Motion) -> Result<(), Halt>
    requires sound { IsSound state.old }
    requires room { no < 2 ^ state.old.size }
    requires slow { IsSlow m }
    ensures changes { Changes state.old (changes no (enters m)) result state.new }
    ensures sound { OnOk result (IsSound state.new) }
{
    if state.plan(no).is_some() {
        return Err(Halt::Refused(Refusal::Taken));
    }
    state.put(no, m);
    Ok(())
}

/// Takes the motion of a live number and its legs away.
pub fn remove(state: &mut State, no: u32) -> Result<(), Halt>
    requires sound { IsSound state.old }
    requires room { no < 2 ^ state.old.size }
    ensures changes { Changes state.old (changes no leaves) result state.new }
    ensures sound { OnOk result (IsSound state.new) }
{
    if state.plan(no).is_none() {
        return Err(Halt::Refused(Refusal::Absent));
    }
    state.clear(no);
    Ok(())
}

/// Gives a live number any motion, and drops its legs.
pub fn replace(state: &mut State, no: u32, m: Motion) -> Result<(), Halt>
    requires sound { IsSound state.old }
    requires room { no < 2 ^ state.old.size }
    requires slow { IsSlow m }
    ensures changes { Changes state.old (changes no (restarts m)) result state.new }
    ensures sound { OnOk result (IsSound state.new) }
{
    if state.plan(no).is_none() {
        return Err(Halt::Refused(Refusal::Absent));
    }
    state.put(no, m);
    Ok(())
}

/// Gives a live number another velocity, where it is, and drops its legs.
pub fn turn(state: &mut State, no: u32, u: i32, v: i32) -> Result<(), Halt>
    requires sound { IsSound state.old }
    requires room { no < 2 ^ state.old.size }
    requires u_small { unsigned_abs u ≤ motion_limit }
    requires v_small { unsigned_abs v ≤ motion_limit }
    ensures changes { Changes state.old (changes no (turns u v)) result state.new }
    ensures sound { OnOk result (IsSound state.new) }
{
    let now = state.moment();
    let Some(plan) = state.plan(no) else {
        return Err(Halt::Refused(Refusal::Absent));
    };
    match turned(&plan.motion_at(&now), &now, u, v) {
        Ok(motion) => {
            state.put(no, motion);
            Ok(())
        }
        Err(TurnError::NotWhole) => Err(Halt::Refused(Refusal::NotWhole)),
        Err(TurnError::OutOfBounds) => Err(Halt::Refused(Refusal::OutOfBounds)),
    }
}

/// Gives a live number another velocity from a whole instant on.
pub fn leg(state: &mut State, no: u32, at: u32, u: i32, v: i32) -> Result<(), Halt>
    requires sound { IsSound state.old }
    requires room { no < 2 ^ state.old.size }
    requires soon { at < 2 ^ 31 }
    requires u_small { unsigned_abs u ≤ motion_limit }
    requires v_small { unsigned_abs v ≤ motion_limit }
    ensures changes { Changes state.old (changes no (schedules at u v)) result state.new }
    ensures sound { OnOk result (IsSound state.new) }
{
    let Some(plan) = state.plan(no) else {
        return Err(Halt::Refused(Refusal::Absent));
    };
    if !is_after(&whole(at), &state.moment()) {
        return Err(Halt::Refused(Refusal::Past));
    }
    if plan.has_leg_from(at) {
        return Err(Halt::Refused(Refusal::Planned));
    }
    let begins = Moment {
        at: whole(at),
        phase: Phase::At,
    };
    match turned(&plan.last_motion(), &begins, u, v) {
        Ok(motion) => {
            state.put_leg(no, Leg::new(at, motion))?;
            Ok(())
        }
        Err(TurnError::OutOfBounds) => Err(Halt::Refused(Refusal::OutOfBounds)),
        Err(TurnError::NotWhole) => unreachable!(),
    }
}
