//! Calls that change the points.

ghost use Rattle.kin_c.specs.Calls.{Changing};
ghost use Rattle.kin_c.specs.Changes.{Enters, Inserts, Plans, Removes, Replaces, Restarts, Turns};
ghost use Rattle.kin_c.specs.Statuses.{Answers};

use crate::handle::KinWorld;
use crate::status::Status;
use kin_motion::Motion;
use kin_tracker::{Tracker, motion};
use std::alloc::Global;

/// A point starts with the motion of four numbers.
#[unsafe(no_mangle)]
pub extern "C" fn kin_insert(
    alloc: Global,
    world: &mut KinWorld,
    point: u32,
    x: i32,
    y: i32,
    u: i32,
    v: i32,
) -> u32
    ensures { Answers result (Changing (Inserts point x y u v) world.old.slot.value world.new.slot.value) }
{
    let Some(mut tracker) = world.take(alloc) else {
        return Status::NoWorld.code();
    };
    let status = insert(&mut tracker, point, x, y, u, v);
    world.put(tracker);
    status.code()
}

/// A point starts with the motion of four numbers, if there is such a motion.
fn insert(tracker: &mut Tracker, point: u32, x: i32, y: i32, u: i32, v: i32) -> Status
    ensures { Inserts point x y u v tracker.old tracker.new result }
{
    match motion(x, y, u, v) {
        Ok(motion) => enter(tracker, point, motion),
        Err(refusal) => Status::Refused(refusal),
    }
}

/// A point starts with a motion.
fn enter(tracker: &mut Tracker, point: u32, motion: Motion) -> Status
    ensures { Enters point motion tracker.old tracker.new result }
{
    match tracker.insert(point, motion) {
        Ok(()) => Status::Done,
        Err(refusal) => Status::Refused(refusal),
    }
}

/// A point leaves.
#[unsafe(no_mangle)]
pub extern "C" fn kin_remove(alloc: Global, world: &mut KinWorld, point: u32) -> u32
    ensures { Answers result (Changing (Removes point) world.old.slot.value world.new.slot.value) }
{
    let Some(mut tracker) = world.take(alloc) else {
        return Status::NoWorld.code();
    };
    let status = remove(&mut tracker, point);
    world.put(tracker);
    status.code()
}

/// A point leaves.
fn remove(tracker: &mut Tracker, point: u32) -> Status
    ensures { Removes point tracker.old tracker.new result }
{
    match tracker.remove(point) {
        Ok(()) => Status::Done,
        Err(refusal) => Status::Refused(refusal),
    }
}

/// A point starts anew with the motion of four numbers.
#[unsafe(no_mangle)]
pub extern "C" fn kin_replace(
    alloc: Global,
    world: &mut KinWorld,
    point: u32,
    x: i32,
    y: i32,
    u: i32,
    v: i32,
) -> u32
    ensures { Answers result (Changing (Replaces point x y u v) world.old.slot.value world.new.slot.value) }
{
    let Some(mut tracker) = world.take(alloc) else {
        return Status::NoWorld.code();
    };
    let status = replace(&mut tracker, point, x, y, u, v);
    world.put(tracker);
    status.code()
}

/// A point starts anew with the motion of four numbers, if there is such a motion.
fn replace(tracker: &mut Tracker, point: u32, x: i32, y: i32, u: i32, v: i32) -> Status
    ensures { Replaces point x y u v tracker.old tracker.new result }
{
    match motion(x, y, u, v) {
        Ok(motion) => restart(tracker, point, motion),
        Err(refusal) => Status::Refused(refusal),
    }
}

/// A point starts anew with a motion.
fn restart(tracker: &mut Tracker, point: u32, motion: Motion) -> Status
    ensures { Restarts point motion tracker.old tracker.new result }
{
    match tracker.replace(point, motion) {
        Ok(()) => Status::Done,
        Err(refusal) => Status::Refused(refusal),
    }
}

/// A point goes on from where it is with another velocity.
#[unsafe(no_mangle)]
pub extern "C" fn kin_turn(alloc: Global, world: &mut KinWorld, point: u32, u: i32, v: i32) -> u32
    ensures { Answers result (Changing (Turns point u v) world.old.slot.value world.new.slot.value) }
{
    let Some(mut tracker) = world.take(alloc) else {
        return Status::NoWorld.code();
    };
    let status = turn(&mut tracker, point, u, v);
    world.put(tracker);
    status.code()
}

/// A point goes on from where it is with another velocity.
fn turn(tracker: &mut Tracker, point: u32, u: i32, v: i32) -> Status
    ensures { Turns point u v tracker.old tracker.new result }
{
    match tracker.turn(point, u, v) {
        Ok(()) => Status::Done,
        Err(refusal) => Status::Refused(refusal),
    }
}

/// A point is to have another velocity from a whole instant on.
#[unsafe(no_mangle)]
pub extern "C" fn kin_leg(
    alloc: Global,
    world: &mut KinWorld,
    point: u32,
    at: u32,
    u: i32,
    v: i32,
) -> u32
    ensures { Answers result (Changing (Plans point at u v) world.old.slot.value world.new.slot.value) }
{
    let Some(mut tracker) = world.take(alloc) else {
        return Status::NoWorld.code();
    };
    let status = leg(&mut tracker, point, at, u, v);
    world.put(tracker);
    status.code()
}

/// A point is to have another velocity from a whole instant on.
fn leg(tracker: &mut Tracker, point: u32, at: u32, u: i32, v: i32) -> Status
    ensures { Plans point at u v tracker.old tracker.new result }
{
    match tracker.leg(point, at, u, v) {
        Ok(()) => Status::Done,
        Err(refusal) => Status::Refused(refusal),
    }
}
