//! Questions of time and of points.

ghost use Rattle.kin_c.specs.Calls.{Asking};
ghost use Rattle.kin_c.specs.Questions.{AsksApproach, AsksLive, AsksMotion, AsksNext, AsksNow, slip};
ghost use Rattle.kin_c.specs.Statuses.{Answers};

use crate::handle::KinWorld;
use crate::moment::{KinMoment, put_moment};
use crate::motion::KinMotion;
use crate::status::Status;
use kin_tracker::Tracker;
use std::alloc::Global;

/// The moment now.
#[unsafe(no_mangle)]
pub extern "C" fn kin_now(alloc: Global, world: &mut KinWorld, moment: &mut KinMoment) -> u32
    ensures { Answers result (Asking AsksNow moment.old moment.new world.old.slot.value world.new.slot.value) }
{
    let Some(tracker) = world.take(alloc) else {
        return Status::NoWorld.code();
    };
    let status = now(&tracker, moment);
    world.put(tracker);
    status.code()
}

/// The moment now.
fn now(tracker: &Tracker, moment: &mut KinMoment) -> Status
    ensures { AsksNow moment.old moment.new tracker.now result }
{
    match tracker.now() {
        Ok(now) => {
            now.at.recall_canonical();
            *moment = KinMoment::of(&now);
            Status::Done
        }
        Err(refusal) => Status::Refused(refusal),
    }
}

/// The moment of what comes next.
#[unsafe(no_mangle)]
pub extern "C" fn kin_next(
    alloc: Global,
    world: &mut KinWorld,
    moment: &mut KinMoment,
    len: &mut usize,
) -> u32
    ensures { Answers result (Asking AsksNext (slip moment.old len.old) (slip moment.new len.new) world.old.slot.value world.new.slot.value) }
{
    let Some(tracker) = world.take(alloc) else {
        return Status::NoWorld.code();
    };
    let status = next(&tracker, moment, len);
    world.put(tracker);
    status.code()
}

/// The moment of what comes next.
fn next(tracker: &Tracker, moment: &mut KinMoment, len: &mut usize) -> Status
    ensures { AsksNext (slip moment.old len.old) (slip moment.new len.new) tracker.now result }
{
    match tracker.next() {
        Ok(found) => {
            put_moment(found, moment, len);
            Status::Done
        }
        Err(refusal) => Status::Refused(refusal),
    }
}

/// How many facts are live.
#[unsafe(no_mangle)]
pub extern "C" fn kin_live(alloc: Global, world: &mut KinWorld, count: &mut usize) -> u32
    ensures { Answers result (Asking AsksLive count.old count.new world.old.slot.value world.new.slot.value) }
{
    let Some(tracker) = world.take(alloc) else {
        return Status::NoWorld.code();
    };
    let status = live(&tracker, count);
    world.put(tracker);
    status.code()
}

/// How many facts are live.
fn live(tracker: &Tracker, count: &mut usize) -> Status
    ensures { AsksLive count.old count.new tracker.now result }
{
    match tracker.live() {
        Ok(live) => {
            *count = live;
            Status::Done
        }
        Err(refusal) => Status::Refused(refusal),
    }
}

/// The motion now of a point.
#[unsafe(no_mangle)]
pub extern "C" fn kin_motion_of(
    alloc: Global,
    world: &mut KinWorld,
    point: u32,
    motion: &mut KinMotion,
) -> u32
    ensures { Answers result (Asking (AsksMotion point) motion.old motion.new world.old.slot.value world.new.slot.value) }
{
    let Some(tracker) = world.take(alloc) else {
        return Status::NoWorld.code();
    };
    let status = motion_of(&tracker, point, motion);
    world.put(tracker);
    status.code()
}

/// The motion now of a point.
fn motion_of(tracker: &Tracker, point: u32, motion: &mut KinMotion) -> Status
    ensures { AsksMotion point motion.old motion.new tracker.now result }
{
    match tracker.motion(point) {
        Ok(found) => {
            *motion = KinMotion::of(&found);
            Status::Done
        }
        Err(refusal) => Status::Refused(refusal),
    }
}

/// When two points come within a distance.
#[unsafe(no_mangle)]
pub extern "C" fn kin_first_within(
    alloc: Global,
    world: &mut KinWorld,
    one: u32,
    other: u32,
    distance: u32,
    moment: &mut KinMoment,
    len: &mut usize,
) -> u32
    ensures { let before = slip moment.old len.old in let after = slip moment.new len.new in
        Answers result (Asking (AsksApproach one other distance) before after world.old.slot.value world.new.slot.value) }
{
    let Some(tracker) = world.take(alloc) else {
        return Status::NoWorld.code();
    };
    let status = first_within(&tracker, one, other, distance, moment, len);
    world.put(tracker);
    status.code()
}

/// When two points come within a distance.
fn first_within(
    tracker: &Tracker,
    one: u32,
    other: u32,
    distance: u32,
    moment: &mut KinMoment,
    len: &mut usize,
) -> Status
    ensures { AsksApproach one other distance (slip moment.old len.old) (slip moment.new len.new) tracker.now result }
{
    match tracker.first_within(one, other, distance) {
        Ok(found) => {
            put_moment(found, moment, len);
            Status::Done
        }
        Err(refusal) => Status::Refused(refusal),
    }
}
