//! Questions of structures.

ghost use Rattle.kin_c.specs.Buffers.{buffer};
ghost use Rattle.kin_c.specs.Calls.{Asking};
ghost use Rattle.kin_c.specs.Questions.{AsksClosest, AsksExtreme, AsksFarthest, AsksHull, AsksInside, AsksNearest, AsksOrder, AsksOverlaps, rectangle};
ghost use Rattle.kin_c.specs.Statuses.{Answers};

use crate::buffer::{flat, put, put_one, put_pair};
use crate::handle::KinWorld;
use crate::status::Status;
use kin_tracker::{Rect, Refusal, Tracker};
use std::alloc::Global;

/// The points in order.
#[unsafe(no_mangle)]
pub extern "C" fn kin_order(
    alloc: Global,
    world: &mut KinWorld,
    structure: u32,
    out: &mut [u32],
    len: &mut usize,
) -> u32
    ensures { Answers result (Asking (AsksOrder structure) (buffer out.old len.old) (buffer out.new len.new) world.old.slot.value world.new.slot.value) }
{
    let Some(tracker) = world.take(alloc) else {
        return Status::NoWorld.code();
    };
    let status = order(&tracker, structure, out, len);
    world.put(tracker);
    status.code()
}

/// The points in order.
fn order(tracker: &Tracker, structure: u32, out: &mut [u32], len: &mut usize) -> Status
    ensures { AsksOrder structure (buffer out.old len.old) (buffer out.new len.new) tracker.now result }
{
    match tracker.order(structure) {
        Ok(list) => put(&list, out, len),
        Err(refusal) => Status::Refused(refusal),
    }
}

/// The extreme point.
#[unsafe(no_mangle)]
pub extern "C" fn kin_extreme(
    alloc: Global,
    world: &mut KinWorld,
    structure: u32,
    out: &mut [u32],
    len: &mut usize,
) -> u32
    ensures { Answers result (Asking (AsksExtreme structure) (buffer out.old len.old) (buffer out.new len.new) world.old.slot.value world.new.slot.value) }
{
    let Some(tracker) = world.take(alloc) else {
        return Status::NoWorld.code();
    };
    let status = extreme(&tracker, structure, out, len);
    world.put(tracker);
    status.code()
}

/// The extreme point.
fn extreme(tracker: &Tracker, structure: u32, out: &mut [u32], len: &mut usize) -> Status
    ensures { AsksExtreme structure (buffer out.old len.old) (buffer out.new len.new) tracker.now result }
{
    match tracker.extreme(structure) {
        Ok(point) => put_one(point, out, len),
        Err(refusal) => Status::Refused(refusal),
    }
}

/// The corners of the hull.
#[unsafe(no_mangle)]
pub extern "C" fn kin_hull(
    alloc: Global,
    world: &mut KinWorld,
    out: &mut [u32],
    len: &mut usize,
) -> u32
    ensures { Answers result (Asking AsksHull (buffer out.old len.old) (buffer out.new len.new) world.old.slot.value world.new.slot.value) }
{
    let Some(tracker) = world.take(alloc) else {
        return Status::NoWorld.code();
    };
    let status = hull(&tracker, out, len);
    world.put(tracker);
    status.code()
}

/// The corners of the hull.
fn hull(tracker: &Tracker, out: &mut [u32], len: &mut usize) -> Status
    ensures { AsksHull (buffer out.old len.old) (buffer out.new len.new) tracker.now result }
{
    match tracker.hull() {
        Ok(list) => put(&list, out, len),
        Err(refusal) => Status::Refused(refusal),
    }
}

/// The closest pair.
#[unsafe(no_mangle)]
pub extern "C" fn kin_closest(
    alloc: Global,
    world: &mut KinWorld,
    out: &mut [u32],
    len: &mut usize,
) -> u32
    ensures { Answers result (Asking AsksClosest (buffer out.old len.old) (buffer out.new len.new) world.old.slot.value world.new.slot.value) }
{
    let Some(tracker) = world.take(alloc) else {
        return Status::NoWorld.code();
    };
    let status = closest(&tracker, out, len);
    world.put(tracker);
    status.code()
}

/// The closest pair.
fn closest(tracker: &Tracker, out: &mut [u32], len: &mut usize) -> Status
    ensures { AsksClosest (buffer out.old len.old) (buffer out.new len.new) tracker.now result }
{
    match tracker.closest() {
        Ok(pair) => put_pair(pair, out, len),
        Err(refusal) => Status::Refused(refusal),
    }
}

/// The points in a rectangle.
#[unsafe(no_mangle)]
pub extern "C" fn kin_inside(
    alloc: Global,
    world: &mut KinWorld,
    x1: i32,
    x2: i32,
    y1: i32,
    y2: i32,
    out: &mut [u32],
    len: &mut usize,
) -> u32
    ensures { let before = buffer out.old len.old in let after = buffer out.new len.new in
        Answers result (Asking (AsksInside (rectangle x1 x2 y1 y2)) before after world.old.slot.value world.new.slot.value) }
{
    let Some(tracker) = world.take(alloc) else {
        return Status::NoWorld.code();
    };
    let status = inside(&tracker, &Rect { x1, x2, y1, y2 }, out, len);
    world.put(tracker);
    status.code()
}

/// The points in a rectangle.
fn inside(tracker: &Tracker, rect: &Rect, out: &mut [u32], len: &mut usize) -> Status
    ensures { AsksInside rect.now (buffer out.old len.old) (buffer out.new len.new) tracker.now result }
{
    match tracker.inside(rect) {
        Ok(list) => put(&list, out, len),
        Err(refusal) => Status::Refused(refusal),
    }
}

/// The nearest other point.
#[unsafe(no_mangle)]
pub extern "C" fn kin_nearest(
    alloc: Global,
    world: &mut KinWorld,
    point: u32,
    out: &mut [u32],
    len: &mut usize,
) -> u32
    ensures { Answers result (Asking (AsksNearest point) (buffer out.old len.old) (buffer out.new len.new) world.old.slot.value world.new.slot.value) }
{
    let Some(tracker) = world.take(alloc) else {
        return Status::NoWorld.code();
    };
    let status = nearest(&tracker, point, out, len);
    world.put(tracker);
    status.code()
}

/// The nearest other point.
fn nearest(tracker: &Tracker, point: u32, out: &mut [u32], len: &mut usize) -> Status
    ensures { AsksNearest point (buffer out.old len.old) (buffer out.new len.new) tracker.now result }
{
    match tracker.nearest(point) {
        Ok(other) => put_one(other, out, len),
        Err(refusal) => Status::Refused(refusal),
    }
}

/// The farthest pair.
#[unsafe(no_mangle)]
pub extern "C" fn kin_farthest(
    alloc: Global,
    world: &mut KinWorld,
    out: &mut [u32],
    len: &mut usize,
) -> u32
    ensures { Answers result (Asking AsksFarthest (buffer out.old len.old) (buffer out.new len.new) world.old.slot.value world.new.slot.value) }
{
    let Some(tracker) = world.take(alloc) else {
        return Status::NoWorld.code();
    };
    let status = farthest(&tracker, out, len);
    world.put(tracker);
    status.code()
}

/// The farthest pair.
fn farthest(tracker: &Tracker, out: &mut [u32], len: &mut usize) -> Status
    ensures { AsksFarthest (buffer out.old len.old) (buffer out.new len.new) tracker.now result }
{
    match tracker.farthest() {
        Ok(pair) => put_pair(pair, out, len),
        Err(refusal) => Status::Refused(refusal),
    }
}

/// The pairs of points whose boxes overlap.
#[unsafe(no_mangle)]
pub extern "C" fn kin_overlaps(
    alloc: Global,
    world: &mut KinWorld,
    out: &mut [u32],
    len: &mut usize,
) -> u32
    ensures { Answers result (Asking AsksOverlaps (buffer out.old len.old) (buffer out.new len.new) world.old.slot.value world.new.slot.value) }
{
    let Some(tracker) = world.take(alloc) else {
        return Status::NoWorld.code();
    };
    let status = overlaps(alloc, &tracker, out, len);
    world.put(tracker);
    status.code()
}

/// The pairs of points whose boxes overlap.
fn overlaps(alloc: Global, tracker: &Tracker, out: &mut [u32], len: &mut usize) -> Status
    ensures { AsksOverlaps (buffer out.old len.old) (buffer out.new len.new) tracker.now result }
{
    match tracker.overlaps() {
        Ok(pairs) => match flat(alloc, &pairs) {
            Ok(numbers) => put(&numbers, out, len),
            Err(_) => Status::Refused(Refusal::NoMemory),
        },
        Err(refusal) => Status::Refused(refusal),
    }
}
