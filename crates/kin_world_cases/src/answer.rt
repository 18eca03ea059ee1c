//! Questions that a world answers.

ghost use Rattle.std.specs.Prelude.{◌≤◌, ◌^◌, unsigned_abs, IsTrue};
ghost use Rattle.kin_motion.specs.Boxes.{IsRectInRange};

use crate::script::{Call, form, moment, motion};
use kin_motion::{Keep, Rect};
use kin_num::NoMemory;
use kin_world::World;

/// An order is kept, and this is it.
fn orders(world: &World, s: u32, numbers: &[u32]) -> Result<bool, NoMemory> {
    let Some(Keep::Order { .. }) = world.keep(s) else {
        return Ok(false);
    };
    Ok(world.is_whole() && world.order(s)?.as_slice() == numbers)
}

/// An extreme point is kept, and this is it.
fn has_extreme(world: &World, s: u32, number: Option<u32>) -> bool {
    let Some(Keep::Extreme { .. }) = world.keep(s) else {
        return false;
    };
    world.is_whole() && world.extreme(s) == number
}

/// A hull is kept, and this is its cycle.
fn has_hull(world: &World, s: u32, cycle: &[u32]) -> Result<bool, NoMemory> {
    let Some(Keep::Hull) = world.keep(s) else {
        return Ok(false);
    };
    Ok(world.is_whole() && world.hull()?.as_slice() == cycle)
}

/// A closest pair is kept, and this is it.
fn has_closest(world: &World, s: u32, pair: Option<(u32, u32)>) -> bool {
    let Some(Keep::Closest) = world.keep(s) else {
        return false;
    };
    world.is_whole() && world.closest() == pair
}

/// A range is kept, and these are the points in the rectangle.
fn has_inside(world: &World, s: u32, rect: &Rect, numbers: &[u32]) -> Result<bool, NoMemory> {
    let Some(Keep::Range) = world.keep(s) else {
        return Ok(false);
    };
    if !world.is_whole() || !is_in_range(rect) {
        return Ok(false);
    }
    Ok(world.inside(rect)?.as_slice() == numbers)
}

/// Nearest neighbours are kept, the number is live, and this is its nearest other point.
fn has_nearest(world: &World, s: u32, no: u32, number: Option<u32>) -> bool {
    let Some(Keep::Nearest) = world.keep(s) else {
        return false;
    };
    world.is_whole() && world.motion(no).is_some() && world.nearest(no) == number
}

/// A farthest pair is kept, and this is it.
fn has_farthest(world: &World, s: u32, pair: Option<(u32, u32)>) -> bool {
    let Some(Keep::Diameter) = world.keep(s) else {
        return false;
    };
    world.is_whole() && world.farthest() == pair
}

/// Boxes are kept, and these are the pairs that overlap.
fn has_overlaps(world: &World, pairs: &[(u32, u32)]) -> Result<bool, NoMemory> {
    if !world.keeps_boxes() {
        return Ok(false);
    }
    Ok(world.is_whole() && world.overlaps()?.as_slice() == pairs)
}

fn is_small_border(n: i32) -> bool
    ensures { IsTrue result → unsigned_abs n ≤ 2 ^ 24 }
{
    n.unsigned_abs() <= 1 << 24
}

fn is_in_range(rect: &Rect) -> bool
    ensures { IsTrue result → IsRectInRange rect.now }
{
    is_small_border(rect.x1)
        && is_small_border(rect.x2)
        && is_small_border(rect.y1)
        && is_small_border(rect.y2)
}

/// Whether a question has its answer.
pub fn answers(world: &World, call: &Call) -> Result<bool, NoMemory> {
    if !world.is_whole() {
        return Ok(false);
    }
    match *call {
        Call::MayInsert(no, may) => Ok(world.can_insert(no) == may),
        Call::Goes(no, m) => Ok(world.motion(no) == m.and_then(motion)),
        Call::Next(None) => Ok(world.next() == None),
        Call::Next(Some(time)) => Ok(world.next() == moment(time)),
        Call::Facts(live, made) => Ok(world.live() == live && world.made() == made),
        Call::SignOf((structure, part), line, sign) => Ok(
            world.sign_of(structure, part, &form(line)) == sign,
        ),
        Call::Order(s, numbers) => orders(world, s, numbers),
        Call::Extreme(s, number) => Ok(has_extreme(world, s, number)),
        Call::Hull(s, cycle) => has_hull(world, s, cycle),
        Call::Closest(s, pair) => Ok(has_closest(world, s, pair)),
        Call::Inside(s, rect, numbers) => has_inside(world, s, &rect, numbers),
        Call::Nearest(s, no, number) => Ok(has_nearest(world, s, no, number)),
        Call::Farthest(s, pair) => Ok(has_farthest(world, s, pair)),
        Call::Overlaps(pairs) => has_overlaps(world, pairs),
        _ => Ok(false),
    }
}
