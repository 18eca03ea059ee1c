//! Scripts are followed call by call.

ghost use Rattle.std.specs.Prelude.{◌≡◌, ◌≤◌, ◌<◌, IsTrue};
ghost use Rattle.kin_world.specs.Worlds.{AreKeepable};

use crate::advance::{leaps, moves, passes, runs, stops};
use crate::answer::answers;
use crate::change::{enters, is_replaced, leaves, plans, turns};
use crate::script::{Call, Script};
use kin_motion::Keep;
use kin_motion::keep::may_keep;
use kin_num::{NoMemory, Steps};
use kin_world::World;
use std::alloc::Global;
use std::marker::Brand;
use std::sync::ledger::{Blank, Ledger};

fn are_keepable(keeps: &[Keep]) -> bool
    ensures { IsTrue result → AreKeepable keeps.now }
{
    for keep in keeps {
        if !keep.is_small() {
            return false;
        }
    }
    may_keep(keeps)
}

/// Whether a call has its answer.
fn follows<L: Ledger>(
    world: &mut World,
    call: &Call,
    steps: &mut Steps<L>,
) -> Result<bool, NoMemory> {
    match *call {
        Call::Insert(no, m) => enters(world, no, m, steps),
        Call::Remove(no) => leaves(world, no, steps),
        Call::Replace(no, m) => is_replaced(world, no, m, steps),
        Call::Turns(no, speed, refused) => turns(world, no, speed, refused, steps),
        Call::Plans(no, at, speed, refused) => plans(world, no, at, speed, refused),
        Call::Stops(limit, time, lost) => stops(world, limit, time, lost, steps),
        Call::Passes(limit, time, count) => passes(world, limit, time, count, steps),
        Call::Leaps(limit, time) => leaps(world, limit, time, steps),
        Call::Runs(limit) => runs(world, limit, steps),
        Call::Moves(limit) => moves(world, limit, steps),
        _ => answers(world, call),
    }
}

/// The place of the first call whose answer is another one.
fn first_wrong<L: Ledger>(
    alloc: Global,
    size: u32,
    keeps: &[Keep],
    calls: &[Call],
    blank: Blank,
) -> Result<Option<usize>, NoMemory>
    requires name { blank.name ≡ L.name }
    requires parts { blank.parts ≡ L.parts }
    requires some { 0 < L.parts }
    requires low { 1 ≤ size }
    requires high { size ≤ 12 }
    requires keepable { AreKeepable keeps.now }
{
    let mut steps = Steps::<L>::open(blank);
    let mut world = World::new(alloc, size, keeps)?;
    for (place, call) in calls.iter().enumerate() {
        if !follows(&mut world, call, &mut steps)? {
            return Ok(Some(place));
        }
    }
    Ok(None)
}

/// The first script with a call whose answer is another one, and the place of that call.
pub fn first_wrong_script(
    alloc: Global,
    scripts: &[Script],
) -> Result<Option<(usize, usize)>, NoMemory> {
    for (script, (size, keeps, calls)) in scripts.iter().enumerate() {
        if *size < 1 || 12 < *size || !are_keepable(keeps) {
            return Ok(Some((script, 0)));
        }
        let wrong = first_wrong::<Brand>(alloc, *size, keeps, calls, Blank::new(1))?;
        if let Some(place) = wrong {
            return Ok(Some((script, place)));
        }
    }
    Ok(None)
}
