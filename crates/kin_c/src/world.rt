//! Making a world, freeing it, and whether it can be used.

ghost use Rattle.std.specs.Prelude.{◌≡◌, IfOk, IfErr};
ghost use Rattle.kin_c.specs.Calls.{Changing, Frees};
ghost use Rattle.kin_c.specs.Keeps.{IsRefusedWorld, IsStarted, Starts, place_said};
ghost use Rattle.kin_c.specs.Questions.{IsState, Looks};
ghost use Rattle.kin_c.specs.Statuses.{Answers};

use crate::handle::KinWorld;
use crate::keep::{KinKeep, read_keeps};
use crate::status::Status;
use kin_tracker::{Refusal, Tracker};
use std::alloc::Global;

/// Makes a world, in the place of one that may be there.
#[unsafe(no_mangle)]
pub extern "C" fn kin_new(
    alloc: Global,
    world: &mut KinWorld,
    size: u32,
    keeps: &[KinKeep],
    place: &mut usize,
) -> u32
    ensures { Answers result (Starts size keeps.now place.old place.new world.old.slot.value world.new.slot.value) }
{
    match start(alloc, size, keeps) {
        Ok(tracker) => {
            world.set(alloc, tracker);
            Status::Done.code()
        }
        Err(refusal) => {
            say_place(refusal, place);
            Status::Refused(refusal).code()
        }
    }
}

/// Says the place of a structure that can't be kept.
fn say_place(refusal: Refusal, place: &mut usize)
    ensures { place.new ≡ place_said refusal place.old }
{
    if let Refusal::BadKeep(at) = refusal {
        *place = at;
    }
}

/// A tracker that keeps what the numbers name.
fn start(alloc: Global, size: u32, given: &[KinKeep]) -> Result<Box<Tracker>, Refusal>
    ensures started { IfOk result (λ b. IsStarted size given.now b.value) }
    ensures refused { IfErr result (IsRefusedWorld size given.now) }
{
    let keeps = read_keeps(alloc, given)?;
    let tracker = Tracker::new(alloc, size, &keeps)?;
    match Box::new(alloc, tracker) {
        Ok(tracker) => Ok(tracker),
        Err(_) => Err(Refusal::NoMemory),
    }
}

/// Frees the world, if there is one.
#[unsafe(no_mangle)]
pub extern "C" fn kin_free(alloc: Global, world: &mut KinWorld) -> u32
    ensures { Answers result (Frees world.old.slot.value world.new.slot.value) }
{
    match world.take(alloc) {
        Some(_) => Status::Done.code(),
        None => Status::NoWorld.code(),
    }
}

/// Whether the world can't be used any more.
#[unsafe(no_mangle)]
pub extern "C" fn kin_is_lost(alloc: Global, world: &mut KinWorld) -> u32
    ensures { Answers result (Changing Looks world.old.slot.value world.new.slot.value) }
{
    let Some(tracker) = world.take(alloc) else {
        return Status::NoWorld.code();
    };
    let status = state(&tracker);
    world.put(tracker);
    status.code()
}

/// Whether the tracker can be used.
fn state(tracker: &Tracker) -> Status
    ensures { IsState tracker.now result }
{
    if tracker.is_lost() {
        return Status::Refused(Refusal::Lost);
    }
    Status::Done
}
