//! The tracker.

ghost use Rattle.std.specs.Prelude.{◌≡◌, ◌<◌, ◌^◌, IsTrue, IsFalse, IfOk, OnOk, IfErr, length};
ghost use Rattle.kin_motion.specs.Course.{is_live};
ghost use Rattle.kin_tracker.specs.Keeping.{IsRefusedStart, IsSize, MayStart};
ghost use Rattle.kin_tracker.specs.Trackers.{IsAbsent, IsLost, IsPresent};
ghost use Rattle.kin_world.specs.Worlds.{IsWhole, empty};

use crate::keeps::first_bad;
use crate::refusal::Refusal;
use kin_motion::Keep;
use kin_num::NoMemory;
use kin_world::World;
use std::alloc::Global;
use std::marker::Model;

/// Moving points and the structures that are kept over them, at one moment.
///
/// It is lost once memory was wanting in a change or a step, and each later call is refused. Drop it then.
#[derive(Drop)]
pub struct Tracker {
    pub(crate) world: World,
}

impl Model for Tracker {
    ghost use Rattle.kin_world.specs.Worlds.{World as Meaning};

    ghost Value = { Meaning };

    ghost view = { λ t. t.world };
}

impl Tracker {
    /// No points yet, at the instant 0. Points have numbers below `2^size`, and the size is from 1 to 12. Of the keeps at
    /// most 16 are orders or extreme points, and at most one is of each other kind. A farthest pair comes after a hull.
    /// Each part of a direction is in -16..16, and the width and the height of boxes are in 0..4096.
    pub fn new(alloc: Global, size: u32, keeps: &[Keep]) -> Result<Tracker, Refusal>
        ensures empty { IfOk result (λ t. t ≡ empty size keeps.now) }
        ensures may { OnOk result (MayStart size keeps.now) }
        ensures refused { IfErr result (IsRefusedStart size keeps.now) }
    {
        if !is_size(size) {
            return Err(Refusal::BadNumber);
        }
        if let Some(place) = first_bad(keeps) {
            return Err(Refusal::BadKeep(place));
        }
        match World::new(alloc, size, keeps) {
            Ok(world) => Ok(Tracker { world }),
            Err(NoMemory) => Err(Refusal::NoMemory),
        }
    }

    /// Whether memory was wanting in a change or a step.
    pub fn is_lost(&self) -> bool
        ensures lost { IsTrue result → IsLost self.now }
        ensures whole { IsFalse result → IsWhole self.now }
    {
        !self.world.is_whole()
    }
}

/// Whether a world may have this size.
fn is_size(size: u32) -> bool
    ensures yes { IsTrue result → IsSize size }
    ensures no { IsFalse result → ¬ (IsSize size) }
{
    1 <= size && size <= 12
}

/// Whether a number is live.
pub(crate) fn is_present(world: &World, no: u32) -> bool
    requires { IsWhole world.now }
    ensures yes { IsTrue result → IsPresent world.now no }
    ensures room { IsTrue result → no < 2 ^ world.now.size }
    ensures no { IsFalse result → IsAbsent world.now no }
{
    world.motion(no).is_some()
}
