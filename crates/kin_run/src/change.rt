//! Commands that change the points: the refusals first, then the world's call.

ghost use Rattle.std.specs.Prelude.{◌≡◌, ◌≢◌, ◌≤◌, ◌<◌, ◌^◌, Bool, OnOk, IfErr, unsigned_abs};
ghost use Rattle.kin_motion.specs.Course.{motion_limit};
ghost use Rattle.kin_script.specs.Changes.{enters, leaves, restarts, turns, schedules};
ghost use Rattle.kin_script.specs.Deeds.{changes};
ghost use Rattle.kin_status.specs.declared.stop.Halt.TheVariants.{Broken as BrokenOff};
ghost use Rattle.kin_status.specs.declared.stop.Stop.TheVariants.{Fault as FaultOf};
ghost use Rattle.kin_status.specs.Performed.{Performs, OnRefused};
ghost use Rattle.kin_status.specs.Written.{Printer};
ghost use Rattle.kin_world.specs.Worlds.{IsWhole};
ghost use Rattle.kin_run.specs.States.{state_of};

use kin_motion::Motion;
use kin_num::Steps;
use kin_script::refusal::Refusal;
use kin_status::stop::Halt;
use kin_turn::turned::TurnError;
use kin_world::planning::LegError;
use kin_world::world::World;
use std::sync::ledger::Ledger;

/// Gives a number that is not live its motion.
pub fn insert<L: Ledger>(
    world: &mut World,
    no: u32,
    m: Motion,
    steps: &mut Steps<L>,
) -> Result<(), Halt>
    requires whole { IsWhole world.old }
    requires room { no < 2 ^ world.old.size }
    ensures performs { (journal : Bool) (p : Printer) → Performs (state_of journal world.old) (changes no (enters m)) result p p (state_of journal world.new) }
    ensures refused { OnRefused result (world.new ≡ world.old) }
    ensures whole { OnOk result (IsWhole world.new) }
    ensures no_fault { IfErr result (λ halt. halt ≢ BrokenOff FaultOf) }
{
    if !world.can_insert(no) {
        return Err(Halt::Refused(Refusal::Taken));
    }
    world.insert(no, m, steps)?;
    Ok(())
}

/// Takes the motion of a live number and its legs away.
pub fn remove<L: Ledger>(world: &mut World, no: u32, steps: &mut Steps<L>) -> Result<(), Halt>
    requires whole { IsWhole world.old }
    ensures performs { (journal : Bool) (p : Printer) → Performs (state_of journal world.old) (changes no leaves) result p p (state_of journal world.new) }
    ensures refused { OnRefused result (world.new ≡ world.old) }
    ensures whole { OnOk result (IsWhole world.new) }
    ensures no_fault { IfErr result (λ halt. halt ≢ BrokenOff FaultOf) }
{
    if world.motion(no).is_none() {
        return Err(Halt::Refused(Refusal::Absent));
    }
    world.remove(no, steps)?;
    Ok(())
}

/// Gives a live number any motion, at any place, and drops its legs.
pub fn replace<L: Ledger>(
    world: &mut World,
    no: u32,
    m: Motion,
    steps: &mut Steps<L>,
) -> Result<(), Halt>
    requires whole { IsWhole world.old }
    ensures performs { (journal : Bool) (p : Printer) → Performs (state_of journal world.old) (changes no (restarts m)) result p p (state_of journal world.new) }
    ensures refused { OnRefused result (world.new ≡ world.old) }
    ensures whole { OnOk result (IsWhole world.new) }
    ensures no_fault { IfErr result (λ halt. halt ≢ BrokenOff FaultOf) }
{
    let Some(_) = world.motion(no) else {
        return Err(Halt::Refused(Refusal::Absent));
    };
    world.replace(no, m, steps)?;
    Ok(())
}

/// Gives a live number another velocity, where it is, and drops its legs.
pub fn turn<L: Ledger>(
    world: &mut World,
    no: u32,
    u: i32,
    v: i32,
    steps: &mut Steps<L>,
) -> Result<(), Halt>
    requires whole { IsWhole world.old }
    requires u_small { unsigned_abs u ≤ motion_limit }
    requires v_small { unsigned_abs v ≤ motion_limit }
    ensures performs { (journal : Bool) (p : Printer) → Performs (state_of journal world.old) (changes no (turns u v)) result p p (state_of journal world.new) }
    ensures refused { OnRefused result (world.new ≡ world.old) }
    ensures whole { OnOk result (IsWhole world.new) }
    ensures no_fault { IfErr result (λ halt. halt ≢ BrokenOff FaultOf) }
{
    let Some(_) = world.motion(no) else {
        return Err(Halt::Refused(Refusal::Absent));
    };
    match world.turned(no, u, v) {
        Ok(_) => {
            world.turn(no, u, v, steps)?;
            Ok(())
        }
        Err(TurnError::NotWhole) => Err(Halt::Refused(Refusal::NotWhole)),
        Err(TurnError::OutOfBounds) => Err(Halt::Refused(Refusal::OutOfBounds)),
    }
}

/// Plans that a live number has another velocity from a whole instant on.
pub fn leg(world: &mut World, no: u32, at: u32, u: i32, v: i32) -> Result<(), Halt>
    requires whole { IsWhole world.old }
    requires soon { at < 2 ^ 31 }
    requires u_small { unsigned_abs u ≤ motion_limit }
    requires v_small { unsigned_abs v ≤ motion_limit }
    ensures performs { (journal : Bool) (p : Printer) → Performs (state_of journal world.old) (changes no (schedules at u v)) result p p (state_of journal world.new) }
    ensures refused { OnRefused result (world.new ≡ world.old) }
    ensures whole { OnOk result (IsWhole world.new) }
    ensures no_fault { IfErr result (λ halt. halt ≢ BrokenOff FaultOf) }
{
    let Some(_) = world.motion(no) else {
        return Err(Halt::Refused(Refusal::Absent));
    };
    match world.planned(no, at, u, v) {
        Ok(_) => {
            world.leg(no, at, u, v)?;
            Ok(())
        }
        Err(LegError::Past) => Err(Halt::Refused(Refusal::Past)),
        Err(LegError::Planned) => Err(Halt::Refused(Refusal::Planned)),
        Err(LegError::OutOfBounds) => Err(Halt::Refused(Refusal::OutOfBounds)),
    }
}
