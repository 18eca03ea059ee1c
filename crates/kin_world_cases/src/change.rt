//! Calls that change what lives.

use crate::script::motion;
use kin_motion::Motion;
use kin_num::{NoMemory, Steps};
use kin_turn::turned::TurnError;
use kin_world::{LegError, World};
use std::sync::ledger::Ledger;

/// A number that may enter does.
pub fn enters<L: Ledger>(
    world: &mut World,
    no: u32,
    m: [i32; 4],
    steps: &mut Steps<L>,
) -> Result<bool, NoMemory> {
    let Some(m) = motion(m) else {
        return Ok(false);
    };
    if !world.is_whole() || !world.can_insert(no) {
        return Ok(false);
    }
    world.insert(no, m, steps)?;
    Ok(world.is_whole() && world.motion(no) == Some(m))
}

/// A live number leaves.
pub fn leaves<L: Ledger>(
    world: &mut World,
    no: u32,
    steps: &mut Steps<L>,
) -> Result<bool, NoMemory> {
    if !world.is_whole() || world.motion(no).is_none() {
        return Ok(false);
    }
    world.remove(no, steps)?;
    Ok(world.is_whole() && world.motion(no).is_none() && world.can_insert(no))
}

/// A live number gets another motion.
pub fn is_replaced<L: Ledger>(
    world: &mut World,
    no: u32,
    m: [i32; 4],
    steps: &mut Steps<L>,
) -> Result<bool, NoMemory> {
    let Some(m) = motion(m) else {
        return Ok(false);
    };
    if !world.is_whole() || world.motion(no).is_none() {
        return Ok(false);
    }
    world.replace(no, m, steps)?;
    Ok(world.is_whole() && world.motion(no) == Some(m))
}

/// A live number turns to this velocity, or doesn't for this reason.
pub fn turns<L: Ledger>(
    world: &mut World,
    no: u32,
    (u, v): (i32, i32),
    refused: Option<TurnError>,
    steps: &mut Steps<L>,
) -> Result<bool, NoMemory> {
    if !world.is_whole() || world.motion(no).is_none() {
        return Ok(false);
    }
    if u.unsigned_abs() > Motion::LIMIT || v.unsigned_abs() > Motion::LIMIT {
        return Ok(false);
    }
    let Ok(motion) = world.turned(no, u, v) else {
        return Ok(world.turned(no, u, v).err() == refused);
    };
    world.turn(no, u, v, steps)?;
    Ok(refused.is_none() && world.is_whole() && world.motion(no) == Some(motion))
}

/// A live number has this velocity from a whole second on, or can't for this reason.
pub fn plans(
    world: &mut World,
    no: u32,
    at: u32,
    (u, v): (i32, i32),
    refused: Option<LegError>,
) -> Result<bool, NoMemory> {
    if !world.is_whole() || world.motion(no).is_none() || at >= 1 << 31 {
        return Ok(false);
    }
    if u.unsigned_abs() > Motion::LIMIT || v.unsigned_abs() > Motion::LIMIT {
        return Ok(false);
    }
    let before = world.motion(no);
    let Ok(_) = world.planned(no, at, u, v) else {
        return Ok(world.planned(no, at, u, v).err() == refused);
    };
    world.leg(no, at, u, v)?;
    Ok(refused.is_none() && world.is_whole() && world.motion(no) == before)
}
