//! Upper chains of sixteen points that move, enter and leave, through many failures.

ghost use Rattle.std.specs.Prelude.{◌≡◌, ◌≤◌, ◌<◌, unsigned_abs};

use crate::under::go;
use kin_cases::envelope::Envelope;
use kin_cases::failures::{Passed, next_failure};
use kin_cases::fault::Fault;
use kin_cases::moments::at;
use kin_cases::random::{after_number, motion_for};
use kin_cases::watch::{Callers, Tally};
use kin_motion::Motion;
use kin_num::Steps;
use std::alloc::Global;
use std::marker::Brand;
use std::sync::ledger::{Blank, Ledger};
use std::test::Fail;

/// A number in -2..2 for a seed.
fn few(seed: u64) -> i32
    ensures { unsigned_abs result ≤ 2 }
{
    (seed % 5) as i32 - 2
}

/// A motion on a small lattice for a seed, so that points meet and are on lines often.
fn lattice_motion(seed: u64) -> Motion {
    Motion::new(
        few(seed >> 20),
        few(seed >> 28),
        few(seed >> 36),
        few(seed >> 44),
    )
}

/// The motion of a crowd for a seed.
fn motion_in(on_lattice: bool, seed: u64) -> Motion {
    if on_lattice {
        lattice_motion(seed)
    } else {
        motion_for(seed)
    }
}

/// The points 0 to 15, marked one after the other before one settle.
fn crowd(alloc: Global, on_lattice: bool, seed: u64) -> Result<Envelope, Fault> {
    let mut envelope = Envelope::new(alloc, 4)?;
    let mut seed = seed;
    for no in 0..16 {
        seed = after_number(seed);
        envelope = envelope.enter(no, motion_in(on_lattice, seed))?;
    }
    Ok(envelope)
}

/// Marks some points: every third turn one leaves and another one comes back with another motion.
fn mark(envelope: Envelope, turn: u32, on_lattice: bool, seed: u64) -> Result<Envelope, Fault> {
    if turn % 3 != 0 {
        return Ok(envelope);
    }
    let step = turn / 3;
    let envelope = envelope.leave(step % 16)?;
    if step == 0 {
        return Ok(envelope);
    }
    envelope.enter((step - 1) % 16, motion_in(on_lattice, seed))
}

/// 16 points go from failure moment to failure moment, and some leave and come back there.
fn crowd_passes<L: Ledger>(
    alloc: Global,
    on_lattice: bool,
    seed: u64,
    blank: Blank,
) -> Result<Passed, Fault>
    requires name { blank.name ≡ L.name }
    requires parts { blank.parts ≡ L.parts }
    requires some { 0 < L.parts }
{
    let mut steps = Steps::<Callers<L>>::open(blank);
    let tally = Tally::new();
    let mut now = at(-50);
    let mut envelope = go(
        alloc,
        crowd(alloc, on_lattice, seed)?,
        &now,
        &tally,
        &mut steps,
    )?;
    let mut passed = 0;
    let mut seed = seed;
    for turn in 0..150 {
        let Some(next) = next_failure(envelope.facts(), &envelope.at(&now))? else {
            break;
        };
        seed = after_number(seed);
        envelope = mark(envelope, turn, on_lattice, seed)?;
        envelope = go(alloc, envelope, &next, &tally, &mut steps)?;
        now = next;
        passed = turn + 1;
    }
    let (all, counted) = tally.take();
    Ok((passed, all, counted))
}

#[test]
fn sixteen_points_through_450_failure_moments(rt: HostRuntime) -> Result<(), Fail> {
    for seed in [2, 6, 8] {
        let (passed, all, counted) = crowd_passes::<Brand>(rt.alloc(), false, seed, Blank::new(1))?;
        assert_eq!(rt; passed, 150, "{seed}");
        assert_eq!(rt; all, counted);
    }
    Ok(())
}

#[test]
fn sixteen_points_on_a_small_lattice(rt: HostRuntime) -> Result<(), Fail> {
    for seed in [3, 4, 5] {
        let (passed, all, counted) = crowd_passes::<Brand>(rt.alloc(), true, seed, Blank::new(1))?;
        assert!(rt; passed >= 20, "{seed}: {passed}");
        assert_eq!(rt; all, counted);
    }
    Ok(())
}
