//! Motions that look random.

ghost use Rattle.std.specs.Prelude.{◌≡◌, ◌≤◌, unsigned_abs};

use crate::fault::Fault;
use kin_motion::{Motion, Motions};
use std::alloc::Global;

/// Numbers that look random, each from the one before.
pub fn after_number(seed: u64) -> u64 {
    seed.wrapping_mul(6_364_136_223_846_793_005)
        .wrapping_add(1_442_695_040_888_963_407)
}

/// A number in -1000..1000 for a seed.
fn small(seed: u64) -> i32
    ensures { unsigned_abs result ≤ 1000 }
{
    ((seed >> 33) % 2001) as i32 - 1000
}

/// A motion for a seed.
pub fn motion_for(seed: u64) -> Motion {
    let second = after_number(seed);
    let third = after_number(second);
    Motion::new(
        small(seed),
        small(second),
        small(third),
        small(after_number(third)),
    )
}

/// A number of these many, from 0 on.
fn one_of(seed: u64, many: u64) -> i32
    requires low { 1 ≤ many }
    requires high { many ≤ 100 }
    ensures { unsigned_abs result ≤ 100 }
{
    ((seed >> 33) % many) as i32
}

/// A motion on a small lattice for a seed: it begins in 0..5, and moves by at most four places a second along each
/// axis.
pub fn lattice_motion_for(seed: u64) -> Motion {
    let second = after_number(seed);
    let third = after_number(second);
    Motion::new(
        one_of(seed, 6),
        one_of(second, 6),
        one_of(third, 9) - 4,
        one_of(after_number(third), 9) - 4,
    )
}

/// The motions of the numbers below 64.
pub fn crowd_of_motions(alloc: Global, seed: u64) -> Result<Motions, Fault> {
    let mut motions = Motions::new(alloc, 6)?;
    let mut seed = seed;
    for no in 0..64 {
        seed = after_number(seed);
        motions.set(no, motion_for(seed));
    }
    Ok(motions)
}
