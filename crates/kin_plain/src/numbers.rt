//! Numbers of points.

ghost use Rattle.std.specs.Prelude.{◌≡◌, ◌≤◌, ◌++◌, ◌∷◌, [], ◌^◌, length, IfOk, OnOk};
ghost use Rattle.kin_motion.specs.Course.{live_of, motion_of};
ghost use Rattle.kin_motion.specs.Numbers.{filled_from, is_in};

use crate::lists::put;
use kin_motion::Motions;
use kin_num::memory::NoMemory;
use std::alloc::Global;

/// How many numbers are below `2^size`.
pub fn numbers_below(size: u32) -> u32
    requires { size ≤ 15 }
    ensures { result ≡ 2 ^ size }
{
    1 << size
}

/// Whether the list has the number.
pub fn is_in(no: u32, list: &[u32]) -> bool
    ensures { result ≡ is_in no list.now }
{
    for other in list {
        if no == *other {
            return true;
        }
    }
    false
}

/// Puts a number at the end, if it is live.
fn put_if_live(motions: &Motions, no: u32, numbers: &mut Vec<u32>) -> Result<(), NoMemory>
    ensures { OnOk result (numbers.new.items ≡ numbers.old.items ++ filled_from no (motion_of motions.now no ∷ [])) }
{
    match motions.get(no) {
        Some(_motion) => put(numbers, no),
        None => Ok(()),
    }
}

/// The live numbers, rising.
pub fn live_numbers(alloc: Global, motions: &Motions, size: u32) -> Result<Vec<u32>, NoMemory>
    requires size { size ≤ 12 }
    requires room { length motions.now ≡ 2 ^ size }
    ensures { IfOk result (λ numbers. numbers.items ≡ live_of motions.now) }
{
    let mut numbers = Vec::new(alloc);
    for no in 0..numbers_below(size) {
        put_if_live(motions, no, &mut numbers)?;
    }
    Ok(numbers)
}
