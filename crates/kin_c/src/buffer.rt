//! Lists that go to a caller's buffer.

ghost use Rattle.std.specs.Prelude.{◌≡◌, IfOk, option_to_list};
ghost use Rattle.kin_c.specs.Buffers.{Puts, buffer, pair_list, pairs_list};

use crate::status::Status;
use kin_num::NoMemory;
use std::alloc::Global;

/// Gives the items, where there is room for them.
pub(crate) fn put<T: Copy>(items: &[T], out: &mut [T], len: &mut usize) -> Status
    ensures { Puts items.now (buffer out.old len.old) (buffer out.new len.new) result }
{
    *len = items.len();
    if out.len() < items.len() {
        return Status::TooSmall;
    }
    out[..items.len()].copy_from_slice(items);
    Status::Done
}

/// Gives a number, if there is one.
pub(crate) fn put_one(number: Option<u32>, out: &mut [u32], len: &mut usize) -> Status
    ensures { Puts (option_to_list number) (buffer out.old len.old) (buffer out.new len.new) result }
{
    match number {
        Some(number) => put(&[number], out, len),
        None => put(&[], out, len),
    }
}

/// Gives both numbers of a pair, if there is one.
pub(crate) fn put_pair(pair: Option<(u32, u32)>, out: &mut [u32], len: &mut usize) -> Status
    ensures { Puts (pair_list pair) (buffer out.old len.old) (buffer out.new len.new) result }
{
    match pair {
        Some((one, other)) => put(&[one, other], out, len),
        None => put(&[], out, len),
    }
}

/// Both numbers of each pair, pair after pair.
pub(crate) fn flat(alloc: Global, pairs: &[(u32, u32)]) -> Result<Vec<u32>, NoMemory>
    ensures { IfOk result (λ numbers. numbers.items ≡ pairs_list pairs.now) }
{
    let mut numbers = Vec::new(alloc);
    for pair in pairs {
        numbers.push(pair.0).map_err(|_| NoMemory)?;
        numbers.push(pair.1).map_err(|_| NoMemory)?;
    }
    Ok(numbers)
}
