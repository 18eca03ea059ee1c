//! Where bytes come from.

ghost use Rattle.std.specs.Prelude.{◌≡◌, ◌<◌, ◌≤◌, ◌+◌, ◌^◌, ◌++◌, ℕ, Bool, true, List, Option, Some, None, Ok, length, IfOk, OnOk, OnErr, IsTrue, drop, vec_len, IsErrOf};
ghost use Rattle.std.specs.Io.{ReadsAtMost};
ghost use Rattle.std.specs.Io.KnownBytes.{ReadConsumes, IsAtEnd, Keeps};
ghost use Rattle.kin_io.specs.Causes.{HasCause, Rose};
ghost use Rattle.kin_io.specs.Ends.{ends_after};
ghost use Rattle.kin_io.specs.Takes.{IsWhole, Takes, MovesOn};
ghost use Rattle.kin_io.specs.declared.source.Untaken.TheVariants.{Fault, NoMemory};

use std::alloc::{AllocError, Global};

/// A read or a write failed, and no byte got through.
#[derive(Clone, Copy, Debug, PartialEq, Eq)]
pub struct Failed;

/// Where bytes come from, piece by piece.
pub trait Source {
    /// The bytes that it has still to give, where they are known.
    ghost left: { Self → Option (List ℕ) };

    /// Whether the end was found last.
    ghost ended: { Self → Bool };

    /// How many reads have failed.
    ghost faults: { Self → ℕ };

    /// Gives the next bytes at the front of the buffer, and answers how many: none of a nonempty
    /// buffer at the end alone. `Failed` leaves `left` as it was.
    fn read(&mut self, buf: &mut [u8]) -> Result<usize, Failed>
        ensures empty { length buf.new ≡ 0 → result ≡ Ok 0 }
        ensures bound { ReadsAtMost result buf.new }
        ensures bytes { ReadConsumes (left self.old) (left self.new) result buf.new }
        ensures end { ended self.new ≡ ends_after (ended self.old) result (length buf.new) }
        ensures cause { HasCause (faults self.old) (faults self.new) result };
}

/// Why not all bytes were taken. A prefix of them may have been.
#[derive(Clone, Copy, Debug, PartialEq, Eq)]
pub enum Untaken {
    /// A read failed.
    Fault,
    /// There are more bytes than the limit: one more was taken.
    TooLong,
    NoMemory,
}

impl From<AllocError> for Untaken {
    ghost from_gives = { λ _ e. e ≡ NoMemory };

    fn from(_e: AllocError) -> Untaken {
        Untaken::NoMemory
    }
}

impl From<Failed> for Untaken {
    ghost from_gives = { λ _ e. e ≡ Fault };

    fn from(_e: Failed) -> Untaken {
        Untaken::Fault
    }
}

/// The most bytes of one read: a long input costs few calls of the system, and a short one touches little memory.
const BLOCK: usize = 8192;

/// This many zeros. It is a function of its own, since a goal that names a list of 8192 zeros would compute it.
fn zeros(alloc: Global, count: usize) -> Result<Vec<u8>, AllocError>
    ensures { IfOk result (λ block. vec_len block ≡ count) }
{
    Vec::from_elem(alloc, 0u8, count)
}

/// Reads at most as many bytes as the block has, and appends them.
fn take_some<S: Source>(
    source: &mut S,
    all: &mut Vec<u8>,
    block: &mut [u8],
) -> Result<usize, Untaken>
    requires { 0 < length block.old }
    ensures ok { IfOk result (λ n. (n ≤ length block.old) × (vec_len all.new ≡ vec_len all.old + n)) }
    ensures bytes { OnOk result (MovesOn (S.left source.old) (S.left source.new) all.old.items all.new.items) }
    ensures end { IfOk result (λ n. n ≡ 0 → (S.ended source.new ≡ true) × IsAtEnd (S.left source.new)) }
    ensures never { IsErrOf result Untaken.TooLong → ⊥ }
    ensures kept { IsErrOf result Untaken.Fault → Keeps (S.left source.old) (S.left source.new) }
    ensures lost { OnErr result (Takes (S.left source.old) (S.left source.new) (λ n. n ≤ length block.old)) }
    ensures later { S.faults source.old ≤ S.faults source.new }
    ensures cause { IsErrOf result Untaken.Fault → Rose (S.faults source.old) (S.faults source.new) }
{
    let count = source.read(block)?;
    all.extend_from_slice(&block[..count])?;
    Ok(count)
}

/// All bytes up to the end of the input, at most `limit`. Where there are more, one more than `limit` is
/// taken. Takes memory for what was read and for one block.
pub fn read_all<S: Source>(alloc: Global, source: &mut S, limit: u32) -> Result<Vec<u8>, Untaken>
    requires { limit < 2 ^ 31 }
    // All bytes were taken, or a prefix.
    ensures whole { IfOk result (λ all. IsWhole (S.left source.old) (S.left source.new) (S.ended source.new) limit all.items) }
    ensures too_long { IsErrOf result Untaken.TooLong → Takes (S.left source.old) (S.left source.new) (λ n. n ≡ limit + 1) }
    ensures fault { IsErrOf result Untaken.Fault → Takes (S.left source.old) (S.left source.new) (λ n. n ≤ limit) }
    ensures no_memory { IsErrOf result Untaken.NoMemory → Takes (S.left source.old) (S.left source.new) (λ n. n ≤ limit + 1) }

    // A fault comes only from the source.
    ensures later { S.faults source.old ≤ S.faults source.new }
    ensures cause { IsErrOf result Untaken.Fault → Rose (S.faults source.old) (S.faults source.new) }
{
    let limit = limit as usize;
    let mut all = Vec::new(alloc);
    let mut block = zeros(alloc, BLOCK)?;
    while all.len() <= limit {
        let room = BLOCK.min(limit + 1 - all.len());
        if take_some(source, &mut all, &mut block[..room])? == 0 {
            return Ok(all);
        }
    }
    Err(Untaken::TooLong)
}
