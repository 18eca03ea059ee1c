//! A source and a sink in memory, of which chosen calls fail.

ghost use Rattle.std.specs.Prelude.{◌≡◌, ◌≤◌, ◌<◌, ◌-◌, ◌↔◌, ◌⊎◌, ℕ, false, List, [], length, take, drop, min, Some, Ok, IsErr, is_err, IfOk, vec_len, vec_capacity};
ghost use Rattle.std.specs.Io.{ReadsAtMost, WritesAtMost};
ghost use Rattle.std.specs.Io.KnownBytes.{ReadConsumes, WriteAppends};
ghost use Rattle.kin_io.specs.Causes.{HasCause};
ghost use Rattle.kin_io.specs.Ends.{ends_after, WritesSome};
ghost use Rattle.kin_io.specs.Memory.{IsDue, after_call};

use crate::schedule::Schedule;
use crate::sink::Sink;
use crate::source::{Failed, Source};
use kin_num::memory::NoMemory;
use std::alloc::Global;
use std::marker::Model;

/// Bytes that are given in pieces.
#[derive(Drop)]
pub struct MemSource {
    bytes: Vec<u8>,
    /// How many of the bytes have been given.
    given: usize,
    /// The most bytes that one call gives.
    piece: usize,
    ended: bool,
    schedule: Schedule,
}

impl Model for MemSource {
    ghost use Rattle.std.specs.Prelude.{◌≤◌, ◌<◌, drop, vec_len};
    ghost use Rattle.kin_io.specs.Memory.{Supply};

    ghost Value = { Supply };

    ghost view = { λ s. record { left = drop s.given s.bytes.items; piece = s.piece; ended = s.ended; schedule = s.schedule } };

    ghost invariant = { λ s. (s.given ≤ vec_len s.bytes) × (0 < s.piece) };
}

impl MemSource {
    /// Gives at most `piece` bytes at a call. The calls are numbered from 0, and those of a number
    /// in `failing` fail.
    pub fn new(bytes: Vec<u8>, piece: usize, failing: Vec<u64>) -> MemSource
        requires { 0 < piece }
        ensures left { result.left ≡ bytes.items }
        ensures piece { result.piece ≡ piece }
        ensures ended { result.ended ≡ false }
        ensures schedule { result.schedule ≡ record { number = Some 0; failing = failing.items; faults = 0 } }
    {
        MemSource {
            bytes,
            given: 0,
            piece,
            ended: false,
            schedule: Schedule::new(failing),
        }
    }
}

impl Source for MemSource {
    ghost left = { λ s. Some s.left };

    ghost ended = { λ s. s.ended };

    ghost faults = { λ s. s.schedule.faults };

    /// Gives as many bytes as it can, at most a piece.
    fn read(&mut self, buf: &mut [u8]) -> Result<usize, Failed>
        // What every source says.
        ensures empty { length buf.new ≡ 0 → result ≡ Ok 0 }
        ensures bound { ReadsAtMost result buf.new }
        ensures bytes { ReadConsumes (Some self.old.left) (Some self.new.left) result buf.new }
        ensures end { self.new.ended ≡ ends_after self.old.ended result (length buf.new) }
        ensures cause { HasCause self.old.schedule.faults self.new.schedule.faults result }

        // Which calls fail, and how many bytes the others give.
        ensures fails { IsErr result ↔ ((0 < length buf.new) × IsDue self.old.schedule) }
        ensures gives { IfOk result (λ k. k ≡ min (length buf.new) (min self.old.piece (length self.old.left))) }
        ensures piece { self.new.piece ≡ self.old.piece }
        ensures schedule { self.new.schedule ≡ after_call self.old.schedule (is_err result) }
    {
        let failed = !buf.is_empty() && self.schedule.is_due();
        self.schedule.count(failed);
        if failed {
            self.ended = false;
            return Err(Failed);
        }
        let count = give(&self.bytes[self.given..], buf, self.piece);
        self.given += count;
        if !buf.is_empty() {
            self.ended = count == 0;
        }
        Ok(count)
    }
}

/// Copies from the front, as many bytes as fit, at most a piece.
fn give(from: &[u8], to: &mut [u8], piece: usize) -> usize
    ensures count { result ≡ min (length to.new) (min piece (length from.now)) }
    ensures given { take result to.new ≡ take result from.now }
{
    let count = from.len().min(to.len()).min(piece);
    to[..count].copy_from_slice(&from[..count]);
    count
}

/// Bytes that are taken as far as there is room.
#[derive(Drop)]
pub struct MemSink {
    held: Vec<u8>,
    room: usize,
    schedule: Schedule,
}

impl Model for MemSink {
    ghost use Rattle.std.specs.Prelude.{◌≤◌, vec_len, vec_capacity};
    ghost use Rattle.kin_io.specs.Memory.{Store};

    ghost Value = { Store };

    ghost view = { λ s. record { held = s.held.items; room = s.room; schedule = s.schedule } };

    ghost invariant = { λ s. (vec_len s.held ≤ s.room) × (s.room ≤ vec_capacity s.held) };
}

impl MemSink {
    /// Takes memory for `room` bytes at once. The calls are numbered from 0, and those of a number
    /// in `failing` fail.
    pub fn new(alloc: Global, room: u64, failing: Vec<u64>) -> Result<MemSink, NoMemory>
        ensures held { IfOk result (λ sink. sink.held ≡ []) }
        ensures room { IfOk result (λ sink. sink.room ≡ room) }
        ensures schedule { IfOk result (λ sink. sink.schedule ≡ record { number = Some 0; failing = failing.items; faults = 0 }) }
    {
        let room = room as usize;
        Ok(MemSink {
            held: Vec::with_capacity(alloc, room)?,
            room,
            schedule: Schedule::new(failing),
        })
    }

    /// The bytes that were taken.
    pub fn held(&self) -> &[u8]
        ensures bytes { result.now ≡ self.now.held }
        ensures within { length result.now ≤ self.now.room }
    {
        &self.held
    }
}

impl Sink for MemSink {
    ghost held = { λ s. Some s.held };

    ghost faults = { λ s. s.schedule.faults };

    /// Takes as many bytes as still fit. Without any room it fails.
    fn write(&mut self, piece: &[u8]) -> Result<usize, Failed>
        // What every sink says.
        ensures empty { length piece.now ≡ 0 → result ≡ Ok 0 }
        ensures bound { WritesAtMost result piece.now }
        ensures some { WritesSome result (length piece.now) }
        ensures bytes { WriteAppends (Some self.old.held) (Some self.new.held) result piece.now }
        ensures cause { HasCause self.old.schedule.faults self.new.schedule.faults result }

        // Which calls fail, and how many bytes the others take.
        ensures fails { IsErr result ↔ ((0 < length piece.now) × (IsDue self.old.schedule ⊎ (length self.old.held ≡ self.old.room))) }
        ensures takes { IfOk result (λ k. k ≡ min (length piece.now) (self.old.room - length self.old.held)) }
        ensures room { self.new.room ≡ self.old.room }
        ensures schedule { self.new.schedule ≡ after_call self.old.schedule (is_err result) }
    {
        let full = self.held.len() == self.room;
        let failed = !piece.is_empty() && (full || self.schedule.is_due());
        self.schedule.count(failed);
        if failed {
            return Err(Failed);
        }
        let count = piece.len().min(self.room - self.held.len());
        // The room was made at the start.
        self.held.extend_from_slice(&piece[..count]).unwrap();
        Ok(count)
    }
}
