//! Slots, each of which points at a slot or at none. Those that point at one slot are threaded through the slots, so
//! that no list on the heap is made for it.

ghost use Rattle.std.specs.Prelude.{◌≡◌, ℕ, ◌<◌, ◌≤◌, ◌^◌, List, Some, None, length, replicate, slice_get, slice_set, IfOk, MatchOption};
ghost use Rattle.kin_motion.specs.Sets.{ListsExactly};
ghost use Rattle.kin_wedge.specs.Threads.{named, vacant_thread, web};

use crate::thread::{NONE, Thread, link, named, unlink};
use crate::walk::Walk;
use kin_num::memory::NoMemory;
use std::alloc::Global;
use std::marker::Model;

/// Slots, each of which points at a slot or at none.
#[derive(Drop)]
pub struct Threads {
    /// By slot: the word of the slot at which it points. These are apart from the threads, since most look-ups read
    /// nothing else.
    words: Vec<u16>,
    /// By slot.
    threads: Vec<Thread>,
}

impl Model for Threads {
    ghost use Rattle.std.specs.Prelude.{List, Option, ℕ};
    ghost use Rattle.kin_wedge.specs.Threads.{AreThreads, web};

    ghost Value = { List (Option ℕ) };

    ghost view = { λ t. (web t.words.items t.threads.items).targets };

    ghost invariant = { λ t. AreThreads t.words.items t.threads.items };
}

impl Threads {
    /// So many slots, which point at none.
    pub fn new(alloc: Global, count: usize) -> Result<Threads, NoMemory>
        requires { count ≤ 2 ^ 15 }
        ensures { IfOk result (λ t. t ≡ replicate count None) }
    {
        let words = vec![in alloc; NONE; count]?;
        let threads = vacant(alloc, count)?;
        Ok(Threads { words, threads })
    }

    /// At which slot a slot points.
    #[inline(always)]
    pub fn target(&self, slot: u32) -> Option<u32>
        requires { slot < length self.now }
        ensures value { slice_get self.now slot ≡ Some result }
        ensures within { MatchOption result (Unit {0}) (λ target. target < length self.now) }
    {
        named(self.words[slot as usize])
    }

    /// The word of the slot at which a slot points.
    #[inline(always)]
    pub fn word(&self, slot: u32) -> u16
        requires { slot < length self.now }
        ensures { slice_get self.now slot ≡ Some (named result) }
    {
        self.words[slot as usize]
    }

    /// Lets a slot that points at none point at a slot.
    #[inline(always)]
    pub fn point(&mut self, slot: u32, target: u32)
        requires vacant { slice_get self.old slot ≡ Some None }
        requires target { target < length self.old }
        ensures { self.new ≡ slice_set self.old slot (Some target) }
    {
        link(&mut self.words, &mut self.threads, slot, target);
    }

    /// Lets a slot point at none.
    #[inline(always)]
    pub fn release(&mut self, slot: u32)
        requires { slot < length self.old }
        ensures { self.new ≡ slice_set self.old slot None }
    {
        if let Some(target) = named(self.words[slot as usize]) {
            unlink(&mut self.words, &mut self.threads, slot, target);
        }
    }

    /// The slots that point at a slot, in no order.
    #[inline(always)]
    pub fn pointing(&self, target: usize) -> Walk<'_>
        ensures { ListsExactly result (λ slot. slice_get self.now slot ≡ Some (Some target)) }
    {
        let threads: &[Thread] = &self.threads;
        Walk::new(threads, first_of(threads, target))
    }
}

/// The word of the first slot that points at a slot.
#[inline(always)]
fn first_of(threads: &[Thread], target: usize) -> u16
    ensures { (words : List ℕ) → named result ≡ (web words threads.now).first target }
{
    match threads.get(target) {
        Some(thread) => thread.first,
        None => NONE,
    }
}

/// The threads of so many slots, which point at none.
fn vacant(alloc: Global, count: usize) -> Result<Vec<Thread>, NoMemory>
    ensures { IfOk result (λ threads. threads.items ≡ replicate count vacant_thread) }
{
    let vacant = Thread {
        next: NONE,
        previous: NONE,
        first: NONE,
    };
    Ok(vec![in alloc; vacant; count]?)
}
