//! A walk along a thread.

ghost use Rattle.std.specs.Prelude.{◌≡◌, length};
ghost use Rattle.std.specs.Iterator.{YieldsFirst, item_count};
ghost use Rattle.kin_wedge.specs.Threads.{IsReached, named, next_in, walk};

use crate::thread::{Thread, named};
use std::marker::Model;

/// The slots from one on, as they are threaded.
#[derive(Drop)]
pub struct Walk<'a> {
    threads: &'a [Thread],
    at: u16,
}

impl<'a> Model for Walk<'a> {
    ghost use Rattle.std.specs.Prelude.{List, ℕ, length};
    ghost use Rattle.kin_wedge.specs.Threads.{IsReached, named, next_in, walk};

    ghost Value = { List ℕ };

    ghost view = { λ w. walk (length w.threads.now) (next_in w.threads.now) (named w.at) };

    ghost invariant = { λ w. IsReached (length w.threads.now) (next_in w.threads.now) (named w.at) (walk (length w.threads.now) (next_in w.threads.now) (named w.at)) };
}

impl<'a> Walk<'a> {
    /// The slots from the one that a word names on.
    pub fn new(threads: &'a [Thread], at: u16) -> Walk<'a>
        requires { IsReached (length threads.now) (next_in threads.now) (named at) (walk (length threads.now) (next_in threads.now) (named at)) }
        ensures { result ≡ walk (length threads.now) (next_in threads.now) (named at) }
    {
        Walk { threads, at }
    }
}

impl Iterator for Walk<'_> {
    type Item = u32;

    ghost next_gives = { YieldsFirst (λ rest. rest) };

    ghost remaining = { item_count (λ rest. rest) };

    #[inline(always)]
    fn next(&mut self) -> Option<u32> {
        let Some(slot) = named(self.at) else {
            return None;
        };
        self.at = self.threads[slot as usize].next;
        Some(slot)
    }
}
