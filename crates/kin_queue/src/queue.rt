//! The event queue.

ghost use Rattle.std.specs.Prelude.{◌≡◌, ◌≢◌, ℕ, Some, None, OnOk, OnErr, IfOk, IfSome, IfNone, IsSome, is_some};
ghost use Rattle.std.specs.FinMap.{get, insert, remove, empty, len};
ghost use Rattle.kin_queue.specs.Agenda.{IsNext, without};
ghost use Rattle.kin_queue.specs.Cost.{TakesSteps};

use crate::due::Due;
use crate::heap::{put_in, take_least, take_out};
use crate::instants::{Instants, reach};
use crate::ticket::Ticket;
use crate::tie::next_tie;
use kin_num::{Moment, NoMemory, Steps};
use std::alloc::Global;
use std::marker::Model;
use std::sync::ledger::Ledger;

/// A finite map from ids to moments that gives an entry of least moment. Which one of several entries of the least
/// moment comes next is free. `insert`, `remove`, `pop` and `pop_at` compare moments at most `2 log2(n + 1)` times on `n`
/// entries; `has` and `first` compare none. They are compared only where keys don't decide; no clause says so. The
/// memory grows with the greatest id. An id of `2^32` or more counts as want of memory.
#[derive(Drop)]
pub struct Queue {
    /// The entries, each id once. No entry is earlier than the one above it.
    entries: Vec<Ticket>,
    /// The place of each id's entry. For an id that isn't there it means nothing.
    places: Vec<u32>,
    /// The instant of each id. For an id that isn't there it means nothing. The phase is in the entry.
    instants: Instants,
    /// The place of the entry that comes next, which is at the moment of the first one.
    next: usize,
}

impl Model for Queue {
    ghost use Rattle.kin_queue.specs.Agenda.{Agenda, agenda_code};

    ghost Value = { Agenda };

    ghost coded = { agenda_code };

    ghost use Rattle.kin_queue.specs.Tickets.{entries_of};
    ghost use Rattle.kin_queue.specs.Heap.{agenda_of, IsLed};

    ghost view = { λ q. agenda_of (entries_of q.instants q.entries.items) q.next };

    ghost invariant = { λ q. IsLed q.instants q.entries.items q.places.items q.next };
}

impl Queue {
    /// An empty queue.
    pub fn new(alloc: Global) -> Queue
        ensures empty { result.moments ≡ empty }
        ensures none { result.next ≡ None }
    {
        Queue {
            entries: Vec::new(alloc),
            places: Vec::new(alloc),
            instants: Instants::new(alloc),
            next: 0,
        }
    }

    /// An empty queue with room for `count` entries with ids below `count`.
    pub fn with_room(alloc: Global, count: usize) -> Result<Queue, NoMemory>
        ensures empty { IfOk result (λ q. q.moments ≡ empty) }
        ensures none { IfOk result (λ q. q.next ≡ None) }
    {
        Ok(Queue {
            entries: Vec::with_capacity(alloc, count)?,
            places: Vec::with_capacity(alloc, count)?,
            instants: Instants::with_room(alloc, count)?,
            next: 0,
        })
    }

    /// Whether an id is there.
    pub fn has(&self, id: usize) -> bool
        ensures { result ≡ is_some (get self.now.moments id) }
    {
        if id >= self.places.len() {
            return false;
        }
        let known = self.places[id] as usize;
        if known >= self.entries.len() {
            return false;
        }
        self.entries[known].id as usize == id
    }

    /// Puts in an id that isn't there yet. Want of memory changes nothing. In line, so that its moment is written once.
    #[inline(always)]
    pub fn insert<L: Ledger>(
        &mut self,
        id: usize,
        at: Moment,
        steps: &mut Steps<L>,
    ) -> Result<(), NoMemory>
        requires absent { get self.old.moments id ≡ None }
        ensures ok { OnOk result (self.new.moments ≡ insert self.old.moments id at) }
        ensures err { OnErr result (self.new ≡ self.old) }
        ensures cost { TakesSteps (len self.old.moments) steps.old steps.new }
    {
        let Ok(short) = u32::try_from(id) else {
            return Err(NoMemory);
        };
        // There are never so many: each id is there once, and this one isn't there. The test spares a proof of that.
        if self.entries.len() > u32::MAX as usize {
            return Err(NoMemory);
        }
        self.entries.reserve(1)?;
        reach(&mut self.places, id, 0)?;
        self.instants.note(id, &at.at)?;
        let entry = Ticket::new(short, &at);
        self.next = 0;
        put_in(
            &mut self.entries,
            &mut self.places,
            &self.instants,
            entry,
            steps,
        );
        Ok(())
    }

    /// Takes out an id that is there.
    pub fn remove<L: Ledger>(&mut self, id: usize, steps: &mut Steps<L>)
        requires present { IsSome (get self.old.moments id) }
        ensures moments { self.new.moments ≡ remove self.old.moments id }
        ensures cost { TakesSteps (len self.old.moments) steps.old steps.new }
    {
        let place = self.places[id] as usize;
        self.next = 0;
        take_out(
            &mut self.entries,
            &mut self.places,
            &self.instants,
            place,
            steps,
        );
    }

    /// The next entry, which is one of least moment, or `None` exactly where the queue is empty.
    pub fn first(&self) -> Option<(usize, Moment)>
        ensures value { result ≡ self.now.next }
        ensures least { IsNext self.now.moments self.now.next }
    {
        let entry = self.entries.get(self.next)?;
        Some((entry.id as usize, entry.moment(&self.instants)))
    }

    /// Takes out the entry that `first` gives, and answers it. `None` exactly where the queue is empty.
    pub fn pop<L: Ledger>(&mut self, steps: &mut Steps<L>) -> Option<(usize, Moment)>
        ensures value { result ≡ self.old.next }
        ensures least { IsNext self.old.moments self.old.next }
        ensures rest { self.new.moments ≡ without self.old.moments result }
        ensures cost { TakesSteps (len self.old.moments) steps.old steps.new }
    {
        let next = self.first()?;
        self.take_next(steps);
        Some(next)
    }

    /// Takes the next entry out if it is at this moment, and answers its id. `None` exactly where there is no next entry or
    /// it is at another moment: then nothing changes and no step is counted. In line, since it is asked once for each fact
    /// that is given.
    #[inline(always)]
    pub fn pop_at<L: Ledger>(&mut self, moment: &Due, steps: &mut Steps<L>) -> Option<usize>
        ensures some { IfSome result (λ id. self.old.next ≡ Some (id, moment.now)) }
        ensures none { IfNone result ((id : ℕ) → self.old.next ≢ Some (id, moment.now)) }
        ensures least { IsNext self.old.moments self.old.next }
        ensures rest { IfSome result (λ id. self.new.moments ≡ remove self.old.moments id) }
        ensures unchanged { IfNone result (self.new ≡ self.old) }
        ensures cost { TakesSteps (len self.old.moments) steps.old steps.new }
        ensures idle { IfNone result (steps.new ≡ steps.old) }
    {
        let first = self.entries.first()?;
        if !moment.is_of(first, &self.instants) {
            return None;
        }
        let id = self.entries[self.next].id as usize;
        self.take_next(steps);
        Some(id)
    }

    // Takes out the next entry.
    fn take_next<L: Ledger>(&mut self, steps: &mut Steps<L>)
        requires { IsSome self.old.next }
        ensures rest { self.new.moments ≡ without self.old.moments self.old.next }
        ensures cost { TakesSteps (len self.old.moments) steps.old steps.new }
    {
        let place = self.next;
        let span = self.entries[place].span;
        take_least(
            &mut self.entries,
            &mut self.places,
            &self.instants,
            place,
            steps,
        );
        self.next = next_tie(&self.entries, place, span);
    }
}
