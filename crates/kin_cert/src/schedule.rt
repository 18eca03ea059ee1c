//! When the live facts fail.

ghost use Rattle.std.specs.Prelude.{◌≡◌, ◌≢◌, ◌⊎◌, ◌↔◌, ℕ, [], None, Some, IsSome, IsTrue, IsFalse, IfSome, IfNone, MatchOption, OnOk, OnErr, IfOk};
ghost use Rattle.std.specs.FinMap.{get, insert, remove, empty, len};
ghost use Rattle.kin_num.specs.declared.instant.Moment.{Moment as Time};
ghost use Rattle.kin_num.specs.Order.{IsEarlier};
ghost use Rattle.kin_queue.specs.Agenda.{IsLeast};
ghost use Rattle.kin_queue.specs.Cost.{TakesSteps};
ghost use Rattle.kin_cert.specs.Schedules.{just_after};

use kin_instant::order::compare;
use kin_instant::ratio::ratio;
use kin_num::{Instant, Moment, NoMemory, Phase, Steps};
use kin_pointers::ids::Ids;
use kin_queue::due::{Due, is_same_instant};
use kin_queue::queue::Queue;
use std::alloc::Global;
use std::cmp::Ordering;
use std::marker::Model;
use std::sync::ledger::Ledger;

/// The ids of the facts that will fail, each with its moment.
///
/// Half of all failures come just after the instant at which their facts are born: a sign 0 that is left again. Such
/// ids are in a side list of one moment, and are never compared there. While the list has ids, an id with another
/// moment goes to the queue.
#[derive(Drop)]
pub(crate) struct Schedule {
    queue: Queue,
    /// The ids of the side list.
    soon: Ids,
    /// The ids of the side list have the moment just after this instant. Where there are none it means nothing.
    soon_from: Instant,
}

impl Model for Schedule {
    ghost use Rattle.std.specs.FinMap.{FinMap};
    ghost use Rattle.std.specs.Ordering.{nat_cmp};
    ghost use Rattle.kin_num.specs.declared.instant.Moment.{Moment};
    ghost use Rattle.kin_cert.specs.Schedules.{schedule_code, with_each, just_after, AreBeside};

    ghost Value = { FinMap nat_cmp Moment };

    ghost coded = { schedule_code };

    ghost view = { λ s. with_each s.queue.moments (just_after s.soon_from) s.soon };

    ghost invariant = { λ s. AreBeside s.queue.moments s.soon };
}

impl Schedule {
    /// No ids.
    pub(crate) fn new(alloc: Global) -> Schedule
        ensures { result ≡ empty }
    {
        Schedule {
            queue: Queue::new(alloc),
            soon: Ids::new(alloc),
            soon_from: ratio(0, 1),
        }
    }

    /// No ids, with room for so many.
    pub(crate) fn with_room(alloc: Global, count: usize) -> Result<Schedule, NoMemory>
        ensures { IfOk result (λ s. s ≡ empty) }
    {
        Ok(Schedule {
            queue: Queue::with_room(alloc, count)?,
            soon: Ids::new(alloc),
            soon_from: ratio(0, 1),
        })
    }

    /// Puts in an id that isn't there yet, at a moment. Want of memory changes nothing. It is in line, since its
    /// callers usually know the phase.
    #[inline(always)]
    pub(crate) fn insert<L: Ledger>(
        &mut self,
        id: usize,
        at: &Moment,
        steps: &mut Steps<L>,
    ) -> Result<(), NoMemory>
        requires absent { get self.old id ≡ None }
        ensures ok { OnOk result (self.new ≡ insert self.old id at.now) }
        ensures err { OnErr result (self.new ≡ self.old) }
        ensures cost { TakesSteps (len self.old) steps.old steps.new }
    {
        at.at.recall_canonical();
        if !may_join(&self.soon, &self.soon_from, at) {
            // Made of its parts, so that no gap between them is copied.
            let at = Moment {
                at: at.at,
                phase: at.phase,
            };
            return self.queue.insert(id, at, steps);
        }
        self.soon.insert(id)?;
        self.soon_from = at.at;
        Ok(())
    }

    /// Takes out an id that is there. In line, since it usually is one call of the queue.
    #[inline(always)]
    pub(crate) fn remove<L: Ledger>(&mut self, id: usize, steps: &mut Steps<L>)
        requires present { IsSome (get self.old id) }
        ensures rest { self.new ≡ remove self.old id }
        ensures cost { TakesSteps (len self.old) steps.old steps.new }
    {
        if self.queue.has(id) {
            self.queue.remove(id, steps);
            return;
        }
        self.soon.remove(id);
    }

    /// The least moment of an id, or `None` exactly where there is no id. Compares moments at most
    /// once, which isn't counted.
    #[inline(always)]
    pub(crate) fn least(&self) -> Option<Moment>
        ensures { MatchOption result (self.now ≡ empty) (λ m. (id : ℕ) × IsLeast self.now (id, m)) }
    {
        self.soon_from.recall_canonical();
        let Some(next) = self.queue.first() else {
            return if self.soon.is_empty() {
                None
            } else {
                Some(moment_after(self.soon_from))
            };
        };
        if comes_first(&next.1, &self.soon, &self.soon_from) {
            Some(next.1)
        } else {
            Some(moment_after(self.soon_from))
        }
    }

    /// Takes an id of this moment out, before which there is none, or `None` exactly where no id has it. In line in the
    /// loops that give all facts of a moment.
    #[inline(always)]
    pub(crate) fn take_at<L: Ledger>(&mut self, moment: &Due, steps: &mut Steps<L>) -> Option<usize>
        requires first { (id : ℕ) (n : Time) → get self.old id ≡ Some n → ¬ (IsEarlier n moment.now) }
        ensures there { IfSome result (λ id. get self.old id ≡ Some moment.now) }
        ensures rest { IfSome result (λ id. self.new ≡ remove self.old id) }
        ensures none { IfNone result ((id : ℕ) → ¬ (get self.old id ≡ Some moment.now)) }
        ensures unchanged { IfNone result (self.new ≡ self.old) }
        ensures cost { TakesSteps (len self.old) steps.old steps.new }
        ensures idle { IfNone result (steps.new ≡ steps.old) }
    {
        if have_moment(&self.soon, &self.soon_from, moment.moment()) {
            let Some(id) = self.soon.pop() else {
                unreachable!()
            };
            return Some(id);
        }
        self.queue.pop_at(moment, steps)
    }
}

// Whether an id with this moment may join the side list.
fn may_join(soon: &Ids, soon_from: &Instant, at: &Moment) -> bool
    ensures after { IsTrue result → at.now ≡ just_after at.now.at }
    ensures same { IsTrue result → (soon.now ≡ []) ⊎ (soon_from.now ≡ at.now.at) }
{
    match at.phase {
        Phase::At => false,
        Phase::After => soon.is_empty() || is_same_instant(soon_from, &at.at),
    }
}

fn moment_after(at: Instant) -> Moment
    ensures { result ≡ just_after at }
{
    Moment {
        at,
        phase: Phase::After,
    }
}

// Whether the side list has ids, and this is their moment.
fn have_moment(soon: &Ids, soon_from: &Instant, moment: &Moment) -> bool
    ensures yes { IsTrue result → (soon.now ≢ []) × (just_after soon_from.now ≡ moment.now) }
    ensures other { IsFalse result → (soon.now ≡ []) ⊎ (just_after soon_from.now ≢ moment.now) }
{
    match moment.phase {
        Phase::At => false,
        Phase::After => !soon.is_empty() && is_same_instant(soon_from, &moment.at),
    }
}

// Whether a moment is earlier than that of the side list, or the list is empty.
fn comes_first(at: &Moment, soon: &Ids, soon_from: &Instant) -> bool
    ensures yes { IsTrue result → (soon.now ≡ []) ⊎ IsEarlier at.now (just_after soon_from.now) }
    ensures other { IsFalse result → (soon.now ≢ []) × ¬ (IsEarlier at.now (just_after soon_from.now)) }
{
    soon.is_empty() || comes_before(at, soon_from)
}

// Whether a moment is earlier than the one just after an instant.
fn comes_before(x: &Moment, at: &Instant) -> bool
    ensures { IsTrue result ↔ IsEarlier x.now (just_after at.now) }
{
    match compare(&x.at, at) {
        Ordering::Less => true,
        Ordering::Equal => matches!(x.phase, Phase::At),
        Ordering::Greater => false,
    }
}
