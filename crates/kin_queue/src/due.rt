//! Moments that entries are compared with.

ghost use Rattle.std.specs.Prelude.{◌≡◌, ◌↔◌, IsTrue};
ghost use Rattle.kin_num.specs.Canonical.{IsCanonical};
ghost use Rattle.kin_queue.specs.Tickets.{moment_in, IsStamped};

use crate::instants::Instants;
use crate::ticket::Ticket;
use kin_instant::key::{Key, key_of, order_by_keys};
use kin_num::{Instant, Moment, Phase, Shape};
use std::cmp::Ordering;
use std::marker::Model;

/// A moment with its key, which is made once for all entries that are compared with it.
#[derive(Drop)]
pub struct Due {
    at: Moment,
    key: Key,
}

impl Model for Due {
    ghost use Rattle.kin_num.specs.declared.instant.Moment.{Moment};
    ghost use Rattle.kin_queue.specs.Tickets.{HasKey};

    ghost Value = { Moment };

    ghost view = { λ d. d.at };

    ghost invariant = { λ d. HasKey d.key d.at };
}

impl Due {
    /// The moment with its key. Takes one division, and at an irrational instant an integer square root.
    pub fn new(at: &Moment) -> Due
        ensures { result ≡ at.now }
    {
        let key = key_of(at);
        // Made of its parts, so that no gap between them is copied.
        let (at, phase) = (at.at, at.phase);
        Due {
            at: Moment { at, phase },
            key,
        }
    }

    /// The moment, whose instant is canonical.
    pub fn moment(&self) -> &Moment
        ensures value { result.now ≡ self.now }
        ensures canonical { IsCanonical self.now.at }
    {
        &self.at
    }

    // Whether an entry is at this moment. A moment is read only where the keys don't tell.
    #[inline(always)]
    pub(crate) fn is_of(&self, entry: &Ticket, instants: &Instants) -> bool
        requires stamped { IsStamped instants.now entry.now }
        ensures { IsTrue result ↔ (moment_in instants.now entry.now ≡ self.now) }
    {
        match order_by_keys(&entry.key(), &self.key) {
            Some(order) => matches!(order, Ordering::Equal),
            None => self.is_moment_of(entry, instants),
        }
    }

    // The same by the moments. Out of line.
    #[inline(never)]
    fn is_moment_of(&self, entry: &Ticket, instants: &Instants) -> bool
        requires stamped { IsStamped instants.now entry.now }
        ensures { IsTrue result ↔ (moment_in instants.now entry.now ≡ self.now) }
    {
        is_same(&entry.moment(instants), &self.at)
    }
}

// Whether two moments are one.
fn is_same(x: &Moment, y: &Moment) -> bool
    ensures { IsTrue result ↔ (x.now ≡ y.now) }
{
    is_same_phase(x.phase, y.phase) && is_same_instant(&x.at, &y.at)
}

/// Whether two instants are one: whether their canonical forms are. Counts no step.
pub fn is_same_instant(x: &Instant, y: &Instant) -> bool
    ensures { IsTrue result ↔ (x.now ≡ y.now) }
{
    match (x.shape(), y.shape()) {
        (Shape::Ratio { n, d }, Shape::Ratio { n: m, d: e }) => n == m && d == e,
        (
            Shape::Root { a, b, c, upper },
            Shape::Root {
                a: a2,
                b: b2,
                c: c2,
                upper: upper2,
            },
        ) => a == a2 && b == b2 && c == c2 && upper == upper2,
        _ => false,
    }
}

fn is_same_phase(x: Phase, y: Phase) -> bool
    ensures { IsTrue result ↔ (x ≡ y) }
{
    match (x, y) {
        (Phase::At, Phase::At) => true,
        (Phase::After, Phase::After) => true,
        _ => false,
    }
}
