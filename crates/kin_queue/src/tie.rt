//! Entries at the moment of the first one.
//!
//! They are the top of the heap, since no entry is earlier than the one above it. A queue gives a lower one of them first:
//! the entry that takes its place then has a short way down, where from the first place it would have the longest.

ghost use Rattle.std.specs.Prelude.{◌≡◌, ◌<◌, length, IsTrue};
ghost use Rattle.kin_queue.specs.declared.instants.Instants.{Instants};
ghost use Rattle.kin_queue.specs.Tickets.{moment_in, entries_of, IsStamped, AreStamped};
ghost use Rattle.kin_queue.specs.Heap.{IsWithFirst};

use crate::ticket::Ticket;
use kin_instant::key::order_by_keys;
use std::cmp::Ordering;

/// The place of an entry at the moment of the first one, after one of this span left this place. It is the first place,
/// where the first entry has another span.
#[inline(always)]
pub fn next_tie(entries: &[Ticket], place: usize, span: u64) -> usize
    ensures { (s : Instants) → AreStamped s entries.now → IsWithFirst (entries_of s entries.now) result }
{
    let Some(first) = entries.first() else {
        return 0;
    };
    if first.span != span {
        return 0;
    }
    lowest_tie(entries, place.saturating_sub(1) / 2)
}

// Such an entry below a place, or else below the first one: from one to the next, as long as there is one right below.
#[inline(never)]
fn lowest_tie(entries: &[Ticket], start: usize) -> usize
    requires some { 0 < length entries.now }
    ensures { (s : Instants) → AreStamped s entries.now → IsWithFirst (entries_of s entries.now) result }
{
    let mut place = tied_or_first(entries, start);
    'levels: while 2 * place + 2 < entries.len() {
        let left = 2 * place + 1;
        if is_tied(entries, left) {
            place = left;
        } else if is_tied(entries, left + 1) {
            place = left + 1;
        } else {
            return place;
        }
    }
    place
}

// This place, if there is such an entry, or else the first one.
#[inline(always)]
fn tied_or_first(entries: &[Ticket], place: usize) -> usize
    requires some { 0 < length entries.now }
    ensures inside { result < length entries.now }
    ensures tied { (s : Instants) → AreStamped s entries.now → IsWithFirst (entries_of s entries.now) result }
{
    if place > 0 && place < entries.len() && is_tied(entries, place) {
        return place;
    }
    0
}

// Whether the keys show that the entry at this place is at the moment of the first one.
#[inline(always)]
fn is_tied(entries: &[Ticket], place: usize) -> bool
    requires inside { place < length entries.now }
    ensures { IsTrue result → (s : Instants) → AreStamped s entries.now → IsWithFirst (entries_of s entries.now) place }
{
    is_at_once(&entries[place], &entries[0])
}

// Whether the keys of two tickets show that they are at one moment. Most pairs of spans differ.
#[inline(always)]
fn is_at_once(x: &Ticket, y: &Ticket) -> bool
    ensures { IsTrue result → (s : Instants) → IsStamped s x.now → IsStamped s y.now → moment_in s x.now ≡ moment_in s y.now }
{
    x.span == y.span && matches!(order_by_keys(&x.key(), &y.key()), Some(Ordering::Equal))
}
