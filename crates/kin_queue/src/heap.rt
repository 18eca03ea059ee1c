//! The heap below the queue: entries with an earliest one first, and the place of each id.
//!
//! Right below place p are the places 2p + 1 and 2p + 2, and no entry is earlier than the one above it. A hole rises or
//! sinks to where an entry fits, so that each other entry on its way moves once. An entry is a ticket of 16 bytes; the
//! instants are in lists of their own, by id, and are looked at only where two keys don't decide which one is earlier.

ghost use Rattle.std.specs.Prelude.{◌≡◌, ◌≢◌, ◌⊎◌, ◌↔◌, ℕ, ◌+◌, ◌*◌, ◌^◌, ◌<◌, ◌≤◌, length, slice_set, slice_index_or, None, IsTrue, vec_len, vec_capacity};
ghost use Rattle.std.specs.FinMap.{get, insert, remove, from_entries};
ghost use Rattle.std.specs.Ordering.{nat_cmp};
ghost use Rattle.kin_num.specs.Order.{IsEarlier};
ghost use Rattle.kin_num.specs.declared.instant.Moment.{Moment as Time};
ghost use Rattle.kin_queue.specs.Cost.{TakesSteps};
ghost use Rattle.kin_queue.specs.Tickets.{moment_in, entry_of, entries_of, IsStamped, AreStamped};
ghost use Rattle.kin_queue.specs.Heap.{IsKeyed, IsWithFirst};
ghost use Rattle.kin_queue.specs.Hole.{IsOpen, FitsBelow, FitsAbove, Stands, StandsOutside, HasMoved, IsEarliestBelow, RisesWithin};

use crate::instants::Instants;
use crate::ticket::Ticket;
use kin_instant::key::order_by_keys;
use kin_instant::order::compare_moments;
use kin_num::Steps;
use std::cmp::Ordering;
use std::sync::ledger::Ledger;

/// Puts an entry in, for which there is room. Its id isn't there yet.
#[inline(always)]
pub fn put_in<L: Ledger>(
    entries: &mut Vec<Ticket>,
    places: &mut [u32],
    instants: &Instants,
    entry: Ticket,
    steps: &mut Steps<L>,
)
    requires heap { IsKeyed instants.now entries.old.items places.old }
    requires absent { get (from_entries {R = nat_cmp} (entries_of instants.now entries.old.items)) entry.id ≡ None }
    requires stamped { IsStamped instants.now entry }
    requires room { vec_len entries.old < vec_capacity entries.old }
    requires few { length entries.old.items < 2 ^ 32 }
    requires known { entry.id < length places.old }
    ensures heap { IsKeyed instants.now entries.new.items places.new }
    ensures moments { from_entries {R = nat_cmp} (entries_of instants.now entries.new.items) ≡ insert (from_entries (entries_of instants.now entries.old.items)) entry.id (moment_in instants.now entry) }
    ensures cost { TakesSteps (length entries.old.items) steps.old steps.new }
{
    let end = entries.len();
    entries.push_reserved(entry);
    lift(entries, places, instants, end, &entry, steps);
}

// Puts the last entry where it fits. In line, as its callers are.
#[inline(always)]
fn lift<L: Ledger>(
    entries: &mut [Ticket],
    places: &mut [u32],
    instants: &Instants,
    end: usize,
    entry: &Ticket,
    steps: &mut Steps<L>,
)
    requires open { IsOpen instants.now entries.old places.old end entry.now }
    requires last { length entries.old ≡ end + 1 }
    ensures heap { IsKeyed instants.now entries.new places.new }
    ensures stands { (e : ℕ × Time) → Stands (entries_of instants.now entries.new) e ↔ ((e ≡ entry_of instants.now entry.now) ⊎ StandsOutside (entries_of instants.now entries.old) end e) }
    ensures cost { RisesWithin 1 (length entries.old * length entries.old) steps.old steps.new }
{
    let hole = rise(entries, places, instants, end, entry, steps);
    put(entries, places, hole, *entry);
}

/// Takes out the entry at a place. The last entry takes its place and moves to where it fits.
pub fn take_out<L: Ledger>(
    entries: &mut Vec<Ticket>,
    places: &mut [u32],
    instants: &Instants,
    place: usize,
    steps: &mut Steps<L>,
)
    requires heap { IsKeyed instants.now entries.old.items places.old }
    requires place { place < length entries.old.items }
    ensures heap { IsKeyed instants.now entries.new.items places.new }
    ensures moments { (d : ℕ × Time) → from_entries {R = nat_cmp} (entries_of instants.now entries.new.items) ≡ remove (from_entries (entries_of instants.now entries.old.items)) (slice_index_or (entries_of instants.now entries.old.items) place d).0 }
    ensures cost { TakesSteps (length entries.old.items) steps.old steps.new }
{
    let last = entries.take_last();
    if place == entries.len() {
        return;
    }
    settle(entries, places, instants, place, &last, steps);
}

/// Takes out an entry at the moment of the first one. The last entry takes its place and sinks to where it fits: none
/// above is later.
#[inline(always)]
pub fn take_least<L: Ledger>(
    entries: &mut Vec<Ticket>,
    places: &mut [u32],
    instants: &Instants,
    place: usize,
    steps: &mut Steps<L>,
)
    requires heap { IsKeyed instants.now entries.old.items places.old }
    requires place { place < length entries.old.items }
    requires least { IsWithFirst (entries_of instants.now entries.old.items) place }
    ensures heap { IsKeyed instants.now entries.new.items places.new }
    ensures moments { (d : ℕ × Time) → from_entries {R = nat_cmp} (entries_of instants.now entries.new.items) ≡ remove (from_entries (entries_of instants.now entries.old.items)) (slice_index_or (entries_of instants.now entries.old.items) place d).0 }
    ensures cost { TakesSteps (length entries.old.items) steps.old steps.new }
{
    let last = entries.take_last();
    let end = entries.len();
    if place == end {
        return;
    }
    lower(entries, places, instants, place, &last, steps);
}

// Puts the entry where it fits, at a hole or below it.
#[inline(never)]
fn lower<L: Ledger>(
    entries: &mut [Ticket],
    places: &mut [u32],
    instants: &Instants,
    start: usize,
    entry: &Ticket,
    steps: &mut Steps<L>,
)
    requires open { IsOpen instants.now entries.old places.old start entry.now }
    requires above { FitsBelow (entries_of instants.now entries.old) start (entry_of instants.now entry.now) }
    ensures heap { IsKeyed instants.now entries.new places.new }
    ensures stands { (e : ℕ × Time) → Stands (entries_of instants.now entries.new) e ↔ ((e ≡ entry_of instants.now entry.now) ⊎ StandsOutside (entries_of instants.now entries.old) start e) }
    ensures cost { RisesWithin 1 (length entries.old * length entries.old) steps.old steps.new }
{
    let hole = sink(entries, places, instants, start, entry, steps);
    put(entries, places, hole, *entry);
}

// Puts the entry where it fits, beginning at a hole.
#[inline(never)]
fn settle<L: Ledger>(
    entries: &mut [Ticket],
    places: &mut [u32],
    instants: &Instants,
    start: usize,
    entry: &Ticket,
    steps: &mut Steps<L>,
)
    requires { IsOpen instants.now entries.old places.old start entry.now }
    ensures heap { IsKeyed instants.now entries.new places.new }
    ensures stands { (e : ℕ × Time) → Stands (entries_of instants.now entries.new) e ↔ ((e ≡ entry_of instants.now entry.now) ⊎ StandsOutside (entries_of instants.now entries.old) start e) }
    ensures cost { RisesWithin 1 (length entries.old * length entries.old) steps.old steps.new }
{
    let hole = find_hole(entries, places, instants, start, entry, steps);
    put(entries, places, hole, *entry);
}

// Moves the hole to where the entry fits.
#[inline(always)]
fn find_hole<L: Ledger>(
    entries: &mut [Ticket],
    places: &mut [u32],
    instants: &Instants,
    start: usize,
    entry: &Ticket,
    steps: &mut Steps<L>,
) -> usize
    requires { IsOpen instants.now entries.old places.old start entry.now }
    ensures moved { HasMoved (entry_of instants.now entry.now) (entries_of instants.now entries.old) start (entries_of instants.now entries.new) places.new result }
    ensures stamped { AreStamped instants.now entries.new }
    ensures above { FitsBelow (entries_of instants.now entries.new) result (entry_of instants.now entry.now) }
    ensures below { FitsAbove (entries_of instants.now entries.new) result (entry_of instants.now entry.now) }
    ensures cost { RisesWithin 1 (length entries.old * length entries.old) steps.old steps.new }
{
    let hole = rise(entries, places, instants, start, entry, steps);
    if hole != start {
        return hole;
    }
    sink(entries, places, instants, start, entry, steps)
}

// Moves the hole up past all later entries.
#[inline(always)]
fn rise<L: Ledger>(
    entries: &mut [Ticket],
    places: &mut [u32],
    instants: &Instants,
    start: usize,
    entry: &Ticket,
    steps: &mut Steps<L>,
) -> usize
    requires { IsOpen instants.now entries.old places.old start entry.now }
    ensures moved { HasMoved (entry_of instants.now entry.now) (entries_of instants.now entries.old) start (entries_of instants.now entries.new) places.new result }
    ensures stamped { AreStamped instants.now entries.new }
    ensures above { FitsBelow (entries_of instants.now entries.new) result (entry_of instants.now entry.now) }
    ensures below { result ≢ start → FitsAbove (entries_of instants.now entries.new) result (entry_of instants.now entry.now) }
    ensures cost { RisesWithin 1 (start + 1) steps.old steps.new }
{
    let mut hole = start;
    while hole > 0 {
        let parent = (hole - 1) / 2;
        if !is_earlier(entry, &entries[parent], instants, steps) {
            return hole;
        }
        let above = entries[parent];
        put(entries, places, hole, above);
        hole = parent;
    }
    hole
}

// Moves the hole down past all earlier entries, by way of the earlier one of two. The last entry may be alone below.
#[inline(always)]
fn sink<L: Ledger>(
    entries: &mut [Ticket],
    places: &mut [u32],
    instants: &Instants,
    start: usize,
    entry: &Ticket,
    steps: &mut Steps<L>,
) -> usize
    requires hollow { IsOpen instants.now entries.old places.old start entry.now }
    requires above { FitsBelow (entries_of instants.now entries.old) start (entry_of instants.now entry.now) }
    ensures moved { HasMoved (entry_of instants.now entry.now) (entries_of instants.now entries.old) start (entries_of instants.now entries.new) places.new result }
    ensures stamped { AreStamped instants.now entries.new }
    ensures above { FitsBelow (entries_of instants.now entries.new) result (entry_of instants.now entry.now) }
    ensures below { FitsAbove (entries_of instants.now entries.new) result (entry_of instants.now entry.now) }
    ensures cost { RisesWithin ((start + 1) * (start + 1)) (length entries.old * length entries.old) steps.old steps.new }
{
    let mut hole = start;
    'levels: while 2 * hole + 2 < entries.len() {
        let child = earlier_below(entries, instants, hole, steps);
        if !is_earlier(&entries[child], entry, instants, steps) {
            return hole;
        }
        let below = entries[child];
        put(entries, places, hole, below);
        hole = child;
    }
    let last = 2 * hole + 1;
    if last >= entries.len() {
        return hole;
    }
    if !is_earlier(&entries[last], entry, instants, steps) {
        return hole;
    }
    let below = entries[last];
    put(entries, places, hole, below);
    last
}

// The place of the earlier one of the two entries right below a place. It is a sum, so that no branch has to be guessed.
#[inline(always)]
fn earlier_below<L: Ledger>(
    entries: &[Ticket],
    instants: &Instants,
    place: usize,
    steps: &mut Steps<L>,
) -> usize
    requires stamped { AreStamped instants.now entries.now }
    requires both { 2 * place + 2 < length entries.now }
    ensures child { IsEarliestBelow (entries_of instants.now entries.now) place result }
    ensures low { steps.old ≤ steps.new }
    ensures high { steps.new ≤ steps.old + 1 }
{
    let left = 2 * place + 1;
    let below = &entries[left..];
    left + usize::from(is_earlier(&below[1], &below[0], instants, steps))
}

// Whether the moment of one ticket is earlier than that of the other one. It is made in line, since most pairs of spans
// differ.
#[inline(always)]
fn is_earlier<L: Ledger>(x: &Ticket, y: &Ticket, instants: &Instants, steps: &mut Steps<L>) -> bool
    requires left { IsStamped instants.now x.now }
    requires right { IsStamped instants.now y.now }
    ensures earlier { IsTrue result ↔ IsEarlier (moment_in instants.now x.now) (moment_in instants.now y.now) }
    ensures low { steps.old ≤ steps.new }
    ensures high { steps.new ≤ steps.old + 1 }
{
    if x.span != y.span {
        return x.span < y.span;
    }
    is_earlier_in_span(x, y, instants, steps)
}

// The same by the whole keys.
#[inline(always)]
fn is_earlier_in_span<L: Ledger>(
    x: &Ticket,
    y: &Ticket,
    instants: &Instants,
    steps: &mut Steps<L>,
) -> bool
    requires left { IsStamped instants.now x.now }
    requires right { IsStamped instants.now y.now }
    ensures earlier { IsTrue result ↔ IsEarlier (moment_in instants.now x.now) (moment_in instants.now y.now) }
    ensures low { steps.old ≤ steps.new }
    ensures high { steps.new ≤ steps.old + 1 }
{
    match order_by_keys(&x.key(), &y.key()) {
        Some(order) => matches!(order, Ordering::Less),
        None => is_earlier_moment(x, y, instants, steps),
    }
}

// The same by the moments, where the keys don't decide. Out of line.
#[inline(never)]
fn is_earlier_moment<L: Ledger>(
    x: &Ticket,
    y: &Ticket,
    instants: &Instants,
    steps: &mut Steps<L>,
) -> bool
    requires left { IsStamped instants.now x.now }
    requires right { IsStamped instants.now y.now }
    ensures earlier { IsTrue result ↔ IsEarlier (moment_in instants.now x.now) (moment_in instants.now y.now) }
    ensures count { steps.new ≡ steps.old + 1 }
{
    matches!(
        compare_moments(&x.moment(instants), &y.moment(instants), steps),
        Ordering::Less
    )
}

// Puts an entry at a place. Its id is read there, so that the entry is copied in one piece.
fn put(entries: &mut [Ticket], places: &mut [u32], place: usize, entry: Ticket)
    requires place { place < length entries.old }
    requires few { length entries.old ≤ 2 ^ 32 }
    requires known { entry.id < length places.old }
    ensures entries { entries.new ≡ slice_set entries.old place entry }
    ensures places { places.new ≡ slice_set places.old entry.id place }
{
    entries[place] = entry;
    places[entries[place].id as usize] = place as u32;
}
