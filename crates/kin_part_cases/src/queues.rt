//! Entries come out of an event queue by rising moment.

ghost use Rattle.std.specs.Prelude.{◌≡◌, ◌<◌};

use kin_instant::ratio::ratio;
use kin_instant::roots::Roots;
use kin_instant::solve::roots;
use kin_num::{Instant, Moment, NoMemory, Phase, Poly, Steps};
use kin_queue::due::Due;
use kin_queue::queue::Queue;
use std::alloc::Global;
use std::marker::Brand;
use std::sync::ledger::{Blank, Ledger};
use std::test::Fail;

/// An id with its moment.
type Entry = (usize, Moment);

/// What is put in and what comes out.
#[derive(Drop)]
struct Course<'a> {
    /// All entries, in the order in which they are put in.
    entries: &'a [Entry],
    /// Those that come first.
    early: &'a [Entry],
    /// An id that is then taken out.
    gone: Option<usize>,
    /// Those that come afterwards.
    late: &'a [Entry],
}

fn at(instant: Instant) -> Moment {
    Moment {
        at: instant,
        phase: Phase::At,
    }
}

/// The greater root, where there are two, or else 0.
fn greater_root(poly: &Poly) -> Instant {
    match roots(poly) {
        Roots::Two(_, greater) => greater,
        _ => ratio(0, 1),
    }
}

/// The greater root of `t^2 - 2`.
fn root_two() -> Instant {
    greater_root(&Poly::new(1, 0, -2))
}

/// Puts entries in. An id that is there already is passed over.
fn fill<L: Ledger>(
    queue: &mut Queue,
    entries: &[Entry],
    steps: &mut Steps<L>,
) -> Result<(), NoMemory> {
    for (id, moment) in entries {
        if !queue.has(*id) {
            queue.insert(*id, *moment, steps)?;
        }
    }
    Ok(())
}

/// Whether this entry comes: `first` gives it, and `pop` takes it out.
fn comes<L: Ledger>(queue: &mut Queue, entry: &Entry, steps: &mut Steps<L>) -> bool {
    queue.first() == Some(*entry) && queue.pop(steps) == Some(*entry)
}

/// Whether these entries come one after the other.
fn all_come<L: Ledger>(queue: &mut Queue, entries: &[Entry], steps: &mut Steps<L>) -> bool {
    for entry in entries {
        if !comes(queue, entry, steps) {
            return false;
        }
    }
    true
}

/// Whether nothing is left.
fn is_empty<L: Ledger>(queue: &mut Queue, steps: &mut Steps<L>) -> bool {
    queue.first().is_none() && queue.pop(steps).is_none()
}

/// Whether all entries come early and late as they should, and none is left then.
fn run<L: Ledger>(alloc: Global, course: &Course<'_>, blank: Blank) -> Result<bool, NoMemory>
    requires name { blank.name ≡ L.name }
    requires parts { blank.parts ≡ L.parts }
    requires some { 0 < L.parts }
{
    let mut steps = Steps::<L>::open(blank);
    let mut queue = Queue::new(alloc);
    fill(&mut queue, course.entries, &mut steps)?;
    let are_early = all_come(&mut queue, course.early, &mut steps);
    if let Some(id) = course.gone {
        if queue.has(id) {
            queue.remove(id, &mut steps);
        }
    }
    let are_late = all_come(&mut queue, course.late, &mut steps);
    Ok(are_early && are_late && is_empty(&mut queue, &mut steps))
}

/// The same with a counter of its own.
fn runs(alloc: Global, course: &Course<'_>) -> Result<bool, NoMemory> {
    run::<Brand>(alloc, course, Blank::new(1))
}

#[test]
fn entries_come_by_rising_moment(rt: HostRuntime) -> Result<(), Fail> {
    let at_root = (4, at(root_two()));
    let three_halves = (7, at(ratio(3, 2)));
    let just_after = Moment {
        at: ratio(3, 2),
        phase: Phase::After,
    };
    let course = Course {
        entries: &[three_halves, at_root, (9, just_after)],
        early: &[at_root],
        gone: Some(7),
        late: &[(9, just_after)],
    };
    assert!(rt; runs(rt.alloc(), &course)?);
    Ok(())
}

/// The time of an id below 16, and the id of a time: 7 * 7 is 1 more than a multiple of 16.
fn time_of(id: usize) -> usize
    ensures { result < 16 }
{
    id % 16 * 7 % 16
}

fn moment(time: usize) -> Moment
    requires { time < 16 }
{
    at(ratio(time as i64, 1))
}

/// The ids below 16, whose times jump up and down.
fn by_id(alloc: Global) -> Result<Vec<Entry>, NoMemory> {
    let mut entries = Vec::new(alloc);
    for id in 0..16 {
        entries
            .push((id, moment(time_of(id))))
            .map_err(|_| NoMemory)?;
    }
    Ok(entries)
}

/// The same entries by their times, without the one at time 5.
fn by_time(alloc: Global) -> Result<Vec<Entry>, NoMemory> {
    let mut entries = Vec::new(alloc);
    for time in 0..16 {
        if time != 5 {
            entries
                .push((time_of(time), moment(time)))
                .map_err(|_| NoMemory)?;
        }
    }
    Ok(entries)
}

#[test]
fn many_entries_come_by_rising_moment(rt: HostRuntime) -> Result<(), Fail> {
    let entries = by_id(rt.alloc())?;
    let late = by_time(rt.alloc())?;
    let course = Course {
        entries: &entries,
        early: &[],
        gone: Some(3),
        late: &late,
    };
    assert!(rt; runs(rt.alloc(), &course)?);
    Ok(())
}

/// The root of 2 and two of its convergents, one on either side. All three have one span.
#[test]
fn close_moments_come_in_order(rt: HostRuntime) -> Result<(), Fail> {
    let above = (1, at(ratio(131_836_323, 93_222_358)));
    let root = (2, at(root_two()));
    let below = (3, at(ratio(54_608_393, 38_613_965)));
    let course = Course {
        entries: &[above, root, below],
        early: &[below, root, above],
        gone: None,
        late: &[],
    };
    assert!(rt; runs(rt.alloc(), &course)?);
    Ok(())
}

/// The greatest whole instant, `2^31`, and others near it, among them the greatest root.
#[test]
fn the_last_moments_come_in_order(rt: HostRuntime) -> Result<(), Fail> {
    let whole = (1, at(greater_root(&Poly::new(1, -2_147_483_648, 0))));
    let below = (2, at(greater_root(&Poly::new(1, -2_147_483_648, 1))));
    let above = (3, at(greater_root(&Poly::new(1, -2_147_483_648, -1))));
    let asked = (4, at(ratio(2_147_483_647, 1)));
    let last = (
        5,
        at(greater_root(&Poly::new(1, -2_147_483_648, -536_870_912))),
    );
    let course = Course {
        entries: &[whole, last, below, above, asked],
        early: &[asked, below, whole],
        gone: None,
        late: &[above, last],
    };
    assert!(rt; runs(rt.alloc(), &course)?);
    Ok(())
}

/// The ids that are due at a moment.
#[derive(Drop)]
struct Batch<'a> {
    at: Moment,
    ids: &'a [usize],
}

fn due(at: Moment, ids: &[usize]) -> Batch<'_> {
    Batch { at, ids }
}

/// Whether `pop_at` gives these ids, in any order, and no other.
fn comes_whole<L: Ledger>(queue: &mut Queue, batch: &Batch<'_>, steps: &mut Steps<L>) -> bool {
    let due = Due::new(&batch.at);
    for _ in batch.ids {
        let Some(id) = queue.pop_at(&due, steps) else {
            return false;
        };
        if !batch.ids.contains(&id) {
            return false;
        }
    }
    queue.pop_at(&due, steps).is_none()
}

/// Whether the batches come one after the other, and nothing is left then.
fn give<L: Ledger>(
    alloc: Global,
    entries: &[Entry],
    batches: &[Batch<'_>],
    blank: Blank,
) -> Result<bool, NoMemory>
    requires name { blank.name ≡ L.name }
    requires parts { blank.parts ≡ L.parts }
    requires some { 0 < L.parts }
{
    let mut steps = Steps::<L>::open(blank);
    let mut queue = Queue::new(alloc);
    fill(&mut queue, entries, &mut steps)?;
    for batch in batches {
        if !comes_whole(&mut queue, batch, &mut steps) {
            return Ok(false);
        }
    }
    Ok(is_empty(&mut queue, &mut steps))
}

/// The same with a counter of its own.
fn gives(alloc: Global, entries: &[Entry], batches: &[Batch<'_>]) -> Result<bool, NoMemory> {
    give::<Brand>(alloc, entries, batches, Blank::new(1))
}

/// Ties at a fraction and at a root, a fraction that has the root's span, and moments that aren't the next.
#[test]
fn entries_come_at_their_moment(rt: HostRuntime) -> Result<(), Fail> {
    let root = at(root_two());
    let close = at(ratio(131_836_323, 93_222_358));
    let later = at(ratio(3, 2));
    let last = Moment {
        at: ratio(3, 2),
        phase: Phase::After,
    };
    let entries = [
        (1, later),
        (2, root),
        (3, close),
        (4, last),
        (5, root),
        (6, later),
    ];
    let batches = [
        due(later, &[]),
        due(close, &[]),
        due(root, &[2, 5]),
        due(root, &[]),
        due(close, &[3]),
        due(last, &[]),
        due(later, &[1, 6]),
        due(last, &[4]),
        due(last, &[]),
    ];
    assert!(rt; gives(rt.alloc(), &entries, &batches)?);
    Ok(())
}

fn side_of(id: usize) -> usize
    ensures { result < 16 }
{
    id % 2
}

/// The ids below 16: the even ones at one moment, the odd ones at the next.
fn in_turn(alloc: Global) -> Result<Vec<Entry>, NoMemory> {
    let mut entries = Vec::new(alloc);
    for id in 0..16 {
        entries
            .push((id, moment(side_of(id))))
            .map_err(|_| NoMemory)?;
    }
    Ok(entries)
}

/// Eight entries at each of two moments.
#[test]
fn many_ties_come_at_their_moment(rt: HostRuntime) -> Result<(), Fail> {
    let entries = in_turn(rt.alloc())?;
    let batches = [
        due(moment(0), &[0, 2, 4, 6, 8, 10, 12, 14]),
        due(moment(1), &[1, 3, 5, 7, 9, 11, 13, 15]),
    ];
    assert!(rt; gives(rt.alloc(), &entries, &batches)?);
    Ok(())
}
