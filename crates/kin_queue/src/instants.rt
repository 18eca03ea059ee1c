//! Instants in few bytes, by id.

ghost use Rattle.std.specs.Prelude.{◌≡◌, ◌<◌, length, OnOk};
ghost use Rattle.kin_num.specs.Canonical.{IsCanonical};
ghost use Rattle.kin_queue.specs.Cells.{instant_in, IsHeld, IsHeldAt, AreKept, Extends};

use kin_num::{Instant, NoMemory, Shape};
use std::alloc::Global;

/// A list that has to grow becomes at least so much longer.
const MORE: usize = 64;

/// The fraction `n/d`, or no fraction where `d` is 0. A canonical fraction fits, unless its numerator is `2^31`.
#[derive(Clone, Copy)]
pub struct Cell {
    pub n: i32,
    pub d: u32,
}

/// An instant for each of some ids. A fraction takes 8 bytes; the roots, and the fractions that fit no cell, are in a list of
/// their own, which grows only when an id gets one.
#[derive(Drop)]
pub struct Instants {
    /// The fraction of each id, or none for an id whose instant is in the other list.
    pub cells: Vec<Cell>,
    /// The instant of each id that has no fraction in its cell. For another id it means nothing.
    pub roots: Vec<Instant>,
}

impl Instants {
    /// None yet.
    pub fn new(alloc: Global) -> Instants {
        Instants {
            cells: Vec::new(alloc),
            roots: Vec::new(alloc),
        }
    }

    /// None yet, with room for ids below `count`. Room that is never written takes no memory of the machine.
    pub fn with_room(alloc: Global, count: usize) -> Result<Instants, NoMemory> {
        Ok(Instants {
            cells: Vec::with_capacity(alloc, count)?,
            roots: Vec::with_capacity(alloc, count)?,
        })
    }

    /// The instant of an id.
    pub fn at(&self, id: usize) -> Instant
        requires held { IsHeld self.now id }
        requires canonical { IsCanonical (instant_in self.now id) }
        ensures { result ≡ instant_in self.now id }
    {
        let cell = self.cells[id];
        if cell.d == 0 {
            return self.roots[id];
        }
        Instant::of(Shape::Ratio {
            n: i64::from(cell.n),
            d: i64::from(cell.d),
        })
    }

    /// Writes the instant of an id down. All other ids keep theirs, also after want of memory. In line, so that a
    /// fraction takes one write.
    #[inline(always)]
    pub fn note(&mut self, id: usize, at: &Instant) -> Result<(), NoMemory>
        ensures noted { OnOk result (IsHeldAt self.new id at.now) }
        ensures kept { AreKept self.old id self.new }
    {
        let Shape::Ratio { n, d } = at.shape() else {
            return self.note_root(id, at);
        };
        let Ok(n) = i32::try_from(n) else {
            return self.note_root(id, at);
        };
        reach(&mut self.cells, id, Cell { n: 0, d: 1 })?;
        self.cells[id] = Cell {
            n,
            d: d.unsigned_abs() as u32,
        };
        Ok(())
    }

    // The same of an instant that fits no cell.
    #[inline(always)]
    fn note_root(&mut self, id: usize, at: &Instant) -> Result<(), NoMemory>
        ensures noted { OnOk result (IsHeldAt self.new id at.now) }
        ensures kept { AreKept self.old id self.new }
    {
        reach(&mut self.cells, id, Cell { n: 0, d: 1 })?;
        reach(&mut self.roots, id, *at)?;
        self.cells[id] = Cell { n: 0, d: 0 };
        self.roots[id] = *at;
        Ok(())
    }
}

/// Makes a list reach an id. If it has to grow, it does so by some ids at once, and the list sees to it that it isn't copied
/// often. In line, since it mostly reaches the id already.
#[inline(always)]
pub fn reach<T: Copy>(list: &mut Vec<T>, id: usize, blank: T) -> Result<(), NoMemory>
    ensures reached { OnOk result (id < length list.new.items) }
    ensures kept { Extends list.old.items list.new.items }
{
    if id < list.len() {
        return Ok(());
    }
    let Some(least) = id.checked_add(1) else {
        return Err(NoMemory);
    };
    list.resize(least.max(list.len().saturating_add(MORE)), blank)?;
    Ok(())
}
