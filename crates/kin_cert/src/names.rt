//! Which facts name each number.

ghost use Rattle.std.specs.Prelude.{◌≡◌, ℕ, ◌+◌, ◌*◌, ◌<◌, ◌^◌, [], cond, length, Some, None, IfOk, OnOk};
ghost use Rattle.kin_cert.specs.Names.{target_of, numbers_in, AreTargets, IsIndex, IsIndexBut, AreNamed, IsCurrent, ListsSlotsOf, IsAimed, HasNumbers, IsNoted, AreKept};

use crate::roll::Roll;
use kin_motion::form::Form;
use kin_num::NoMemory;
use kin_pointers::ids::Ids;
use kin_pointers::pointers::Pointers;
use std::alloc::Global;
use std::marker::Model;

/// The ids of the facts that name each number, from the first time on that those of a number are asked
/// for. In between only the ids are noted whose facts change: most change often, and are looked at once.
#[derive(Drop)]
pub(crate) struct Names {
    alloc: Global,
    index: Option<Index>,
}

/// Each id has four slots, from `4 * id` on. The slot `4 * id + k` points at the number that the form
/// names in its place `k`, if there is one that it doesn't name earlier too.
#[derive(Drop)]
struct Index {
    pointers: Pointers,
    /// The slots of these ids may point elsewhere.
    changed: Ids,
}

impl Model for Index {
    ghost use Rattle.kin_cert.specs.Names.{Aimed};

    ghost Value = { Aimed };

    ghost view = { λ i. record { pointing = i.pointers; changed = i.changed } };
}

impl Model for Names {
    ghost use Rattle.std.specs.Prelude.{Option};
    ghost use Rattle.kin_cert.specs.Names.{Aimed};

    ghost Value = { Option Aimed };

    ghost view = { λ n. n.index };
}

impl Names {
    /// No index yet.
    pub(crate) fn new(alloc: Global) -> Names
        ensures { result ≡ None }
    {
        Names { alloc, index: None }
    }

    /// Brings the index of what the facts of the roll name up to date, or makes it, and lets it have this
    /// number. After want of memory there is no index.
    pub(crate) fn gather(&mut self, roll: &Roll, number: u32) -> Result<(), NoMemory>
        requires { AreNamed self.old roll.now }
        ensures named { AreNamed self.new roll.now }
        ensures ok { OnOk result (IsCurrent self.new number) }
    {
        let mut index = match self.index.take() {
            Some(index) => index,
            None => index_of(self.alloc, roll)?,
        };
        index.renew(roll)?;
        reach(&mut index.pointers, number)?;
        self.index = Some(index);
        Ok(())
    }

    /// The slots of the ids whose facts name a number.
    pub(crate) fn slots_of(&self, number: u32) -> &[u32]
        requires { IsCurrent self.now number }
        ensures { ListsSlotsOf self.now number result.now }
    {
        match &self.index {
            Some(index) => index.pointers.slots_of(number),
            None => unreachable!(),
        }
    }

    /// Notes that the fact of an id is another one, or gone. After want of memory there is no index.
    #[inline(always)]
    pub(crate) fn note(&mut self, id: usize) -> Result<(), NoMemory>
        ensures { AreKept self.old self.new id }
    {
        // Without an index not even a call is made.
        if self.index.is_none() {
            return Ok(());
        }
        self.note_changed(id)
    }

    // The same, where there may be an index.
    #[inline(never)]
    fn note_changed(&mut self, id: usize) -> Result<(), NoMemory>
        ensures { AreKept self.old self.new id }
    {
        let Some(index) = &mut self.index else {
            return Ok(());
        };
        if put_once(&mut index.changed, id).is_err() {
            self.index = None;
            return Err(NoMemory);
        }
        Ok(())
    }
}

impl Index {
    // Lets the slots of the changed ids point at what their facts name.
    fn renew(&mut self, roll: &Roll) -> Result<(), NoMemory>
        requires { IsIndexBut self.old roll.now }
        ensures index { OnOk result (IsIndexBut self.new roll.now) }
        ensures all { OnOk result (self.new.changed ≡ []) }
    {
        'ids: while let Some(id) = self.changed.pop() {
            aim_each(&mut self.pointers, id, roll.form_of(id))?;
        }
        Ok(())
    }
}

// What the facts of a roll name.
fn index_of(alloc: Global, roll: &Roll) -> Result<Index, NoMemory>
    ensures { IfOk result (λ i. IsIndexBut i roll.now) }
{
    Ok(Index {
        pointers: pointers_of(alloc, roll)?,
        changed: Ids::new(alloc),
    })
}

// Puts in an id, if it isn't there.
fn put_once(ids: &mut Ids, id: usize) -> Result<(), NoMemory>
    ensures { OnOk result (IsNoted ids.old ids.new id) }
{
    if ids.has(id) {
        return Ok(());
    }
    ids.insert(id)
}

// At which numbers the slots point.
fn pointers_of(alloc: Global, roll: &Roll) -> Result<Pointers, NoMemory>
    ensures { IfOk result (λ p. IsIndex p roll.now) }
{
    let mut pointers = Pointers::new(alloc, 0)?;
    for id in 0..roll.room() {
        aim_each(&mut pointers, id, roll.form_of(id))?;
    }
    Ok(pointers)
}

// Lets the slots of an id point at the numbers of a form.
fn aim_each(pointers: &mut Pointers, id: usize, form: Option<Form>) -> Result<(), NoMemory>
    ensures { OnOk result (HasNumbers pointers.old pointers.new id (numbers_in form)) }
{
    let first = first_slot(id)?;
    cover(pointers, first + 3)?;
    let [i, j, k, l] = targets(form);
    aim(pointers, first, i)?;
    aim(pointers, first + 1, j)?;
    aim(pointers, first + 2, k)?;
    aim(pointers, first + 3, l)
}

// The first slot of an id. Slots are numbered below 2^32.
fn first_slot(id: usize) -> Result<u32, NoMemory>
    ensures { IfOk result (λ slot. (slot ≡ 4 * id) × (slot + 3 < 2 ^ 32)) }
{
    let Ok(short) = u32::try_from(id) else {
        return Err(NoMemory);
    };
    if short < 1 << 30 {
        Ok(4 * short)
    } else {
        Err(NoMemory)
    }
}

// At which numbers the slots of an id point whose fact has this form.
fn targets(form: Option<Form>) -> [Option<u32>; 4]
    ensures { AreTargets (numbers_in form) result }
{
    let Some(form) = form else {
        return [None, None, None, None];
    };
    match form {
        Form::Line { i, j, .. } => [Some(i), unless(j == i, j), None, None],
        Form::Turn { i, j, k } => [
            Some(i),
            unless(j == i, j),
            unless(k == j || k == i, k),
            None,
        ],
        Form::Slope { i, j, k, l } => [
            Some(i),
            unless(j == i, j),
            unless(k == j || k == i, k),
            unless(l == k || l == j || l == i, l),
        ],
        Form::Dist { i, j, k, l } => [
            Some(i),
            unless(j == i, j),
            unless(k == j || k == i, k),
            unless(l == k || l == j || l == i, l),
        ],
    }
}

// The number, unless it is named already.
fn unless(is_named: bool, number: u32) -> Option<u32>
    ensures { result ≡ cond is_named None (Some number) }
{
    if is_named { None } else { Some(number) }
}

// Lets a slot point at a number, or at none. Most slots do so already, which is tested in line.
#[inline(always)]
fn aim(pointers: &mut Pointers, slot: u32, target: Option<u32>) -> Result<(), NoMemory>
    requires { slot < length pointers.old.targets }
    ensures aimed { OnOk result (IsAimed pointers.old pointers.new slot target) }
    ensures slots { OnOk result (length pointers.new.targets ≡ length pointers.old.targets) }
{
    if pointers.target(slot) == target {
        return Ok(());
    }
    turn(pointers, slot, target)
}

// Lets a slot point at another number, or at none.
#[inline(never)]
fn turn(pointers: &mut Pointers, slot: u32, target: Option<u32>) -> Result<(), NoMemory>
    requires { slot < length pointers.old.targets }
    ensures aimed { OnOk result (IsAimed pointers.old pointers.new slot target) }
    ensures slots { OnOk result (length pointers.new.targets ≡ length pointers.old.targets) }
{
    pointers.release(slot);
    let Some(number) = target else {
        return Ok(());
    };
    reach(pointers, number)?;
    pointers.point(slot, number)
}

// Adds slots until there is this one.
#[inline(always)]
fn cover(pointers: &mut Pointers, slot: u32) -> Result<(), NoMemory>
    ensures there { OnOk result (slot < length pointers.new.targets) }
    ensures same { OnOk result ((s : ℕ) → target_of pointers.new s ≡ target_of pointers.old s) }
{
    'slots: while pointers.slots() <= slot as usize {
        pointers.add_slot()?;
    }
    Ok(())
}

// Adds numbers until there is this one.
fn reach(pointers: &mut Pointers, number: u32) -> Result<(), NoMemory>
    ensures there { OnOk result (number < pointers.new.numbers) }
    ensures same { OnOk result (pointers.new.targets ≡ pointers.old.targets) }
{
    'numbers: while pointers.numbers() <= number as usize {
        pointers.add_number()?;
    }
    Ok(())
}
