//! The overlaps by a sweep along x: a box is met with those that are open where it opens.

ghost use Rattle.std.specs.Prelude.{◌≡◌, ℕ, [], ◌∷◌, ◌++◌, Some, true, slice_get, IfOk, OnOk};
ghost use Rattle.kin_motion.specs.Numbers.{is_in, IsOnce};
ghost use Rattle.kin_motion.specs.Sets.{ListsExactly};
ghost use Rattle.kin_sorted.specs.Marks.{without};
ghost use Rattle.kin_motion.specs.BoxFacts.{low_end, high_end};
ghost use Rattle.kin_boxes.specs.Sweeps.{meets, pair_of, met, IsFound, IsAhead, HasBox, HasBoxes};

use crate::axis::{high, low};
use kin_num::NoMemory;
use kin_sorted::{Ends, Side, Sorted};
use std::alloc::Global;

/// The places of the low and the high end of a box.
#[inline(always)]
fn span(ends: &Sorted<Ends>, no: u32) -> (u32, u32)
    requires { HasBox ends.now no }
    ensures low { slice_get ends.now.items result.0 ≡ Some (low_end no) }
    ensures high { slice_get ends.now.items result.1 ≡ Some (high_end no) }
{
    (
        ends.place_of_member(low(no)),
        ends.place_of_member(high(no)),
    )
}

/// Two numbers, the lesser first.
#[inline(always)]
fn pair(i: u32, j: u32) -> (u32, u32)
    ensures { result ≡ pair_of i j }
{
    if i < j { (i, j) } else { (j, i) }
}

/// Whether a box, whose ends are at these places, meets another one.
#[inline(always)]
fn meets_other(ends: &Sorted<Ends>, no: u32, places: (u32, u32), other: u32) -> bool
    requires once { IsOnce ends.now.items }
    requires low { slice_get ends.now.items places.0 ≡ Some (low_end no) }
    requires high { slice_get ends.now.items places.1 ≡ Some (high_end no) }
    requires there { HasBox ends.now other }
    ensures { result ≡ meets ends.now.items no other }
{
    let _ = no;
    let (from, to) = span(ends, other);
    places.0 < to && from < places.1
}

/// Adds a box with each open one that it meets along y.
fn meet(
    by_y: &Sorted<Ends>,
    no: u32,
    opened: &[u32],
    pairs: &mut Vec<(u32, u32)>,
) -> Result<(), NoMemory>
    requires once { IsOnce by_y.now.items }
    requires box_there { HasBox by_y.now no }
    requires open_there { (i : ℕ) → is_in i opened.now ≡ true → HasBox by_y.now i }
    ensures { OnOk result (pairs.new.items ≡ pairs.old.items ++ met (meets by_y.now.items) no opened.now) }
{
    let places = span(by_y, no);
    for &other in opened {
        if meets_other(by_y, no, places, other) {
            pairs.push(pair(no, other)).map_err(|_| NoMemory)?;
        }
    }
    Ok(())
}

/// Puts a box at the end.
fn open_box(opened: &mut Vec<u32>, no: u32) -> Result<(), NoMemory>
    ensures { OnOk result (opened.new.items ≡ opened.old.items ++ no ∷ []) }
{
    opened.push(no).map_err(|_| NoMemory)
}

/// Takes out a box.
fn close_box(opened: &mut Vec<u32>, no: u32)
    ensures { opened.new.items ≡ without no opened.old.items }
{
    opened.retain(|x| *x != no);
}

/// All pairs of boxes that meet along both axes, in the order in which the sweep finds them.
pub(crate) fn sweep(
    alloc: Global,
    by_x: &Sorted<Ends>,
    by_y: &Sorted<Ends>,
) -> Result<Vec<(u32, u32)>, NoMemory>
    requires once { IsOnce by_y.now.items }
    requires boxes { HasBoxes by_x.now.items by_y.now }
    ensures { IfOk result (λ pairs. IsAhead [] by_x.now.items → ListsExactly pairs.items (IsFound (meets by_y.now.items) [] by_x.now.items)) }
{
    let mut pairs = Vec::new(alloc);
    let mut opened = Vec::new(alloc);
    for &slot in by_x.slots() {
        let end = by_x.item(slot);
        match end.side {
            Side::Low => {
                meet(by_y, end.point, &opened, &mut pairs)?;
                open_box(&mut opened, end.point)?;
            }
            Side::High => close_box(&mut opened, end.point),
        }
    }
    Ok(pairs)
}
