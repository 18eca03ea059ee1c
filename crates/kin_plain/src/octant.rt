//! The eight octants around a point, and the candidate in each.

ghost use Rattle.std.specs.Prelude.{◌≡◌, ◌<◌, Some, slice_get, true, false, IfSome};
ghost use Rattle.kin_motion.specs.Live.{IsSmallDirection};
ghost use Rattle.kin_motion.specs.Numbers.{IsIn};
ghost use Rattle.kin_motion.specs.Octants.{candidate_of, comes_after, direction, direction_of, earlier_of, eight_directions, is_in_octant, octants};
ghost use Rattle.kin_plain.specs.Seen.{octant_seen, reading_seen, IsOfEight};

use crate::order::is_before;
use kin_motion::signs::Signs;
use kin_num::steps::Steps;
use std::sync::ledger::Ledger;

/// The order of one of the parts 0 to 7, read forward or backward.
#[derive(Clone, Copy, Debug, PartialEq, Eq)]
pub struct Reading {
    pub part: u32,
    pub from_end: bool,
}

/// The three orders of an octant.
#[derive(Clone, Copy, Debug, PartialEq, Eq)]
pub struct Octant {
    pub first: Reading,
    pub second: Reading,
    pub third: Reading,
}

/// The order of a part, read forward.
fn forward(part: u32) -> Reading
    ensures { result ≡ record { part = part; from_end = false } }
{
    Reading {
        part,
        from_end: false,
    }
}

/// The order of a part, read backward.
fn back(part: u32) -> Reading
    ensures { result ≡ record { part = part; from_end = true } }
{
    Reading {
        part,
        from_end: true,
    }
}

/// An octant by its three orders.
fn octant_by(first: Reading, second: Reading, third: Reading) -> Octant
    ensures { result ≡ record { first = first; second = second; third = third } }
{
    Octant {
        first,
        second,
        third,
    }
}

/// One of the octants 0 to 7.
pub fn octant_at(w: u32) -> Octant
    requires { w < 8 }
    ensures octant { slice_get octants w ≡ Some (octant_seen result) }
    ensures parts { IsOfEight (octant_seen result) }
{
    match w {
        0 => octant_by(forward(0), forward(1), forward(4)),
        1 => octant_by(back(1), forward(2), forward(5)),
        2 => octant_by(back(2), forward(3), forward(6)),
        3 => octant_by(back(3), forward(0), forward(7)),
        4 => octant_by(back(0), back(1), back(4)),
        5 => octant_by(forward(1), back(2), back(5)),
        6 => octant_by(forward(2), back(3), back(6)),
        _ => octant_by(forward(3), back(0), back(7)),
    }
}

/// The direction of the order of one of the parts 0 to 7.
pub fn direction_of(part: u32) -> (i32, i32)
    requires { part < 8 }
    ensures dx { result.0 ≡ (direction_of part).dx }
    ensures dy { result.1 ≡ (direction_of part).dy }
    ensures known { slice_get eight_directions part ≡ Some (direction result.0 result.1) }
    ensures small { IsSmallDirection result.0 result.1 }
{
    match part {
        0 => (0, 1),
        1 => (1, -1),
        2 => (1, 0),
        3 => (1, 1),
        4 => (2, 1),
        5 => (1, 2),
        6 => (-1, 2),
        _ => (-2, 1),
    }
}

/// Whether `q` comes after `p` as an order is read.
fn comes_after<O: Signs, L: Ledger>(
    now: &O,
    reading: Reading,
    p: u32,
    q: u32,
    steps: &mut Steps<L>,
) -> bool
    requires part { reading.part < 8 }
    requires p_live { IsIn p (O.scene now.now).live }
    requires q_live { IsIn q (O.scene now.now).live }
    ensures { result ≡ comes_after (O.scene now.now) (reading_seen reading) p q }
{
    let (dx, dy) = direction_of(reading.part);
    if reading.from_end {
        is_before(now, dx, dy, q, p, steps)
    } else {
        is_before(now, dx, dy, p, q, steps)
    }
}

/// Whether `q` is in an octant of the apex `p`.
fn is_in_octant<O: Signs, L: Ledger>(
    now: &O,
    octant: Octant,
    p: u32,
    q: u32,
    steps: &mut Steps<L>,
) -> bool
    requires parts { IsOfEight (octant_seen octant) }
    requires p_live { IsIn p (O.scene now.now).live }
    requires q_live { IsIn q (O.scene now.now).live }
    ensures { result ≡ is_in_octant (O.scene now.now) (octant_seen octant) p q }
{
    comes_after(now, octant.first, p, q, steps) && comes_after(now, octant.second, p, q, steps)
}

/// The earlier of `p` and another, in an order as it is read.
fn earlier_of<O: Signs, L: Ledger>(
    now: &O,
    reading: Reading,
    p: u32,
    first: Option<u32>,
    steps: &mut Steps<L>,
) -> Option<u32>
    requires part { reading.part < 8 }
    requires p_live { IsIn p (O.scene now.now).live }
    requires first_live { IfSome first (λ q. IsIn q (O.scene now.now).live) }
    ensures value { result ≡ earlier_of (O.scene now.now) (reading_seen reading) p first }
    ensures live { IfSome result (λ q. IsIn q (O.scene now.now).live) }
{
    match first {
        None => Some(p),
        Some(q) => {
            if comes_after(now, reading, p, q, steps) {
                Some(p)
            } else {
                Some(q)
            }
        }
    }
}

/// The member of an octant of `p` that comes first in the third order, or none where the octant is empty.
pub fn candidate_of<O: Signs, L: Ledger>(
    now: &O,
    live: &[u32],
    octant: Octant,
    p: u32,
    steps: &mut Steps<L>,
) -> Option<u32>
    requires parts { IsOfEight (octant_seen octant) }
    requires p_live { IsIn p (O.scene now.now).live }
    requires live { live.now ≡ (O.scene now.now).live }
    ensures value { result ≡ candidate_of (O.scene now.now) (octant_seen octant) p }
    ensures live { IfSome result (λ q. IsIn q (O.scene now.now).live) }
{
    let mut first = None;
    let mut left = live.len();
    while left > 0 {
        left -= 1;
        let q = live[left];
        if is_in_octant(now, octant, p, q, steps) {
            first = earlier_of(now, octant.third, q, first, steps);
        }
    }
    first
}
