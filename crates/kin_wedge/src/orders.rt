//! The eight orders.

ghost use Rattle.std.specs.Prelude.{◌≡◌, ℕ, ◌<◌, ◌≤◌, ◌^◌, Some, true, slice_get, length, IfOk};
ghost use Rattle.kin_motion.specs.Records.{stands_before};
ghost use Rattle.kin_motion.specs.Numbers.{is_in};
ghost use Rattle.kin_wedge.specs.Parts.{AreVacant, vacant_listing};
ghost use Rattle.kin_wedge.specs.Rows.{row_of, stands_after, is_in_wedge, AreAlike, AreRows};
ghost use Rattle.kin_wedge.specs.Seen.{octant_seen, reading_seen, rows_of, IsOfEight};
ghost use Rattle.kin_wedge.specs.Sides.{IsPlace};

use crate::mail::Mail;
use crate::octant::{Octant, Reading, direction};
use crate::push::push;
use kin_list::KinList;
use kin_num::memory::NoMemory;
use std::alloc::Global;

/// The eight kinetic lists, by part, and the failed facts of each.
#[derive(Drop)]
pub struct Orders {
    pub(crate) lists: Vec<KinList>,
    pub(crate) mail: Mail,
    ghost told: { length mail.boxes.items ≡ 8 },
}

/// The empty list of a part.
fn new_list(alloc: Global, part: u32, size: u32) -> Result<KinList, NoMemory>
    requires part { part < 8 }
    requires low { 1 ≤ size }
    requires high { size ≤ 12 }
    ensures { IfOk result (λ l. l ≡ vacant_listing size part) }
{
    let (dx, dy) = direction(part);
    KinList::new(alloc, dx, dy, size)
}

impl Orders {
    /// Eight empty lists for the numbers below `2^size`.
    pub fn new(alloc: Global, size: u32) -> Result<Orders, NoMemory>
        requires low { 1 ≤ size }
        requires high { size ≤ 12 }
        ensures { IfOk result (λ o. AreVacant size o.lists.items) }
    {
        let mut lists = Vec::new(alloc);
        for part in 0..8 {
            let list = new_list(alloc, part, size)?;
            push(&mut lists, list)?;
        }
        let mail = Mail::new(alloc, 8)?;
        Ok(Orders { lists, mail })
    }

    /// The list of a part.
    pub fn list(&self, part: u32) -> &KinList
        requires { part < length self.now.lists.items }
        ensures list { slice_get self.now.lists.items part ≡ Some result.now }
        ensures row { result.now.items ≡ row_of (rows_of self.now.lists.items) part }
    {
        &self.lists[part as usize]
    }

    /// The place of a number in the order of a part.
    pub fn place_in(&self, part: u32, no: u32) -> Option<u32>
        requires { part < length self.now.lists.items }
        ensures { IsPlace (row_of (rows_of self.now.lists.items) part) no result }
    {
        self.list(part).place_of(no)
    }

    /// The place of a member in the order of a part.
    #[inline(always)]
    pub fn place_of_member(&self, part: u32, no: u32) -> usize
        requires part { part < length self.now.lists.items }
        requires member { is_in no (row_of (rows_of self.now.lists.items) part) ≡ true }
        ensures { slice_get (row_of (rows_of self.now.lists.items) part) result ≡ Some no }
    {
        self.list(part).place_of_member(no) as usize
    }

    /// Whether the first of two places in the order of a part is before the second.
    pub fn rises(&self, part: u32, first: usize, second: usize) -> bool
        requires { AreRows (rows_of self.now.lists.items) }
        ensures { (p q : ℕ) → slice_get (row_of (rows_of self.now.lists.items) part) first ≡ Some p → slice_get (row_of (rows_of self.now.lists.items) part) second ≡ Some q → result ≡ stands_before (row_of (rows_of self.now.lists.items) part) p q }
    {
        first < second
    }

    /// Whether the number that has the first place comes before the one that has the second in the order of a
    /// part.
    pub fn places_rise(&self, part: u32, first: Option<u32>, second: Option<u32>) -> bool
        requires rows { AreRows (rows_of self.now.lists.items) }
        requires part { part < 8 }
        ensures { (p q : ℕ) → IsPlace (row_of (rows_of self.now.lists.items) part) p first → IsPlace (row_of (rows_of self.now.lists.items) part) q second → result ≡ stands_before (row_of (rows_of self.now.lists.items) part) p q }
    {
        match (first, second) {
            (Some(i), Some(j)) => i < j,
            _ => false,
        }
    }

    /// Whether a number comes before the one that has this place in the order of a part.
    pub fn stands_before_place(&self, part: u32, first: u32, place: Option<u32>) -> bool
        requires rows { AreRows (rows_of self.now.lists.items) }
        requires part { part < 8 }
        ensures { (second : ℕ) → IsPlace (row_of (rows_of self.now.lists.items) part) second place → result ≡ stands_before (row_of (rows_of self.now.lists.items) part) first second }
    {
        self.places_rise(part, self.place_in(part, first), place)
    }

    /// Whether a number comes before another in the order of a part.
    pub fn stands_before(&self, part: u32, first: u32, second: u32) -> bool
        requires rows { AreRows (rows_of self.now.lists.items) }
        requires part { part < 8 }
        ensures { result ≡ stands_before (row_of (rows_of self.now.lists.items) part) first second }
    {
        self.stands_before_place(part, first, self.place_in(part, second))
    }

    /// Whether q comes after p in an order as it is read.
    pub fn comes_after(&self, reading: Reading, p: u32, q: u32) -> bool
        requires rows { AreRows (rows_of self.now.lists.items) }
        requires part { reading.part < 8 }
        ensures { result ≡ stands_after (rows_of self.now.lists.items) (reading_seen reading) p q }
    {
        if reading.from_end {
            self.stands_before(reading.part, q, p)
        } else {
            self.stands_before(reading.part, p, q)
        }
    }

    /// Whether the member that has this place comes after a number, in an order as it is read.
    #[inline(always)]
    pub fn place_comes_after(&self, reading: Reading, p: u32, rank: usize) -> bool
        requires rows { AreRows (rows_of self.now.lists.items) }
        requires part { reading.part < 8 }
        ensures { (member : ℕ) → slice_get (row_of (rows_of self.now.lists.items) reading.part) rank ≡ Some member → result ≡ stands_after (rows_of self.now.lists.items) (reading_seen reading) p member }
    {
        let Some(place) = self.place_in(reading.part, p) else {
            return false;
        };
        let place = place as usize;
        if reading.from_end {
            self.rises(reading.part, rank, place)
        } else {
            self.rises(reading.part, place, rank)
        }
    }

    /// Whether a member comes after p in an order as it is read.
    #[inline(always)]
    fn has_member_after(&self, reading: Reading, p: u32, member: u32) -> bool
        requires rows { AreRows (rows_of self.now.lists.items) }
        requires part { reading.part < 8 }
        requires member { is_in member (row_of (rows_of self.now.lists.items) reading.part) ≡ true }
        ensures { result ≡ stands_after (rows_of self.now.lists.items) (reading_seen reading) p member }
    {
        self.place_comes_after(reading, p, self.place_of_member(reading.part, member))
    }

    /// Whether a member comes after the number that has this place, in an order as it is read.
    #[inline(always)]
    fn member_comes_after(&self, reading: Reading, place: usize, member: u32) -> bool
        requires rows { AreRows (rows_of self.now.lists.items) }
        requires part { reading.part < 8 }
        requires member { is_in member (row_of (rows_of self.now.lists.items) reading.part) ≡ true }
        ensures { (p : ℕ) → slice_get (row_of (rows_of self.now.lists.items) reading.part) place ≡ Some p → result ≡ stands_after (rows_of self.now.lists.items) (reading_seen reading) p member }
    {
        let other = self.place_of_member(reading.part, member);
        if reading.from_end {
            self.rises(reading.part, other, place)
        } else {
            self.rises(reading.part, place, other)
        }
    }

    /// Whether q comes after p in an order as it is read. Both are members.
    #[inline(always)]
    pub fn member_follows(&self, reading: Reading, p: u32, q: u32) -> bool
        requires rows { AreRows (rows_of self.now.lists.items) }
        requires part { reading.part < 8 }
        requires p { is_in p (row_of (rows_of self.now.lists.items) reading.part) ≡ true }
        requires q { is_in q (row_of (rows_of self.now.lists.items) reading.part) ≡ true }
        ensures { result ≡ stands_after (rows_of self.now.lists.items) (reading_seen reading) p q }
    {
        let place = self.place_of_member(reading.part, p);
        self.member_comes_after(reading, place, q)
    }

    /// Whether a member is in an octant of the number that has these places in the two orders which bound it.
    #[inline(always)]
    pub fn is_in_octant_of_places(
        &self,
        octant: Octant,
        first: usize,
        second: usize,
        member: u32,
    ) -> bool
        requires rows { AreRows (rows_of self.now.lists.items) }
        requires alike { AreAlike (rows_of self.now.lists.items) }
        requires parts { IsOfEight (octant_seen octant) }
        requires member { is_in member (row_of (rows_of self.now.lists.items) 0) ≡ true }
        ensures { (p : ℕ) → slice_get (row_of (rows_of self.now.lists.items) octant.first.part) first ≡ Some p → slice_get (row_of (rows_of self.now.lists.items) octant.second.part) second ≡ Some p → result ≡ is_in_wedge (rows_of self.now.lists.items) (octant_seen octant) p member }
    {
        self.member_comes_after(octant.first, first, member)
            && self.member_comes_after(octant.second, second, member)
    }

    /// Whether a member is in an octant of p.
    #[inline(always)]
    pub fn has_member(&self, octant: Octant, p: u32, member: u32) -> bool
        requires rows { AreRows (rows_of self.now.lists.items) }
        requires alike { AreAlike (rows_of self.now.lists.items) }
        requires parts { IsOfEight (octant_seen octant) }
        requires member { is_in member (row_of (rows_of self.now.lists.items) 0) ≡ true }
        ensures { result ≡ is_in_wedge (rows_of self.now.lists.items) (octant_seen octant) p member }
    {
        self.has_member_after(octant.first, p, member)
            && self.has_member_after(octant.second, p, member)
    }

    /// Whether q is in an octant of p.
    #[inline(always)]
    pub fn is_in_octant(&self, octant: Octant, p: u32, q: u32) -> bool
        requires rows { AreRows (rows_of self.now.lists.items) }
        requires parts { IsOfEight (octant_seen octant) }
        ensures { result ≡ is_in_wedge (rows_of self.now.lists.items) (octant_seen octant) p q }
    {
        self.comes_after(octant.first, p, q) && self.comes_after(octant.second, p, q)
    }
}
