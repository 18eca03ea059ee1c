//! The candidate of a slot after a settle.

ghost use Rattle.std.specs.Prelude.{◌≡◌, ◌<◌, ℕ, true, false, Some, None, ◌⊎◌};
ghost use Rattle.kin_wedge.specs.Rows.{stands_after, is_in_wedge, AreAlike, AreRows, IsFirstAnswer};
ghost use Rattle.kin_wedge.specs.Scans.{steps_in, step_to};
ghost use Rattle.kin_wedge.specs.Seen.{octant_seen, rows_of, IsOfEight};
ghost use Rattle.kin_wedge.specs.Touched.{IsRenewed};

use crate::octant::Octant;
use crate::orders::Orders;

/// How many places come after a place, as the list is read.
fn steps_in(from_end: bool, place: usize, len: usize) -> usize
    requires { place < len }
    ensures { result ≡ steps_in from_end place len }
{
    if from_end { place } else { len - place - 1 }
}

/// The place that is k + 1 steps after a place, as the list is read.
fn step_to(from_end: bool, place: usize, k: usize, len: usize) -> usize
    requires place { place < len }
    requires steps { k < steps_in from_end place len }
    ensures value { result ≡ step_to from_end place k }
    ensures within { result < len }
{
    if from_end {
        place - 1 - k
    } else {
        place + 1 + k
    }
}

impl Orders {
    /// The first number of an octant in its third order, by a scan that begins after the apex.
    #[inline(always)]
    fn scan(&self, octant: Octant, apex: u32) -> Option<u32>
        requires rows { AreRows (rows_of self.now.lists.items) }
        requires alike { AreAlike (rows_of self.now.lists.items) }
        requires parts { IsOfEight (octant_seen octant) }
        requires behind { (q : ℕ) → is_in_wedge (rows_of self.now.lists.items) (octant_seen octant) apex q ≡ true → stands_after (rows_of self.now.lists.items) (octant_seen octant).third apex q ≡ true }
        ensures { IsFirstAnswer (rows_of self.now.lists.items) (octant_seen octant) apex result }
    {
        let list = self.list(octant.third.part);
        let items = list.items();
        let Some(place) = list.place_of(apex) else {
            return None;
        };
        let place = place as usize;
        // A number that isn't a member is the apex of no octant.
        let Some(first) = self.place_in(octant.first.part, apex) else {
            return None;
        };
        let Some(second) = self.place_in(octant.second.part, apex) else {
            return None;
        };
        for k in 0..steps_in(octant.third.from_end, place, items.len()) {
            let no = items[step_to(octant.third.from_end, place, k, items.len())];
            if self.is_in_octant_of_places(octant, first as usize, second as usize, no) {
                return Some(no);
            }
        }
        None
    }

    /// The first number of an octant in its third order.
    pub fn look_up(&self, octant: Octant, apex: u32) -> Option<u32>
        requires rows { AreRows (rows_of self.now.lists.items) }
        requires alike { AreAlike (rows_of self.now.lists.items) }
        requires parts { IsOfEight (octant_seen octant) }
        requires behind { (q : ℕ) → is_in_wedge (rows_of self.now.lists.items) (octant_seen octant) apex q ≡ true → stands_after (rows_of self.now.lists.items) (octant_seen octant).third apex q ≡ true }
        ensures { IsFirstAnswer (rows_of self.now.lists.items) (octant_seen octant) apex result }
    {
        // Each direction has a loop of its own, so that no step tests for it.
        if octant.third.from_end {
            self.scan(octant.ranked(true), apex)
        } else {
            self.scan(octant.ranked(false), apex)
        }
    }

    /// The candidate of a slot after an offer. `None` asks for a look-up. A candidate that isn't in the octant any
    /// more may remain until its look-up comes.
    pub fn renewed(
        &self,
        octant: Octant,
        apex: u32,
        old: Option<u32>,
        offer: Option<u32>,
    ) -> Option<u32>
        requires rows { AreRows (rows_of self.now.lists.items) }
        requires alike { AreAlike (rows_of self.now.lists.items) }
        requires parts { IsOfEight (octant_seen octant) }
        requires behind { (q : ℕ) → is_in_wedge (rows_of self.now.lists.items) (octant_seen octant) apex q ≡ true → stands_after (rows_of self.now.lists.items) (octant_seen octant).third apex q ≡ true }
        ensures { IsRenewed (rows_of self.now.lists.items) (octant_seen octant) apex old offer result }
    {
        let Some(no) = offer else {
            return self.look_up(octant, apex);
        };
        match old {
            Some(best) => Some(self.better(octant, apex, best, no)),
            None => self.only_within(octant, apex, no),
        }
    }

    /// A number, where it is in an octant.
    fn only_within(&self, octant: Octant, apex: u32, no: u32) -> Option<u32>
        requires rows { AreRows (rows_of self.now.lists.items) }
        requires parts { IsOfEight (octant_seen octant) }
        ensures within { is_in_wedge (rows_of self.now.lists.items) (octant_seen octant) apex no ≡ true → result ≡ Some no }
        ensures none { is_in_wedge (rows_of self.now.lists.items) (octant_seen octant) apex no ≡ false → result ≡ None }
    {
        if self.is_in_octant(octant, apex, no) {
            Some(no)
        } else {
            None
        }
    }

    /// The better one of a candidate and an offered number.
    fn better(&self, octant: Octant, apex: u32, best: u32, no: u32) -> u32
        requires rows { AreRows (rows_of self.now.lists.items) }
        requires parts { IsOfEight (octant_seen octant) }
        ensures better { is_in_wedge (rows_of self.now.lists.items) (octant_seen octant) apex no ≡ true → stands_after (rows_of self.now.lists.items) (octant_seen octant).third no best ≡ true → result ≡ no }
        ensures kept { (is_in_wedge (rows_of self.now.lists.items) (octant_seen octant) apex no ≡ false) ⊎ (stands_after (rows_of self.now.lists.items) (octant_seen octant).third no best ≡ false) → result ≡ best }
    {
        if self.comes_after(octant.third, no, best) && self.is_in_octant(octant, apex, no) {
            no
        } else {
            best
        }
    }
}
