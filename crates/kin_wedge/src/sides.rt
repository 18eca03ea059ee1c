//! On which sides of a point another one lies, and in which octant.

ghost use Rattle.std.specs.Prelude.{◌≡◌, ◌≢◌, ◌⊎◌, ◌<◌, ℕ, Some, IfSome, true, slice_get};
ghost use Rattle.kin_motion.specs.Records.{stands_before};
ghost use Rattle.kin_motion.specs.Octants.{Octant as Bounds, octants};
ghost use Rattle.kin_motion.specs.Numbers.{is_in};
ghost use Rattle.kin_wedge.specs.Rows.{row_of, is_in_wedge, AreAlike, AreRows};
ghost use Rattle.kin_wedge.specs.Seen.{rows_of};
ghost use Rattle.kin_wedge.specs.Sides.{octant_by, AreParted, AreRanks, AreSides, IsSpot};
ghost use Rattle.kin_wedge.specs.Touched.{IsBoundedBy};

use crate::octant::{bounded_by, forward, orders_of};
use crate::orders::Orders;

/// Whether a number comes after another in the orders of y, x - y, x and x + y, which bound the octants.
#[derive(Clone, Copy)]
pub struct Sides {
    pub y: bool,
    pub difference: bool,
    pub x: bool,
    pub sum: bool,
}

impl Sides {
    /// The octant around the other in which it lies, if it lies in one.
    fn octant(self) -> u32
        ensures value { result ≡ octant_by self }
        ensures small { result < 8 }
    {
        match (self.y, self.difference, self.x, self.sum) {
            (true, true, _, _) => 0,
            (true, false, true, _) => 1,
            (true, false, false, true) => 2,
            (true, false, false, false) => 3,
            (false, false, _, _) => 4,
            (false, true, false, _) => 5,
            (false, true, true, false) => 6,
            (false, true, true, true) => 7,
        }
    }
}

/// The places of a member in these four orders.
#[derive(Clone, Copy)]
pub struct Spot {
    pub y: usize,
    pub difference: usize,
    pub x: usize,
    pub sum: usize,
}

impl Orders {
    /// The places of the member at a place of the first order.
    #[inline(always)]
    pub fn spot_at(&self, y: usize, no: u32) -> Spot
        requires rows { AreRows (rows_of self.now.lists.items) }
        requires alike { AreAlike (rows_of self.now.lists.items) }
        requires place { slice_get (row_of (rows_of self.now.lists.items) 0) y ≡ Some no }
        ensures { IsSpot (rows_of self.now.lists.items) no result }
    {
        Spot {
            y,
            difference: self.place_of_member(1, no),
            x: self.place_of_member(2, no),
            sum: self.place_of_member(3, no),
        }
    }

    /// The places of a member in the orders that rank the members of octants.
    pub fn ranks(&self, no: u32) -> [usize; 4]
        requires rows { AreRows (rows_of self.now.lists.items) }
        requires alike { AreAlike (rows_of self.now.lists.items) }
        requires member { is_in no (row_of (rows_of self.now.lists.items) 0) ≡ true }
        ensures { AreRanks (rows_of self.now.lists.items) no result }
    {
        [
            self.place_of_member(4, no),
            self.place_of_member(5, no),
            self.place_of_member(6, no),
            self.place_of_member(7, no),
        ]
    }

    /// On which sides of a number another one lies, by their places.
    fn sides(&self, apex: Spot, other: Spot) -> Sides
        requires { AreRows (rows_of self.now.lists.items) }
        ensures { (p q : ℕ) → IsSpot (rows_of self.now.lists.items) p apex → IsSpot (rows_of self.now.lists.items) q other → AreSides (rows_of self.now.lists.items) p q result }
    {
        Sides {
            y: self.rises(0, apex.y, other.y),
            difference: self.rises(1, apex.difference, other.difference),
            x: self.rises(2, apex.x, other.x),
            sum: self.rises(3, apex.sum, other.sum),
        }
    }

    /// Two members as an order has them, the first one first.
    #[inline(always)]
    pub fn as_they_stand(&self, part: u32, a: u32, b: u32) -> (u32, u32)
        requires rows { AreRows (rows_of self.now.lists.items) }
        requires part { part < 8 }
        requires a { is_in a (row_of (rows_of self.now.lists.items) part) ≡ true }
        requires b { is_in b (row_of (rows_of self.now.lists.items) part) ≡ true }
        requires apart { a ≢ b }
        ensures order { stands_before (row_of (rows_of self.now.lists.items) part) result.0 result.1 ≡ true }
        ensures both { ((result.0 ≡ a) × (result.1 ≡ b)) ⊎ ((result.0 ≡ b) × (result.1 ≡ a)) }
    {
        let place = self.place_of_member(part, a);
        let other = self.place_of_member(part, b);
        if self.rises(part, place, other) {
            (a, b)
        } else {
            (b, a)
        }
    }

    /// The octant of a member in which another one lies, if it lies in one of the two that an order bounds and
    /// that read it forward. The other comes after the member in the order.
    #[inline(always)]
    pub fn octant_behind(&self, part: u32, apex: u32, no: u32) -> Option<u32>
        requires rows { AreRows (rows_of self.now.lists.items) }
        requires alike { AreAlike (rows_of self.now.lists.items) }
        requires parted { AreParted (rows_of self.now.lists.items) }
        requires part { part < 4 }
        requires behind { stands_before (row_of (rows_of self.now.lists.items) part) apex no ≡ true }
        ensures small { IfSome result (λ w. w < 8) }
        ensures within { IfSome result (λ w. (o : Bounds) → slice_get octants w ≡ Some o → is_in_wedge (rows_of self.now.lists.items) o apex no ≡ true) }
        ensures told { (w : ℕ) (o : Bounds) → slice_get octants w ≡ Some o → IsBoundedBy o part → is_in_wedge (rows_of self.now.lists.items) o apex no ≡ true → result ≡ Some w }
    {
        let (first, second) = bounded_by(forward(part));
        if self.member_follows(orders_of(first).second, apex, no) {
            Some(first)
        } else if self.member_follows(orders_of(second).first, apex, no) {
            Some(second)
        } else {
            None
        }
    }

    /// The octant of a number in which another one lies, if it lies in one, by their places.
    #[inline(always)]
    pub fn octant_of(&self, apex: Spot, other: Spot) -> u32
        requires rows { AreRows (rows_of self.now.lists.items) }
        requires parted { AreParted (rows_of self.now.lists.items) }
        ensures small { result < 8 }
        ensures octant { (p q w : ℕ) (o : Bounds) → IsSpot (rows_of self.now.lists.items) p apex → IsSpot (rows_of self.now.lists.items) q other → slice_get octants w ≡ Some o → is_in_wedge (rows_of self.now.lists.items) o p q ≡ true → result ≡ w }
    {
        let sides = self.sides(apex, other);
        sides.octant()
    }
}
