//! The places of an order between two sides, found by halving.

ghost use Rattle.std.specs.Prelude.{◌≡◌, ◌≤◌, ◌<◌, ◌&&◌, ℕ, pos, Some, true, false, length, slice_get, Contains};
ghost use Rattle.kin_motion.specs.Boxes.{IsRectInRange};
ghost use Rattle.kin_motion.specs.Course.{live_of};
ghost use Rattle.kin_motion.specs.Numbers.{IsIn};
ghost use Rattle.kin_motion.specs.Orders.{IsOrder};
ghost use Rattle.kin_motion.specs.Scene.{scene_at};
ghost use Rattle.kin_range.specs.Sides.{is_within, left_of, right_of, bottom_of, top_of, is_in_span, IsSpanOf, TurnsOnce};

use crate::side::Side;
use kin_motion::{Motions, Rect};
use kin_num::Moment;
use kin_num::steps::Steps;
use std::marker::Model;
use std::sync::ledger::{Blank, Ledger};

/// The places from `from` on and before `to`.
#[derive(Clone, Copy)]
pub(crate) struct Span {
    pub from: usize,
    pub to: usize,
}

impl Model for Span {
    ghost use Rattle.kin_range.specs.Sides.{Span};

    ghost Value = { Span };

    ghost view = { λ s. record { from = s.from; to = s.to } };

    ghost inverse = { λ s. record { from = s.from; to = s.to } };
}

impl Span {
    /// How many places it has.
    pub fn len(self) -> usize
        requires { self.from ≤ self.to }
    {
        self.to - self.from
    }

    /// Whether a place is in it.
    pub fn has(self, place: u32) -> bool
        ensures { result ≡ is_in_span self place }
    {
        self.from <= place as usize && (place as usize) < self.to
    }
}

/// The first place, from a given one on, at which a point isn't within a side if the earlier ones are, or is if they
/// aren't.
fn turning_place<L: Ledger>(
    items: &[u32],
    from: usize,
    side: Side,
    inner: bool,
    motions: &Motions,
    now: &Moment,
    steps: &mut Steps<L>,
) -> usize
    requires from { from ≤ length items.now }
    requires live { (i : ℕ) → Contains items.now i → IsIn i (live_of motions.now) }
    requires turns { TurnsOnce (is_within motions.now now.now side) inner items.now }
    ensures ordered { from ≤ result }
    ensures within { result ≤ length items.now }
    ensures earlier { (p i : ℕ) → p < result → from ≤ p → slice_get items.now p ≡ Some i → is_within motions.now now.now side i ≡ inner }
    ensures later { (p i : ℕ) → result ≤ p → slice_get items.now p ≡ Some i → is_within motions.now now.now side i ≡ inner → ⊥ }
{
    let mut low = from;
    let mut high = items.len();
    while low < high {
        let middle = low + (high - low) / 2;
        if side.has(motions, items[middle], now, steps) == inner {
            low = middle + 1;
        } else {
            high = middle;
        }
    }
    low
}

/// The places in an order at which points are within two sides. The lower one leaves out the first points, and the
/// higher one the last ones. With n points it asks `2*k` signs at most, where `2^k <= 2*n + 2`; no clause says so.
pub(crate) fn places_between<L: Ledger>(
    items: &[u32],
    low: Side,
    high: Side,
    motions: &Motions,
    now: &Moment,
    steps: &mut Steps<L>,
) -> Span
    requires live { (i : ℕ) → Contains items.now i → IsIn i (live_of motions.now) }
    requires rises { TurnsOnce (is_within motions.now now.now low) false items.now }
    requires falls { TurnsOnce (is_within motions.now now.now high) true items.now }
    ensures { IsSpanOf (λ i. is_within motions.now now.now low i && is_within motions.now now.now high i) items.now result }
{
    let from = turning_place(items, 0, low, false, motions, now, steps);
    let to = turning_place(items, from, high, true, motions, now, steps);
    Span { from, to }
}

/// The spans of the orders along x and along y that have the points in a rectangle. The signs that this asks are counted
/// in no contract.
pub(crate) fn spans_in<L: Ledger>(
    by_x: &[u32],
    by_y: &[u32],
    motions: &Motions,
    now: &Moment,
    rect: &Rect,
    blank: Blank,
) -> (Span, Span)
    requires name { blank.name ≡ L.name }
    requires parts { blank.parts ≡ L.parts }
    requires some { 0 < L.parts }
    requires rect { IsRectInRange rect.now }
    requires x_order { IsOrder (scene_at motions.now now.now) (pos 1) (pos 0) by_x.now }
    requires y_order { IsOrder (scene_at motions.now now.now) (pos 0) (pos 1) by_y.now }
    ensures x { IsSpanOf (λ i. is_within motions.now now.now (left_of rect.now) i && is_within motions.now now.now (right_of rect.now) i) by_x.now result.0 }
    ensures y { IsSpanOf (λ i. is_within motions.now now.now (bottom_of rect.now) i && is_within motions.now now.now (top_of rect.now) i) by_y.now result.1 }
{
    now.at.recall_canonical();
    let mut steps = Steps::<L>::open(blank);
    let (left, right) = (Side::left(rect), Side::right(rect));
    let x = places_between(by_x, left, right, motions, now, &mut steps);
    let (bottom, top) = (Side::bottom(rect), Side::top(rect));
    let y = places_between(by_y, bottom, top, motions, now, &mut steps);
    (x, y)
}
