//! The closest pair.

ghost use Rattle.std.specs.Prelude.{◌≡◌, ◌≤◌, ◌<◌, ◌*◌, ◌^◌, ◌++◌, cond, None, IfOk, OnOk, IfSome};
ghost use Rattle.std.specs.List.{All};
ghost use Rattle.kin_motion.specs.ClosestFacts.{closest_facts, near_of, near_slots, near_slots_of_point};
ghost use Rattle.kin_motion.specs.ClosestPairs.{closest_of};
ghost use Rattle.kin_motion.specs.Numbers.{is_in};
ghost use Rattle.kin_motion.specs.Octants.{candidate_of, octants};
ghost use Rattle.kin_plain.specs.Comparing.{AreBothLive};
ghost use Rattle.kin_plain.specs.Seen.{octant_seen, IsOfEight};

use crate::contest::{Contest, best_of};
use crate::facts::put_wedge_facts;
use crate::lists::put;
use crate::numbers::{is_in, numbers_below};
use crate::octant::{Octant, candidate_of, octant_at};
use crate::pair::{Pair, pair_in, pairs_of};
use crate::tournament::put_tournament_facts;
use kin_motion::fact::Placed;
use kin_motion::form::Form;
use kin_motion::signs::Signs;
use kin_num::Sign;
use kin_num::memory::NoMemory;
use kin_num::steps::Steps;
use std::alloc::Global;
use std::sync::ledger::Ledger;

/// Pairs compared by distance: the closer pair wins, and at a tie the lesser one.
#[derive(Drop)]
struct Closeness;

impl Contest for Closeness {
    ghost use Rattle.kin_motion.specs.ClosestPairs.{distance_key};
    ghost use Rattle.kin_plain.specs.Comparing.{AreBothLive, closeness_askable};

    type Item = Pair;

    ghost key = { λ k. distance_key };

    ghost may = { λ k. AreBothLive };

    ghost askable = { λ k. closeness_askable };

    fn form(&self, left: &Pair, right: &Pair) -> Form {
        left.distance(right)
    }

    fn left_wins(&self, sign: Sign, left: &Pair, right: &Pair) -> bool {
        match sign {
            Sign::Plus => true,
            Sign::Zero => left.is_less(right),
            Sign::Minus => false,
        }
    }
}

/// The closest pair, or none where no two numbers are live.
pub fn closest_of<O: Signs, L: Ledger>(
    alloc: Global,
    now: &O,
    live: &[u32],
    steps: &mut Steps<L>,
) -> Result<Option<(u32, u32)>, NoMemory>
    requires live { live.now ≡ (O.scene now.now).live }
    ensures { IfOk result (λ closest. closest ≡ closest_of (O.scene now.now)) }
{
    let pairs = pairs_of(alloc, live)?;
    Ok(pair_in(best_of(&Closeness, now, &pairs, steps)))
}

/// What the slot of a point and an octant holds: the point and its candidate, where it is live and has one.
fn near_slot<O: Signs, L: Ledger>(
    now: &O,
    live: &[u32],
    slot: u32,
    octant: Octant,
    p: u32,
    steps: &mut Steps<L>,
) -> Option<Pair>
    requires parts { IsOfEight (octant_seen octant) }
    requires live { live.now ≡ (O.scene now.now).live }
    ensures value { result ≡ cond (is_in p (O.scene now.now).live) (near_of slot p (candidate_of (O.scene now.now) (octant_seen octant) p)) None }
    ensures may { IfSome result (AreBothLive (O.scene now.now).live) }
{
    if !is_in(p, live) {
        return None;
    }
    match candidate_of(now, live, octant, p, steps) {
        None => None,
        Some(c) => Some(Pair::near(slot, p, c)),
    }
}

/// Puts the eight slots of a point at the end.
fn put_near_slots<O: Signs, L: Ledger>(
    now: &O,
    live: &[u32],
    p: u32,
    slots: &mut Vec<Option<Pair>>,
    steps: &mut Steps<L>,
) -> Result<(), NoMemory>
    requires point { p < 2 ^ 12 }
    requires live { live.now ≡ (O.scene now.now).live }
    requires may { All (λ held. IfSome held (AreBothLive (O.scene now.now).live)) slots.old.items }
    ensures value { OnOk result (slots.new.items ≡ slots.old.items ++ near_slots_of_point (O.scene now.now) p (8 * p) octants) }
    ensures may { OnOk result (All (λ held. IfSome held (AreBothLive (O.scene now.now).live)) slots.new.items) }
{
    for w in 0..8 {
        let held = near_slot(now, live, 8 * p + w, octant_at(w), p, steps);
        put(slots, held)?;
    }
    Ok(())
}

/// All slots. Slot `8*p + w` is that of point `p` and octant `w`.
fn near_slots<O: Signs, L: Ledger>(
    alloc: Global,
    now: &O,
    size: u32,
    live: &[u32],
    steps: &mut Steps<L>,
) -> Result<Vec<Option<Pair>>, NoMemory>
    requires size { size ≤ 12 }
    requires live { live.now ≡ (O.scene now.now).live }
    ensures value { IfOk result (λ slots. slots.items ≡ near_slots size (O.scene now.now)) }
    ensures may { IfOk result (λ slots. All (λ held. IfSome held (AreBothLive (O.scene now.now).live)) slots.items) }
{
    let mut slots = Vec::new(alloc);
    for p in 0..numbers_below(size) {
        put_near_slots(now, live, p, &mut slots, steps)?;
    }
    Ok(slots)
}

/// Puts the facts of the eight orders at the end, and then those of the tournament of pairs.
pub fn put_closest_facts<O: Signs, L: Ledger>(
    alloc: Global,
    now: &O,
    size: u32,
    live: &[u32],
    facts: &mut Vec<Placed>,
    steps: &mut Steps<L>,
) -> Result<(), NoMemory>
    requires size { size ≤ 12 }
    requires live { live.now ≡ (O.scene now.now).live }
    ensures { OnOk result (facts.new.items ≡ facts.old.items ++ closest_facts size (O.scene now.now)) }
{
    put_wedge_facts(alloc, now, live, facts, steps)?;
    let slots = near_slots(alloc, now, size, live, steps)?;
    put_tournament_facts(&Closeness, now, size + 3, 8, &slots, facts, steps)
}
