//! A tournament over slots.

ghost use Rattle.std.specs.Prelude.{◌≡◌, ◌≤◌, ◌<◌, ◌+◌, ◌^◌, ◌++◌, length, map, IfSome, OnOk};
ghost use Rattle.std.specs.List.{All};
ghost use Rattle.kin_motion.specs.Parts.{moved_by};
ghost use Rattle.kin_motion.specs.Tournaments.{best_of, items_under, tournament_facts};
ghost use Rattle.kin_plain.specs.Nodes.{fact_of_node};

use crate::contest::{Contest, better_of};
use crate::facts::put_fact;
use crate::numbers::numbers_below;
use crate::slots::slots_under;
use kin_motion::fact::Placed;
use kin_motion::signs::Signs;
use kin_num::memory::NoMemory;
use kin_num::steps::Steps;
use std::sync::ledger::Ledger;

/// The best of the items in the slots under a node.
fn best_under<K: Contest, O: Signs, L: Ledger>(
    contest: &K,
    now: &O,
    size: u32,
    node: u32,
    slots: &[Option<K::Item>],
    steps: &mut Steps<L>,
) -> Option<K::Item>
    requires size { size ≤ 15 }
    requires some { 0 < node }
    requires within { node < 2 ^ (size + 1) }
    requires count { length slots.now ≡ 2 ^ size }
    requires may { All (λ held. IfSome held (K.may contest.now (O.scene now.now).live)) slots.now }
    ensures value { result ≡ best_of (O.scene now.now) (K.key contest.now) (items_under size node slots.now) }
    ensures may { IfSome result (K.may contest.now (O.scene now.now).live) }
{
    let (first, end) = slots_under(size, node);
    let mut best = None;
    let mut left = end;
    while left > first {
        left -= 1;
        if let Some(item) = slots[left as usize] {
            best = better_of(contest, now, item, best, steps);
        }
    }
    best
}

/// Puts the fact of a node at the end, if both its halves have an item.
fn put_node_fact<K: Contest, O: Signs, L: Ledger>(
    contest: &K,
    now: &O,
    size: u32,
    from: u32,
    node: u32,
    slots: &[Option<K::Item>],
    facts: &mut Vec<Placed>,
    steps: &mut Steps<L>,
) -> Result<(), NoMemory>
    requires size { size ≤ 15 }
    requires from { from ≤ 8 }
    requires some { 0 < node }
    requires inner { node < 2 ^ size }
    requires count { length slots.now ≡ 2 ^ size }
    requires may { All (λ held. IfSome held (K.may contest.now (O.scene now.now).live)) slots.now }
    ensures { OnOk result (facts.new.items ≡ facts.old.items ++ map (moved_by from) (fact_of_node (O.scene now.now) (K.key contest.now) size slots.now node)) }
{
    let Some(left) = best_under(contest, now, size, 2 * node, slots, steps) else {
        return Ok(());
    };
    let Some(right) = best_under(contest, now, size, 2 * node + 1, slots, steps) else {
        return Ok(());
    };
    put_fact(now, from + node, contest.form(&left, &right), facts, steps)
}

/// Puts the facts of all inner nodes at the end, in parts from `from` on.
pub fn put_tournament_facts<K: Contest, O: Signs, L: Ledger>(
    contest: &K,
    now: &O,
    size: u32,
    from: u32,
    slots: &[Option<K::Item>],
    facts: &mut Vec<Placed>,
    steps: &mut Steps<L>,
) -> Result<(), NoMemory>
    requires size { size ≤ 15 }
    requires from { from ≤ 8 }
    requires count { length slots.now ≡ 2 ^ size }
    requires may { All (λ held. IfSome held (K.may contest.now (O.scene now.now).live)) slots.now }
    ensures { OnOk result (facts.new.items ≡ facts.old.items ++ map (moved_by from) (tournament_facts (O.scene now.now) (K.key contest.now) size slots.now)) }
{
    for node in 1..numbers_below(size) {
        put_node_fact(contest, now, size, from, node, slots, facts, steps)?;
    }
    Ok(())
}
