//! The facts of the hull: a tree of merges of upper chains, and one of lower chains.

ghost use Rattle.std.specs.Prelude.{◌≡◌, ◌≤◌, ◌<◌, ◌+◌, ◌++◌, ◌^◌, filter, IfOk, OnOk};
ghost use Rattle.std.specs.List.{All};
ghost use Rattle.kin_motion.specs.Agreements.{FitsSize};
ghost use Rattle.kin_motion.specs.Chains.{upper_chain_of};
ghost use Rattle.kin_motion.specs.Merges.{hull_facts, points_under};
ghost use Rattle.kin_motion.specs.Tournaments.{is_under};
ghost use Rattle.kin_plain.specs.Forms.{all_placed};
ghost use Rattle.kin_plain.specs.Halves.{facts_between, forms_seen};
ghost use Rattle.kin_plain.specs.Live.{AreLive};

use crate::chain::upper_chain_of;
use crate::lists::put;
use crate::merge::{breakpoint_list, put_merge};
use crate::mirrored::Mirrored;
use crate::numbers::numbers_below;
use crate::slots::is_under;
use kin_motion::fact::Placed;
use kin_motion::signs::Signs;
use kin_num::memory::NoMemory;
use kin_num::steps::Steps;
use std::alloc::Global;
use std::sync::ledger::Ledger;

/// The numbers in the slots under a node.
fn numbers_under(alloc: Global, size: u32, live: &[u32], node: u32) -> Result<Vec<u32>, NoMemory>
    requires size { size ≤ 12 }
    requires some { 0 < node }
    requires within { node < 2 ^ (size + 1) }
    requires small { All (λ i. i < 2 ^ size) live.now }
    ensures { IfOk result (λ under. under.items ≡ filter (is_under size node) live.now) }
{
    let mut under = Vec::new(alloc);
    for no in live {
        if is_under(size, node, *no) {
            put(&mut under, *no)?;
        }
    }
    Ok(under)
}

/// The upper chain of the live numbers in the slots under a node.
fn chain_under<O: Signs, L: Ledger>(
    alloc: Global,
    now: &O,
    size: u32,
    live: &[u32],
    node: u32,
    steps: &mut Steps<L>,
) -> Result<Vec<u32>, NoMemory>
    requires size { size ≤ 12 }
    requires some { 0 < node }
    requires within { node < 2 ^ (size + 1) }
    requires small { All (λ i. i < 2 ^ size) live.now }
    requires live { live.now ≡ (O.scene now.now).live }
    ensures value { IfOk result (λ chain. chain.items ≡ upper_chain_of (O.scene now.now) (points_under size (O.scene now.now) node)) }
    ensures live { IfOk result (λ chain. AreLive (O.scene now.now) chain.items) }
{
    let under = numbers_under(alloc, size, live, node)?;
    let chain = upper_chain_of(alloc, now, &under, steps)?;
    Ok(chain)
}

/// Puts the facts of the merge of two chains at the end. The chains are those of a view, and the signs those of now.
fn put_merged<V: Signs, O: Signs, L: Ledger>(
    alloc: Global,
    view: &V,
    now: &O,
    part: u32,
    a: &[u32],
    b: &[u32],
    facts: &mut Vec<Placed>,
    steps: &mut Steps<L>,
) -> Result<(), NoMemory>
    requires same { (V.scene view.now).live ≡ (O.scene now.now).live }
    requires a_live { AreLive (V.scene view.now) a.now }
    requires b_live { AreLive (V.scene view.now) b.now }
    ensures { OnOk result (facts.new.items ≡ facts.old.items ++ facts_between (V.scene view.now) (O.scene now.now) part a.now b.now) }
{
    let list = breakpoint_list(alloc, view, a, b, steps)?;
    put_merge(now, part, a, b, &list, facts, steps)
}

/// Puts the facts of a node at the end. Its chains are those of a view, and the signs those of now.
fn put_node<V: Signs, O: Signs, L: Ledger>(
    alloc: Global,
    view: &V,
    now: &O,
    size: u32,
    live: &[u32],
    node: u32,
    part: u32,
    facts: &mut Vec<Placed>,
    steps: &mut Steps<L>,
) -> Result<(), NoMemory>
    requires size { size ≤ 12 }
    requires some { 0 < node }
    requires inner { node < 2 ^ size }
    requires small { All (λ i. i < 2 ^ size) live.now }
    requires seen { live.now ≡ (V.scene view.now).live }
    requires live { live.now ≡ (O.scene now.now).live }
    ensures { OnOk result (facts.new.items ≡ facts.old.items ++ all_placed (O.scene now.now) part (forms_seen (V.scene view.now) (O.scene now.now) size node)) }
{
    let a = chain_under(alloc, view, size, live, 2 * node, steps)?;
    let b = chain_under(alloc, view, size, live, 2 * node + 1, steps)?;
    put_merged(alloc, view, now, part, &a, &b, facts, steps)
}

/// Puts all facts of the hull at the end: for each node those of the upper tree, and those of the lower tree.
pub fn put_hull_facts<O: Signs, L: Ledger>(
    alloc: Global,
    now: &O,
    size: u32,
    live: &[u32],
    facts: &mut Vec<Placed>,
    steps: &mut Steps<L>,
) -> Result<(), NoMemory>
    requires size { size ≤ 12 }
    requires fits { FitsSize size (O.scene now.now) }
    requires live { live.now ≡ (O.scene now.now).live }
    ensures { OnOk result (facts.new.items ≡ facts.old.items ++ hull_facts size (O.scene now.now)) }
{
    for node in 1..numbers_below(size) {
        put_node(alloc, now, now, size, live, node, 2 * node, facts, steps)?;
        let below = Mirrored { now };
        put_node(
            alloc,
            &below,
            now,
            size,
            live,
            node,
            2 * node + 1,
            facts,
            steps,
        )?;
    }
    Ok(())
}
