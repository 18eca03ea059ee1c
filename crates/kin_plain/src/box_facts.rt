//! The facts of boxes.

ghost use Rattle.std.specs.Prelude.{◌≡◌, ◌≤◌, ◌++◌, OnOk};
ghost use Rattle.kin_motion.specs.Agreements.{FitsSize};
ghost use Rattle.kin_motion.specs.BoxFacts.{end_facts, end_order_of, boxes_facts};
ghost use Rattle.kin_motion.specs.Live.{IsSmallBox};
ghost use Rattle.kin_plain.specs.Live.{AreEndsOfLive};

use crate::axis::{Axis, part};
use crate::ends::end_order_of;
use crate::facts::put_fact;
use kin_motion::fact::Placed;
use kin_motion::signs::Signs;
use kin_num::memory::NoMemory;
use kin_num::steps::Steps;
use std::alloc::Global;
use std::sync::ledger::Ledger;

/// Puts the facts of each two neighbours at the end, in four parts from `first` on.
fn put_neighbours<O: Signs, L: Ledger>(
    now: &O,
    axis: &Axis,
    first: u32,
    order: &[u32],
    facts: &mut Vec<Placed>,
    steps: &mut Steps<L>,
) -> Result<(), NoMemory>
    requires first { first ≤ 4 }
    requires live { AreEndsOfLive (O.scene now.now) order.now }
    ensures { OnOk result (facts.new.items ≡ facts.old.items ++ end_facts (O.scene now.now) axis.now.dx axis.now.dy axis.now.size first order.now) }
{
    for place in 1..order.len() {
        let (a, b) = (order[place - 1], order[place]);
        put_fact(now, first + part(a, b), axis.form(a, b), facts, steps)?;
    }
    Ok(())
}

/// Puts the facts of the order of all ends along an axis at the end.
fn put_end_facts<O: Signs, L: Ledger>(
    alloc: Global,
    now: &O,
    size: u32,
    live: &[u32],
    axis: &Axis,
    first: u32,
    facts: &mut Vec<Placed>,
    steps: &mut Steps<L>,
) -> Result<(), NoMemory>
    requires size { size ≤ 12 }
    requires fits { FitsSize size (O.scene now.now) }
    requires live { live.now ≡ (O.scene now.now).live }
    requires first { first ≤ 4 }
    ensures { OnOk result (facts.new.items ≡ facts.old.items ++ end_facts (O.scene now.now) axis.now.dx axis.now.dy axis.now.size first (end_order_of (O.scene now.now) axis.now.dx axis.now.dy axis.now.size)) }
{
    let order = end_order_of(alloc, now, size, live, axis, steps)?;
    put_neighbours(now, axis, first, &order, facts, steps)
}

/// Puts the facts of boxes that are `w` wide and `h` high at the end: those of the ends along x, and then along y.
pub fn put_box_facts<O: Signs, L: Ledger>(
    alloc: Global,
    now: &O,
    size: u32,
    live: &[u32],
    w: i32,
    h: i32,
    facts: &mut Vec<Placed>,
    steps: &mut Steps<L>,
) -> Result<(), NoMemory>
    requires size { size ≤ 12 }
    requires fits { FitsSize size (O.scene now.now) }
    requires small { IsSmallBox w h }
    requires live { live.now ≡ (O.scene now.now).live }
    ensures { OnOk result (facts.new.items ≡ facts.old.items ++ boxes_facts (O.scene now.now) w h) }
{
    put_end_facts(alloc, now, size, live, &Axis::x(w), 0, facts, steps)?;
    put_end_facts(alloc, now, size, live, &Axis::y(h), 4, facts, steps)
}
