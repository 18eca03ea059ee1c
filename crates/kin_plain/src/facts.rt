//! Facts, one after another.

ghost use Rattle.std.specs.Prelude.{◌≡◌, ◌++◌, ◌∷◌, [], OnOk};
ghost use Rattle.kin_motion.specs.ClosestFacts.{wedge_facts};
ghost use Rattle.kin_motion.specs.Forms.{IsAskable};
ghost use Rattle.kin_motion.specs.Live.{IsSmallDirection};
ghost use Rattle.kin_motion.specs.Orders.{neighbour_facts, order_facts};
ghost use Rattle.kin_motion.specs.Scene.{placed_at};
ghost use Rattle.kin_plain.specs.Forms.{range_facts};
ghost use Rattle.kin_plain.specs.Live.{AreLive};

use crate::lists::put;
use crate::octant::direction_of;
use crate::order::order_of;
use kin_motion::fact::{Fact, Placed};
use kin_motion::form::Form;
use kin_motion::signs::Signs;
use kin_num::memory::NoMemory;
use kin_num::steps::Steps;
use std::alloc::Global;
use std::sync::ledger::Ledger;

/// Puts a form with its sign at the end of the facts.
pub fn put_fact<O: Signs, L: Ledger>(
    now: &O,
    part: u32,
    form: Form,
    facts: &mut Vec<Placed>,
    steps: &mut Steps<L>,
) -> Result<(), NoMemory>
    requires askable { IsAskable (O.scene now.now).live form }
    ensures { OnOk result (facts.new.items ≡ facts.old.items ++ placed_at (O.scene now.now) part form ∷ []) }
{
    let sign = now.sign(&form, steps);
    let fact = Fact { form, sign };
    put(facts, Placed { part, fact })
}

/// Puts the facts of each two neighbours at the end.
fn put_neighbours<O: Signs, L: Ledger>(
    now: &O,
    dx: i32,
    dy: i32,
    part: u32,
    order: &[u32],
    facts: &mut Vec<Placed>,
    steps: &mut Steps<L>,
) -> Result<(), NoMemory>
    requires small { IsSmallDirection dx dy }
    requires live { AreLive (O.scene now.now) order.now }
    ensures { OnOk result (facts.new.items ≡ facts.old.items ++ neighbour_facts (O.scene now.now) dx dy part order.now) }
{
    for place in 1..order.len() {
        let form = Form::Line {
            dx,
            dy,
            off: 0,
            i: order[place - 1],
            j: order[place],
        };
        put_fact(now, part, form, facts, steps)?;
    }
    Ok(())
}

/// Puts the facts of the order along a direction at the end.
pub fn put_order_facts<O: Signs, L: Ledger>(
    alloc: Global,
    now: &O,
    live: &[u32],
    dx: i32,
    dy: i32,
    part: u32,
    facts: &mut Vec<Placed>,
    steps: &mut Steps<L>,
) -> Result<(), NoMemory>
    requires small { IsSmallDirection dx dy }
    requires live { live.now ≡ (O.scene now.now).live }
    ensures { OnOk result (facts.new.items ≡ facts.old.items ++ order_facts (O.scene now.now) dx dy part) }
{
    let order = order_of(alloc, now, live, dx, dy, steps)?;
    put_neighbours(now, dx, dy, part, &order, facts, steps)
}

/// Puts the facts of the eight orders at the end.
pub fn put_wedge_facts<O: Signs, L: Ledger>(
    alloc: Global,
    now: &O,
    live: &[u32],
    facts: &mut Vec<Placed>,
    steps: &mut Steps<L>,
) -> Result<(), NoMemory>
    requires live { live.now ≡ (O.scene now.now).live }
    ensures { OnOk result (facts.new.items ≡ facts.old.items ++ wedge_facts (O.scene now.now)) }
{
    for part in 0..8 {
        let (dx, dy) = direction_of(part);
        put_order_facts(alloc, now, live, dx, dy, part, facts, steps)?;
    }
    Ok(())
}

/// Puts the facts of the order along x at the end, and then those of the order along y.
pub fn put_range_facts<O: Signs, L: Ledger>(
    alloc: Global,
    now: &O,
    live: &[u32],
    facts: &mut Vec<Placed>,
    steps: &mut Steps<L>,
) -> Result<(), NoMemory>
    requires live { live.now ≡ (O.scene now.now).live }
    ensures { OnOk result (facts.new.items ≡ facts.old.items ++ range_facts (O.scene now.now)) }
{
    put_order_facts(alloc, now, live, 1, 0, 0, facts, steps)?;
    put_order_facts(alloc, now, live, 0, 1, 1, facts, steps)
}
