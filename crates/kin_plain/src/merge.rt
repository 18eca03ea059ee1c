//! The facts of the merge of two chains.

ghost use Rattle.std.specs.Prelude.{◌≡◌, ◌++◌, ◌<◌, length, IfOk, OnOk};
ghost use Rattle.std.specs.List.{All};
ghost use Rattle.kin_motion.specs.Merges.{breakpoint_list, end_forms, forms_of_merge, slope_between, slopes_from, turns_from};
ghost use Rattle.kin_motion.specs.Numbers.{IsIn};
ghost use Rattle.kin_plain.specs.Forms.{all_placed};
ghost use Rattle.kin_plain.specs.Halves.{AreEndsLive, ends_of};
ghost use Rattle.kin_plain.specs.Live.{AreLive};

use crate::breakpoint::{Breakpoint, merge, put_breakpoints};
use crate::chain::{is_zero, x_sign};
use crate::facts::put_fact;
use kin_motion::fact::Placed;
use kin_motion::form::Form;
use kin_motion::signs::Signs;
use kin_num::memory::NoMemory;
use kin_num::steps::Steps;
use std::alloc::Global;
use std::sync::ledger::Ledger;

/// The breakpoints of two chains in one list.
pub fn breakpoint_list<O: Signs, L: Ledger>(
    alloc: Global,
    now: &O,
    a: &[u32],
    b: &[u32],
    steps: &mut Steps<L>,
) -> Result<Vec<Breakpoint>, NoMemory>
    requires a_live { AreLive (O.scene now.now) a.now }
    requires b_live { AreLive (O.scene now.now) b.now }
    ensures value { IfOk result (λ list. list.items ≡ breakpoint_list (O.scene now.now) a.now b.now) }
    ensures live { IfOk result (λ list. All (AreEndsLive (O.scene now.now).live) list.items) }
{
    let mut these = Vec::new(alloc);
    put_breakpoints(true, a, &mut these)?;
    let mut list = Vec::new(alloc);
    put_breakpoints(false, b, &mut list)?;
    merge(now, &these, &mut list, steps)?;
    Ok(list)
}

/// Puts the turn at each breakpoint to the current point of the other chain at the end. Before the first one
/// the first points of both chains are current.
fn put_turns<O: Signs, L: Ledger>(
    now: &O,
    part: u32,
    first_a: u32,
    first_b: u32,
    list: &[Breakpoint],
    facts: &mut Vec<Placed>,
    steps: &mut Steps<L>,
) -> Result<(), NoMemory>
    requires a_live { IsIn first_a (O.scene now.now).live }
    requires b_live { IsIn first_b (O.scene now.now).live }
    requires list_live { All (AreEndsLive (O.scene now.now).live) list.now }
    ensures { OnOk result (facts.new.items ≡ facts.old.items ++ all_placed (O.scene now.now) part (turns_from first_a first_b list.now)) }
{
    let mut a = first_a;
    let mut b = first_b;
    for place in 0..list.len() {
        let one = list[place];
        put_fact(now, part, one.turn(a, b), facts, steps)?;
        a = one.a_after(a);
        b = one.b_after(b);
    }
    Ok(())
}

/// Puts the slope of two neighbours at the end, if they are of different chains.
fn put_slope<O: Signs, L: Ledger>(
    now: &O,
    part: u32,
    one: &Breakpoint,
    other: &Breakpoint,
    facts: &mut Vec<Placed>,
    steps: &mut Steps<L>,
) -> Result<(), NoMemory>
    requires one { AreEndsLive (O.scene now.now).live one.now }
    requires other { AreEndsLive (O.scene now.now).live other.now }
    ensures { OnOk result (facts.new.items ≡ facts.old.items ++ all_placed (O.scene now.now) part (slope_between one.now other.now)) }
{
    if one.is_beside(other) {
        return Ok(());
    }
    put_fact(now, part, one.slope(other), facts, steps)
}

/// Puts all slopes along a list of breakpoints at the end.
pub fn put_slopes<O: Signs, L: Ledger>(
    now: &O,
    part: u32,
    list: &[Breakpoint],
    facts: &mut Vec<Placed>,
    steps: &mut Steps<L>,
) -> Result<(), NoMemory>
    requires list_live { All (AreEndsLive (O.scene now.now).live) list.now }
    ensures { OnOk result (facts.new.items ≡ facts.old.items ++ all_placed (O.scene now.now) part (slopes_from list.now)) }
{
    for place in 1..list.len() {
        let one = list[place - 1];
        let other = list[place];
        put_slope(now, part, &one, &other, facts, steps)?;
    }
    Ok(())
}

/// Puts the facts of an outer end at the end: by x, and where x is equal also by y.
fn put_end<O: Signs, L: Ledger>(
    now: &O,
    part: u32,
    a: u32,
    b: u32,
    facts: &mut Vec<Placed>,
    steps: &mut Steps<L>,
) -> Result<(), NoMemory>
    requires a_live { IsIn a (O.scene now.now).live }
    requires b_live { IsIn b (O.scene now.now).live }
    ensures { OnOk result (facts.new.items ≡ facts.old.items ++ all_placed (O.scene now.now) part (end_forms (O.scene now.now) a b)) }
{
    let along_x = Form::Line {
        dx: 1,
        dy: 0,
        off: 0,
        i: a,
        j: b,
    };
    put_fact(now, part, along_x, facts, steps)?;
    if !is_zero(x_sign(now, a, b, steps)) {
        return Ok(());
    }
    let along_y = Form::Line {
        dx: 0,
        dy: 1,
        off: 0,
        i: a,
        j: b,
    };
    put_fact(now, part, along_y, facts, steps)
}

/// Puts the facts of both outer ends at the end. They are one where each chain has one point.
fn put_ends<O: Signs, L: Ledger>(
    now: &O,
    part: u32,
    a: &[u32],
    b: &[u32],
    facts: &mut Vec<Placed>,
    steps: &mut Steps<L>,
) -> Result<(), NoMemory>
    requires a_some { 0 < length a.now }
    requires b_some { 0 < length b.now }
    requires a_live { AreLive (O.scene now.now) a.now }
    requires b_live { AreLive (O.scene now.now) b.now }
    ensures { OnOk result (facts.new.items ≡ facts.old.items ++ all_placed (O.scene now.now) part (ends_of (O.scene now.now) a.now b.now)) }
{
    put_end(now, part, a[0], b[0], facts, steps)?;
    let longest = a.len().max(b.len());
    if longest == 1 {
        return Ok(());
    }
    put_end(now, part, a[a.len() - 1], b[b.len() - 1], facts, steps)
}

/// Puts all facts of a merge at the end. There are none where a chain is empty.
pub fn put_merge<O: Signs, L: Ledger>(
    now: &O,
    part: u32,
    a: &[u32],
    b: &[u32],
    list: &[Breakpoint],
    facts: &mut Vec<Placed>,
    steps: &mut Steps<L>,
) -> Result<(), NoMemory>
    requires a_live { AreLive (O.scene now.now) a.now }
    requires b_live { AreLive (O.scene now.now) b.now }
    requires list_live { All (AreEndsLive (O.scene now.now).live) list.now }
    ensures { OnOk result (facts.new.items ≡ facts.old.items ++ all_placed (O.scene now.now) part (forms_of_merge (O.scene now.now) a.now b.now list.now)) }
{
    if a.is_empty() || b.is_empty() {
        return Ok(());
    }
    put_turns(now, part, a[0], b[0], list, facts, steps)?;
    put_slopes(now, part, list, facts, steps)?;
    put_ends(now, part, a, b, facts, steps)
}
