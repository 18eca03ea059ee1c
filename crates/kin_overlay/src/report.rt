//! What a change of the list changes in the facts.

ghost use Rattle.std.specs.Prelude.{◌+◌, ◌≤◌, length, map, flat_map, OnOk, IfSome, option_to_list};
ghost use Rattle.kin_overlay.specs.Remembered.{turn_fact, slope_facts, end_facts, facts_of};
ghost use Rattle.kin_overlay.specs.Reports.{AreShared, IsBetween, IsTold};

use crate::end::End;
use crate::list::BreakpointList;
use crate::shared::Shared;
use kin_motion::fact::{Fact, Placed};
use kin_num::memory::NoMemory;

/// Reports the fact, if there is one and the other list doesn't have it. It isn't looked for at these
/// records at both ends of the other list, and at this place first.
#[inline(always)]
fn tell(
    fact: Option<Fact>,
    other: &BreakpointList,
    ends: Shared,
    place: usize,
    part: u32,
    told: &mut Vec<Placed>,
) -> Result<(), NoMemory>
    requires within { ends.front + ends.back ≤ length other.now.records }
    requires outside { IfSome fact (λ f. IsBetween ends other.now.records f.form) }
    ensures { OnOk result (IsTold part (facts_of other.now) (option_to_list fact) told.old.items told.new.items) }
{
    let Some(fact) = fact else {
        return Ok(());
    };
    if other.has(fact, ends, place) {
        return Ok(());
    }
    let Ok(()) = told.push(Placed { part, fact }) else {
        return Err(NoMemory);
    };
    Ok(())
}

fn tell_turns(
    list: &BreakpointList,
    other: &BreakpointList,
    shared: Shared,
    part: u32,
    told: &mut Vec<Placed>,
) -> Result<(), NoMemory>
    requires shared { AreShared shared list.now.records other.now.records }
    ensures { OnOk result (IsTold part (facts_of other.now) (map turn_fact list.now.records) told.old.items told.new.items) }
{
    let records = list.records();
    for place in shared.front..records.len() - shared.back {
        let noted = &records[place];
        tell(Some(noted.turn_fact()), other, shared, place, part, told)?;
    }
    Ok(())
}

fn tell_slopes(
    list: &BreakpointList,
    other: &BreakpointList,
    shared: Shared,
    part: u32,
    told: &mut Vec<Placed>,
) -> Result<(), NoMemory>
    requires shared { AreShared shared list.now.records other.now.records }
    ensures { OnOk result (IsTold part (facts_of other.now) (flat_map slope_facts list.now.records) told.old.items told.new.items) }
{
    let records = list.records();
    for place in shared.front..records.len() - shared.back {
        let noted = &records[place];
        tell(noted.slope_fact(), other, shared, place, part, told)?;
    }
    Ok(())
}

fn tell_end(
    end: Option<End>,
    other: &BreakpointList,
    part: u32,
    told: &mut Vec<Placed>,
) -> Result<(), NoMemory>
    ensures { OnOk result (IsTold part (facts_of other.now) (end_facts end) told.old.items told.new.items) }
{
    let Some(end) = end else {
        return Ok(());
    };
    if other.has_end(end) {
        return Ok(());
    }
    let none = Shared::none();
    tell(Some(end.x_fact()), other, none, 0, part, told)?;
    tell(end.y_fact(), other, none, 0, part, told)?;
    Ok(())
}

/// Reports the facts of one list that the other one doesn't have. It skips the records that both
/// share, and the outer ends where both have the same.
pub fn tell_missing(
    list: &BreakpointList,
    other: &BreakpointList,
    shared: Shared,
    part: u32,
    told: &mut Vec<Placed>,
) -> Result<(), NoMemory>
    requires shared { AreShared shared list.now.records other.now.records }
    ensures { OnOk result (IsTold part (facts_of other.now) (facts_of list.now) told.old.items told.new.items) }
{
    tell_turns(list, other, shared, part, told)?;
    tell_slopes(list, other, shared, part, told)?;
    if list.has_same_ends(other) {
        return Ok(());
    }
    tell_end(list.left(), other, part, told)?;
    tell_end(list.right(), other, part, told)?;
    Ok(())
}
