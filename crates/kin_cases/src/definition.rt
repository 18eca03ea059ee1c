//! The facts of a merge and the effect of edits, straight from their definitions. Each breakpoint
//! finds by itself which breakpoints of the other chain come before it.

use crate::ask::Sight;
use crate::chains::{x_line, y_line};
use crate::failing::is_among;
use crate::fault::Fault;
use kin_motion::fact::{Delta, Fact, Placed};
use kin_motion::form::Form;
use kin_motion::signs::Signs;
use kin_num::Sign;
use kin_overlay::ChainEdit;
use std::alloc::Global;

/// Two neighbours of a chain.
#[derive(Clone, Copy, Debug, PartialEq, Eq)]
struct Edge {
    left: u32,
    right: u32,
    is_of_a: bool,
}

impl Edge {
    /// The neighbours at a place of a chain and the next, if there are two.
    fn at(chain: &[u32], place: usize, is_of_a: bool) -> Option<Edge> {
        let left = *chain.get(place)?;
        let right = *chain.get(place.checked_add(1)?)?;
        Some(Edge {
            left,
            right,
            is_of_a,
        })
    }

    fn turn(self, to: u32) -> Form {
        Form::Turn {
            i: self.left,
            j: self.right,
            k: to,
        }
    }

    fn slope(self, other: Edge) -> Form {
        Form::Slope {
            i: self.left,
            j: self.right,
            k: other.left,
            l: other.right,
        }
    }
}

impl<O: Signs> Sight<'_, O> {
    /// Whether an edge comes before one of the other chain: it is steeper, or equally steep and of
    /// A.
    fn stands_before(&self, edge: Edge, other: Edge) -> Result<bool, Fault> {
        let sign = self.sign(&edge.slope(other))?;
        Ok(match sign {
            Sign::Plus => true,
            Sign::Zero => edge.is_of_a,
            Sign::Minus => false,
        })
    }

    /// How many edges of the other chain come before this one.
    fn before(&self, edge: Edge, other: &[u32]) -> Result<usize, Fault> {
        let mut count = 0;
        for place in 0..other.len() {
            let Some(rival) = Edge::at(other, place, !edge.is_of_a) else {
                break;
            };
            if self.stands_before(rival, edge)? {
                count = place + 1;
            }
        }
        Ok(count)
    }

    /// The edge of the other chain that is next to this one in the list, if the next one is of the
    /// other chain.
    fn next_across(&self, next: Option<Edge>, rival: Option<Edge>) -> Result<Option<Edge>, Fault> {
        let (Some(next), Some(rival)) = (next, rival) else {
            return Ok(rival);
        };
        if self.stands_before(next, rival)? {
            return Ok(None);
        }
        Ok(Some(rival))
    }
}

/// Puts a form with its sign at the end of the facts.
pub fn note<O: Signs>(
    sight: &Sight<'_, O>,
    part: u32,
    form: Form,
    facts: &mut Vec<Placed>,
) -> Result<(), Fault> {
    let sign = sight.sign(&form)?;
    let fact = Fact { form, sign };
    facts
        .push(Placed { part, fact })
        .map_err(|_| Fault::NoMemory)?;
    Ok(())
}

/// The turns of one chain to the other, and the slopes of its edges with a next one of the other.
fn note_edges<O: Signs>(
    sight: &Sight<'_, O>,
    part: u32,
    own: &[u32],
    other: &[u32],
    is_of_a: bool,
    facts: &mut Vec<Placed>,
) -> Result<(), Fault> {
    for place in 0..own.len() {
        let Some(edge) = Edge::at(own, place, is_of_a) else {
            break;
        };
        let count = sight.before(edge, other)?;
        if let Some(across) = other.get(count) {
            note(sight, part, edge.turn(*across), facts)?;
        }
        let next = Edge::at(own, place + 1, is_of_a);
        let rival = Edge::at(other, count, !is_of_a);
        if let Some(rival) = sight.next_across(next, rival)? {
            note(sight, part, edge.slope(rival), facts)?;
        }
    }
    Ok(())
}

/// An outer end: by x, and where x is equal also by y.
fn note_end<O: Signs>(
    sight: &Sight<'_, O>,
    part: u32,
    ends: (Option<&u32>, Option<&u32>),
    facts: &mut Vec<Placed>,
) -> Result<(), Fault> {
    let (Some(p), Some(q)) = ends else {
        return Ok(());
    };
    note(sight, part, x_line(*p, *q), facts)?;
    if sight.sign(&x_line(*p, *q))? == Sign::Zero {
        note(sight, part, y_line(*p, *q), facts)?;
    }
    Ok(())
}

/// The facts of the merge of two chains.
pub fn facts_of_merge<O: Signs>(
    alloc: Global,
    sight: &Sight<'_, O>,
    part: u32,
    a: &[u32],
    b: &[u32],
) -> Result<Vec<Placed>, Fault> {
    let mut facts = Vec::new(alloc);
    note_edges(sight, part, a, b, true, &mut facts)?;
    note_edges(sight, part, b, a, false, &mut facts)?;
    note_end(sight, part, (a.first(), b.first()), &mut facts)?;
    if a.len() > 1 || b.len() > 1 {
        note_end(sight, part, (a.last(), b.last()), &mut facts)?;
    }
    Ok(facts)
}

/// Whether both lists have the same facts, where no fact is twice in one.
pub fn are_same(facts: &[Placed], others: &[Placed]) -> bool {
    facts.len() == others.len() && facts.iter().all(|fact| is_among(fact, others))
}

/// Whether the report is the difference of the facts before and after, each fact once.
pub fn is_difference(report: &Delta, before: &[Placed], after: &[Placed]) -> bool {
    is_lacking(&report.dropped, before, after) && is_lacking(&report.born, after, before)
}

/// Whether so many signs were asked at most as five for each fact born, and one for each dropped.
pub fn are_few(asked: u64, report: &Delta) -> bool {
    let born = report.born.len() as u64;
    let dropped = report.dropped.len() as u64;
    asked <= born.saturating_mul(5).saturating_add(dropped)
}

/// Whether the list has exactly those facts that others lack, each once.
fn is_lacking(list: &[Placed], facts: &[Placed], others: &[Placed]) -> bool {
    let are_missing = list
        .iter()
        .all(|fact| is_among(fact, facts) && !is_among(fact, others));
    let are_all = facts
        .iter()
        .all(|fact| is_among(fact, others) || is_among(fact, list));
    are_missing && are_all && is_once(list)
}

/// Whether no fact is in it twice.
fn is_once(list: &[Placed]) -> bool {
    for place in 0..list.len() {
        if is_among(&list[place], &list[place + 1..]) {
            return false;
        }
    }
    true
}

/// The list after one edit.
fn edited(alloc: Global, edit: &ChainEdit, list: &[u32]) -> Result<Vec<u32>, Fault> {
    let place = edit.place as usize;
    let behind = place + edit.drop as usize;
    if behind > list.len() {
        return Err(Fault::NotReady);
    }
    let mut after = Vec::from_slice(alloc, &list[..place])?;
    after.extend_from_slice(edit.put.as_slice())?;
    after.extend_from_slice(&list[behind..])?;
    Ok(after)
}

/// The numbers of a list that are in another one, too.
fn common(alloc: Global, list: &[u32], other: &[u32]) -> Result<Vec<u32>, Fault> {
    let mut common = Vec::new(alloc);
    for no in list {
        if other.contains(no) {
            common.push(*no).map_err(|_| Fault::NoMemory)?;
        }
    }
    Ok(common)
}

/// Whether the edits lead from one list to another. Where the numbers that both have keep their order,
/// no edit may drop or put one of them.
pub fn are_short(
    alloc: Global,
    edits: &[ChainEdit],
    old: &[u32],
    new: &[u32],
) -> Result<bool, Fault> {
    let keeps_order = common(alloc, old, new)?.as_slice() == common(alloc, new, old)?.as_slice();
    let mut list = Vec::from_slice(alloc, old)?;
    for edit in edits {
        if keeps_order && edit.put.as_slice().iter().any(|no| old.contains(no)) {
            return Ok(false);
        }
        let after = edited(alloc, edit, &list)?;
        let drops = list
            .iter()
            .any(|no| new.contains(no) && !after.contains(no));
        if keeps_order && drops {
            return Ok(false);
        }
        list = after;
    }
    Ok(list.as_slice() == new)
}
