//! Facts that keep the upper chain of a set as it is while they hold.

use kin_cases::ask::Sight;
use kin_cases::chains::{x_line, y_line};
use kin_cases::definition::note;
use kin_cases::fault::Fault;
use kin_motion::fact::Placed;
use kin_motion::form::Form;
use kin_motion::signs::Signs;
use std::alloc::Global;

/// The chain goes to the right and turns right at each point.
fn note_chain<O: Signs>(
    sight: &Sight<'_, O>,
    chain: &[u32],
    facts: &mut Vec<Placed>,
) -> Result<(), Fault> {
    for place in 1..chain.len() {
        let (p, q) = (chain[place - 1], chain[place]);
        note(sight, 0, x_line(p, q), facts)?;
        if let Some(r) = chain.get(place + 1) {
            note(sight, 0, Form::Turn { i: p, j: q, k: *r }, facts)?;
        }
    }
    Ok(())
}

/// What keeps a point off the chain: a point of the chain, or an edge of it.
fn note_witness<O: Signs>(
    sight: &Sight<'_, O>,
    chain: &[u32],
    p: u32,
    facts: &mut Vec<Placed>,
) -> Result<(), Fault> {
    for place in 0..chain.len() {
        let q = chain[place];
        if sight.is_double(p, q)? || sight.is_above(p, q)? {
            note(sight, 0, x_line(p, q), facts)?;
            return note(sight, 0, y_line(p, q), facts);
        }
        if let Some(r) = chain.get(place + 1) {
            if sight.is_under_segment(p, q, *r)? {
                note(sight, 0, x_line(q, p), facts)?;
                note(sight, 0, x_line(p, *r), facts)?;
                return note(sight, 0, Form::Turn { i: q, j: *r, k: p }, facts);
            }
        }
    }
    Err(Fault::NotReady)
}

/// While these facts hold, the chain stays the upper chain of the set.
pub fn certificates<O: Signs>(
    alloc: Global,
    sight: &Sight<'_, O>,
    set: &[u32],
    chain: &[u32],
) -> Result<Vec<Placed>, Fault> {
    let mut facts = Vec::new(alloc);
    note_chain(sight, chain, &mut facts)?;
    for p in set {
        if !chain.contains(p) {
            note_witness(sight, chain, *p, &mut facts)?;
        }
    }
    Ok(facts)
}
