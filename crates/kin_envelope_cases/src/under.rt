//! An envelope tree against its definition, by signs alone.

ghost use Rattle.std.specs.Prelude.{◌≤◌, ◌<◌, ◌^◌};

use kin_cases::ask::Sight;
use kin_cases::definition::{are_few, are_same, facts_of_merge};
use kin_cases::envelope::Envelope;
use kin_cases::fault::Fault;
use kin_cases::watch::Tally;
use kin_motion::signs::Signs;
use kin_motion::{Motions, Placed};
use kin_num::{Moment, Steps};
use std::alloc::Global;
use std::sync::ledger::Ledger;

/// Whether a node comes to another when it is halved.
fn comes_to(from: u32, node: u32) -> bool {
    for halvings in 0..32u32 {
        if from >> halvings == node {
            return true;
        }
    }
    false
}

/// The live numbers under a node, rising.
fn points_under(alloc: Global, motions: &Motions, size: u32, node: u32) -> Result<Vec<u32>, Fault>
    requires { size ≤ 12 }
{
    let mut points = Vec::new(alloc);
    for no in 0..1u32 << size {
        if motions.get(no).is_some() && comes_to((1 << size) + no, node) {
            points.push(no).map_err(|_| Fault::NoMemory)?;
        }
    }
    Ok(points)
}

/// The facts of the merge of both halves of a node, where there are any.
fn facts_at<O: Signs>(
    alloc: Global,
    sight: &Sight<'_, O>,
    size: u32,
    node: u32,
) -> Result<Vec<Placed>, Fault>
    requires small { size ≤ 12 }
    requires inner { node < 2 ^ 12 }
{
    let left = points_under(alloc, sight.motions, size, 2 * node)?;
    let right = points_under(alloc, sight.motions, size, 2 * node + 1)?;
    let a = sight.upper_chain(alloc, &left)?;
    let b = sight.upper_chain(alloc, &right)?;
    facts_of_merge(alloc, sight, node, &a, &b)
}

/// All facts of a tree.
fn facts_of_tree<O: Signs>(
    alloc: Global,
    sight: &Sight<'_, O>,
    size: u32,
) -> Result<Vec<Placed>, Fault>
    requires { size ≤ 12 }
{
    let mut facts = Vec::new(alloc);
    for node in 1..1u32 << 12 {
        if node >= 1 << size {
            break;
        }
        let more = facts_at(alloc, sight, size, node)?;
        facts.extend_from_slice(&more)?;
    }
    Ok(facts)
}

/// Whether the chain and the facts are those of the definition at a moment.
fn is_right<'a>(alloc: Global, envelope: &'a Envelope, moment: &'a Moment) -> Result<bool, Fault> {
    let now = envelope.at(moment);
    let sight = Sight::at(&now);
    let size = envelope.size();
    let points = points_under(alloc, now.motions, size, 1)?;
    let chain = sight.upper_chain(alloc, &points)?;
    let facts = facts_of_tree(alloc, &sight, size)?;
    Ok(chain.as_slice() == envelope.top() && are_same(&facts, envelope.facts()))
}

/// Settles at a moment. The chain and the facts have to be those of the definition, and few signs may be
/// asked.
pub fn go<L: Ledger>(
    alloc: Global,
    envelope: Envelope,
    moment: &Moment,
    tally: &Tally,
    steps: &mut Steps<L>,
) -> Result<Envelope, Fault> {
    let before = tally.asked();
    let envelope = envelope.settle(moment, tally, steps)?;
    let asked = tally.asked().wrapping_sub(before);
    if is_right(alloc, &envelope, moment)? && are_few(asked, envelope.report()) {
        Ok(envelope)
    } else {
        Err(Fault::Differs)
    }
}
