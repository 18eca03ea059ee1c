//! Replies to questions, from all positions.

ghost use Rattle.std.specs.Prelude.{◌≡◌, ◌↔◌, IfOk, IsTrue, slice_get};
ghost use Rattle.std.specs.List.{Contains};
ghost use Rattle.kin_motion.specs.Boxes.{IsRectInRange};
ghost use Rattle.kin_script.specs.declared.command.Command.TheVariants as asked;
ghost use Rattle.kin_script.specs.Questions.{kept_boxes};
ghost use Rattle.kin_script.specs.Ranges.{IsCommandInRange};
ghost use Rattle.kin_check.specs.Performed.{IsReply};
ghost use Rattle.kin_check.specs.Sound.{IsSound};

use crate::halt::Halt;
use crate::sight::{facts_at, sight_at};
use crate::state::State;
use kin_motion::{Keep, Rect};
use kin_num::Steps;
use kin_plain::closest::closest_of;
use kin_plain::cycle::cycle_of;
use kin_plain::extreme::extreme_of;
use kin_plain::farthest::farthest_of;
use kin_plain::nearest::nearest_of;
use kin_plain::order::order_of;
use kin_plain::overlaps::overlaps_of;
use kin_plain::rect::points_in;
use kin_print::Reply;
use kin_script::command::Command;
use kin_script::refusal::Refusal;
use std::alloc::Global;
use std::sync::ledger::Ledger;

/// The structure of this number.
fn keep_at(keeps: &[Keep], structure: u32) -> Option<Keep>
    ensures { result ≡ slice_get keeps.now structure }
{
    keeps.get(structure as usize).copied()
}

/// Whether such a structure is kept.
fn has_keep(keeps: &[Keep], kind: &Keep) -> bool
    ensures { IsTrue result ↔ Contains keeps.now kind.now }
{
    for keep in keeps {
        if keep.is(kind) {
            return true;
        }
    }
    false
}

/// The width and the height of the boxes that are kept.
fn kept_boxes(keeps: &[Keep]) -> Option<(i32, i32)>
    ensures { result ≡ kept_boxes keeps.now }
{
    for keep in keeps {
        if let Keep::Boxes { w, h } = *keep {
            return Some((w, h));
        }
    }
    None
}

/// The order that is kept as structure `s`.
fn order<L: Ledger>(
    alloc: Global,
    state: &State,
    s: u32,
    steps: &mut Steps<L>,
) -> Result<Reply, Halt>
    requires { IsSound state.now }
    ensures { IsReply state.now (asked.Order s) result }
{
    match keep_at(state.keeps(), s) {
        Some(Keep::Order { dx, dy }) => {
            let sight = sight_at(alloc, state, &state.moment())?;
            Ok(Reply::List(order_of(alloc, &sight, &sight.live, dx, dy, steps)?))
        }
        _ => Err(Halt::Refused(Refusal::NotKept)),
    }
}

/// The extreme point that is kept as structure `s`.
fn extreme<L: Ledger>(
    alloc: Global,
    state: &State,
    s: u32,
    steps: &mut Steps<L>,
) -> Result<Reply, Halt>
    requires { IsSound state.now }
    ensures { IsReply state.now (asked.Extreme s) result }
{
    match keep_at(state.keeps(), s) {
        Some(Keep::Extreme { dx, dy }) => {
            let sight = sight_at(alloc, state, &state.moment())?;
            Ok(Reply::One(extreme_of(&sight, &sight.live, dx, dy, steps)))
        }
        _ => Err(Halt::Refused(Refusal::NotKept)),
    }
}

/// The points of the hull, counterclockwise, the leftmost first.
fn hull<L: Ledger>(alloc: Global, state: &State, steps: &mut Steps<L>) -> Result<Reply, Halt>
    requires { IsSound state.now }
    ensures { IsReply state.now asked.Hull result }
{
    if !has_keep(state.keeps(), &Keep::Hull) {
        return Err(Halt::Refused(Refusal::NotKept));
    }
    let sight = sight_at(alloc, state, &state.moment())?;
    Ok(Reply::List(cycle_of(alloc, &sight, &sight.live, steps)?))
}

/// The closest pair.
fn closest<L: Ledger>(alloc: Global, state: &State, steps: &mut Steps<L>) -> Result<Reply, Halt>
    requires { IsSound state.now }
    ensures { IsReply state.now asked.Closest result }
{
    if !has_keep(state.keeps(), &Keep::Closest) {
        return Err(Halt::Refused(Refusal::NotKept));
    }
    let sight = sight_at(alloc, state, &state.moment())?;
    Ok(Reply::Pair(closest_of(alloc, &sight, &sight.live, steps)?))
}

/// The points in a rectangle.
fn inside<L: Ledger>(
    alloc: Global,
    state: &State,
    rect: &Rect,
    steps: &mut Steps<L>,
) -> Result<Reply, Halt>
    requires sound { IsSound state.now }
    requires rect { IsRectInRange rect.now }
    ensures { IsReply state.now (asked.Inside rect.now) result }
{
    if !has_keep(state.keeps(), &Keep::Range) {
        return Err(Halt::Refused(Refusal::NotKept));
    }
    let sight = sight_at(alloc, state, &state.moment())?;
    let inside = points_in(
        alloc,
        &sight.motions,
        &sight.moment,
        rect,
        &sight.live,
        steps,
    )?;
    Ok(Reply::List(inside))
}

/// The nearest other point of a point. What isn't kept comes before what isn't there.
fn nearest<L: Ledger>(
    alloc: Global,
    state: &State,
    no: u32,
    steps: &mut Steps<L>,
) -> Result<Reply, Halt>
    requires { IsSound state.now }
    ensures { IsReply state.now (asked.Nearest no) result }
{
    if !has_keep(state.keeps(), &Keep::Nearest) {
        return Err(Halt::Refused(Refusal::NotKept));
    }
    if state.plan(no).is_none() {
        return Err(Halt::Refused(Refusal::Absent));
    }
    let sight = sight_at(alloc, state, &state.moment())?;
    Ok(Reply::One(nearest_of(alloc, &sight, &sight.live, no, steps)?))
}

/// The farthest pair.
fn farthest<L: Ledger>(alloc: Global, state: &State, steps: &mut Steps<L>) -> Result<Reply, Halt>
    requires { IsSound state.now }
    ensures { IsReply state.now asked.Farthest result }
{
    if !has_keep(state.keeps(), &Keep::Diameter) {
        return Err(Halt::Refused(Refusal::NotKept));
    }
    let sight = sight_at(alloc, state, &state.moment())?;
    Ok(Reply::Pair(farthest_of(alloc, &sight, &sight.live, steps)?))
}

/// The pairs of points whose boxes overlap.
fn overlaps<L: Ledger>(alloc: Global, state: &State, steps: &mut Steps<L>) -> Result<Reply, Halt>
    requires { IsSound state.now }
    ensures { IsReply state.now asked.Overlaps result }
{
    match kept_boxes(state.keeps()) {
        Some((w, h)) => {
            let sight = sight_at(alloc, state, &state.moment())?;
            Ok(Reply::Pairs(overlaps_of(alloc, &sight, &sight.live, w, h, steps)?))
        }
        None => Err(Halt::Refused(Refusal::NotKept)),
    }
}

/// How many facts are live.
fn live<L: Ledger>(alloc: Global, state: &State, steps: &mut Steps<L>) -> Result<Reply, Halt>
    requires { IsSound state.now }
    ensures { IsReply state.now asked.Live result }
{
    let facts = facts_at(alloc, state, &state.moment(), steps)?;
    Ok(Reply::Count(facts.len() as u64))
}

/// The reply to a question, `NotKept` where what it asks for isn't kept, or else `Absent` where the point that it is about
/// isn't there. `command` is a question.
pub fn reply_to<L: Ledger>(
    alloc: Global,
    state: &State,
    command: &Command,
    steps: &mut Steps<L>,
) -> Result<Reply, Halt>
    requires sound { IsSound state.now }
    requires range { IsCommandInRange state.now.size command.now }
    ensures { IsReply state.now command.now result }
{
    match *command {
        Command::Order { s } => order(alloc, state, s, steps),
        Command::Extreme { s } => extreme(alloc, state, s, steps),
        Command::Hull => hull(alloc, state, steps),
        Command::Closest => closest(alloc, state, steps),
        Command::Inside { rect } => inside(alloc, state, &rect, steps),
        Command::Nearest { no } => nearest(alloc, state, no, steps),
        Command::Farthest => farthest(alloc, state, steps),
        Command::Overlaps => overlaps(alloc, state, steps),
        Command::Live => live(alloc, state, steps),
        _ => Err(Halt::Refused(Refusal::NotKept)),
    }
}
