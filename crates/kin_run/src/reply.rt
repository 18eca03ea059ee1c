//! The replies to questions.

ghost use Rattle.std.specs.Prelude.{◌≡◌, ◌≢◌, Bool, IfErr};
ghost use Rattle.kin_motion.specs.Boxes.{IsRectInRange};
ghost use Rattle.kin_script.specs.declared.command.Command.TheVariants as asked;
ghost use Rattle.kin_script.specs.Ranges.{IsCommandInRange};
ghost use Rattle.kin_status.specs.declared.stop.Halt.TheVariants.{Broken as BrokenOff};
ghost use Rattle.kin_status.specs.declared.stop.Stop.TheVariants.{Fault as FaultOf};
ghost use Rattle.kin_status.specs.Performed.{Replies};
ghost use Rattle.kin_world.specs.Worlds.{IsWhole};
ghost use Rattle.kin_run.specs.Replied.{RepliesTo};
ghost use Rattle.kin_run.specs.States.{state_of};

use kin_motion::{Keep, Rect};
use kin_print::{Reply, put_reply};
use kin_script::command::Command;
use kin_script::refusal::Refusal;
use kin_status::stop::Halt;
use kin_world::world::World;

/// The order that is kept as structure `s`.
fn order(world: &World, s: u32) -> Result<Reply, Halt>
    requires { IsWhole world.now }
    ensures { RepliesTo world.now (asked.Order s) result }
{
    match world.keep(s) {
        Some(Keep::Order { .. }) => Ok(Reply::List(world.order(s)?)),
        _ => Err(Halt::Refused(Refusal::NotKept)),
    }
}

/// The extreme point that is kept as structure `s`.
fn extreme(world: &World, s: u32) -> Result<Reply, Halt>
    requires { IsWhole world.now }
    ensures { RepliesTo world.now (asked.Extreme s) result }
{
    match world.keep(s) {
        Some(Keep::Extreme { .. }) => Ok(Reply::One(world.extreme(s))),
        _ => Err(Halt::Refused(Refusal::NotKept)),
    }
}

/// The points of the hull, counterclockwise, the leftmost first.
fn hull(world: &World) -> Result<Reply, Halt>
    requires { IsWhole world.now }
    ensures { RepliesTo world.now asked.Hull result }
{
    if !world.keeps(&Keep::Hull) {
        return Err(Halt::Refused(Refusal::NotKept));
    }
    Ok(Reply::List(world.hull()?))
}

/// The closest pair.
fn closest(world: &World) -> Result<Reply, Halt>
    requires { IsWhole world.now }
    ensures { RepliesTo world.now asked.Closest result }
{
    if !world.keeps(&Keep::Closest) {
        return Err(Halt::Refused(Refusal::NotKept));
    }
    Ok(Reply::Pair(world.closest()))
}

/// The points in a rectangle.
fn inside(world: &World, rect: &Rect) -> Result<Reply, Halt>
    requires whole { IsWhole world.now }
    requires rect { IsRectInRange rect.now }
    ensures { RepliesTo world.now (asked.Inside rect.now) result }
{
    if !world.keeps(&Keep::Range) {
        return Err(Halt::Refused(Refusal::NotKept));
    }
    Ok(Reply::List(world.inside(rect)?))
}

/// The nearest other point of a point. What isn't kept comes before what isn't there.
fn nearest(world: &World, no: u32) -> Result<Reply, Halt>
    requires { IsWhole world.now }
    ensures { RepliesTo world.now (asked.Nearest no) result }
{
    if !world.keeps(&Keep::Nearest) {
        return Err(Halt::Refused(Refusal::NotKept));
    }
    if world.motion(no).is_none() {
        return Err(Halt::Refused(Refusal::Absent));
    }
    Ok(Reply::One(world.nearest(no)))
}

/// The farthest pair.
fn farthest(world: &World) -> Result<Reply, Halt>
    requires { IsWhole world.now }
    ensures { RepliesTo world.now asked.Farthest result }
{
    if !world.keeps(&Keep::Diameter) {
        return Err(Halt::Refused(Refusal::NotKept));
    }
    Ok(Reply::Pair(world.farthest()))
}

/// The pairs of points whose boxes overlap.
fn overlaps(world: &World) -> Result<Reply, Halt>
    requires { IsWhole world.now }
    ensures { RepliesTo world.now asked.Overlaps result }
{
    if !world.keeps_boxes() {
        return Err(Halt::Refused(Refusal::NotKept));
    }
    Ok(Reply::Pairs(world.overlaps()?))
}

/// How many facts are live.
fn live(world: &World) -> Result<Reply, Halt>
    requires { IsWhole world.now }
    ensures { RepliesTo world.now asked.Live result }
{
    Ok(Reply::Count(world.live() as u64))
}

/// The reply to a question, `NotKept` where what it asks for isn't kept, or else `Absent` where the point that it is about
/// isn't there. `command` is a question.
#[tactic(auto, using(crate::proofs::Changing::of_same))]
fn reply_to(world: &World, command: &Command) -> Result<Reply, Halt>
    requires whole { IsWhole world.now }
    requires range { IsCommandInRange world.now.size command.now }
    ensures { RepliesTo world.now command.now result }
{
    match *command {
        Command::Order { s } => order(world, s),
        Command::Extreme { s } => extreme(world, s),
        Command::Hull => hull(world),
        Command::Closest => closest(world),
        Command::Inside { rect } => inside(world, &rect),
        Command::Nearest { no } => nearest(world, no),
        Command::Farthest => farthest(world),
        Command::Overlaps => overlaps(world),
        Command::Live => live(world),
        _ => Err(Halt::Refused(Refusal::NotKept)),
    }
}

/// Appends the line that a question asks for.
pub fn put_reply_to(world: &World, command: &Command, out: &mut Vec<u8>) -> Result<(), Halt>
    requires whole { IsWhole world.now }
    requires range { IsCommandInRange world.now.size command.now }
    ensures line { (journal : Bool) → Replies (state_of journal world.now) command.now result out.old.items out.new.items }
    ensures no_fault { IfErr result (λ halt. halt ≢ BrokenOff FaultOf) }
{
    let reply = reply_to(world, command)?;
    put_reply(out, &reply)?;
    Ok(())
}
