//! Vehicles on two roads that cross: how a program uses a `World`. It goes from event to event, and prints when
//! another pair becomes the closest one and when the closest two come within 20. Each time is exact.
#![tactic(auto)]

ghost use Rattle.std.specs.Prelude.{◌≤◌, unsigned_abs, OnOk};
ghost use Rattle.kin_motion.specs.Course.{motion_limit};
ghost use Rattle.kin_proved_example.specs.Watched.{IsWatched, CanGoOn, HasGoneOn};

use kin_print::{put_bytes, put_list, put_moment, put_pair};
use kin_world::{
    Keep, Ledger, Moment, Motion, NoMemory, Phase, Rect, Steps, Work, World, compare_moments,
    first_within, ratio, uncounted,
};
use std::alloc::Global;
use std::io::{self, Write};

/// What a change answers: want of memory is all that can go wrong, and then the world is lost.
type Done = Result<(), NoMemory>;

/// The whole run, which gives the text. It is handed a counter of steps, which is never read here.
struct Run(Global);

impl Work for Run {
    type Outcome = Result<Vec<u8>, NoMemory>;

    fn run<L: Ledger>(self, steps: &mut Steps<L>) -> Result<Vec<u8>, NoMemory> {
        let Run(alloc) = self;
        // Vehicles have numbers below 2^2, and two structures are kept.
        let mut world = World::new(alloc, 2, &[Keep::Closest, Keep::Range])?;
        text_of(alloc, &mut world, steps)
    }
}

/// What is printed of the run.
fn text_of<L: Ledger>(
    alloc: Global,
    world: &mut World,
    steps: &mut Steps<L>,
) -> Result<Vec<u8>, NoMemory>
    requires { IsWatched world.old }
{
    let mut text = Vec::new(alloc);
    play(world, &mut text, steps)?;
    Ok(text)
}

/// Two vehicles go east, one far behind the other, one north, and one against them; 50 seconds go by.
fn play<L: Ledger>(world: &mut World, text: &mut Vec<u8>, steps: &mut Steps<L>) -> Done
    requires { IsWatched world.old }
{
    enter(world, 0, Motion::new(-300, 0, 12, 0), steps)?;
    enter(world, 1, Motion::new(0, -260, 0, 11), steps)?;
    enter(world, 2, Motion::new(-520, 0, 17, 0), steps)?;
    enter(world, 3, Motion::new(350, 4, -10, 0), steps)?;
    tell(text, world.now(), b": closest ", world.closest())?;
    watch(world, 24, text, steps)?;
    tell_crossing(world, text)?;
    watch(world, 30, text, steps)?;
    tell_crossing(world, text)?;
    turn(world, 2, 0, 12, steps)?;
    watch(world, 36, text, steps)?;
    leave(world, 1, steps)?;
    tell(text, world.now(), b": closest ", world.closest())?;
    watch(world, 50, text, steps)
}

/// A vehicle comes in, if its number is free and below 2^2.
fn enter<L: Ledger>(world: &mut World, no: u32, motion: Motion, steps: &mut Steps<L>) -> Done
    requires { IsWatched world.old }
    ensures { OnOk result (IsWatched world.new) }
{
    if !world.can_insert(no) {
        return Ok(());
    }
    world.insert(no, motion, steps)
}

/// A vehicle that is there goes out.
fn leave<L: Ledger>(world: &mut World, no: u32, steps: &mut Steps<L>) -> Done
    requires { IsWatched world.old }
    ensures { OnOk result (IsWatched world.new) }
{
    if world.motion(no).is_none() {
        return Ok(());
    }
    world.remove(no, steps)
}

/// A vehicle that is there gets the velocity `(u, v)`, if it can have it now.
fn turn<L: Ledger>(world: &mut World, no: u32, u: i32, v: i32, steps: &mut Steps<L>) -> Done
    requires slow { (unsigned_abs u ≤ motion_limit) × (unsigned_abs v ≤ motion_limit) }
    requires watched { IsWatched world.old }
    ensures { OnOk result (IsWatched world.new) }
{
    if world.motion(no).is_none() || world.turned(no, u, v).is_err() {
        return Ok(());
    }
    world.turn(no, u, v, steps)
}

/// Goes to the next event, or to the limit where none comes before it.
fn go_on<L: Ledger>(world: &mut World, limit: &Moment, steps: &mut Steps<L>) -> Done
    requires { CanGoOn limit.now world.old }
    ensures { OnOk result (HasGoneOn world.old world.new) }
{
    world.pass(limit, steps)?;
    Ok(())
}

/// Goes from event to event until this second, and prints what happens on the way.
fn watch<L: Ledger>(world: &mut World, until: u16, text: &mut Vec<u8>, steps: &mut Steps<L>) -> Done
    requires { IsWatched world.old }
    ensures { OnOk result (IsWatched world.new) }
{
    let (at, phase) = (ratio(i64::from(until), 1), Phase::At);
    let limit = Moment { at, phase };
    while compare_moments(world.now(), &limit, steps).is_lt() {
        let (pair, near) = (world.closest(), approach(world, steps));
        go_on(world, &limit, steps)?;
        if let Some(near) = near
            && compare_moments(&near, world.now(), steps).is_le()
        {
            tell(text, &near, b": near ", pair)?;
        }
        if world.closest() != pair {
            tell(text, world.now(), b": closest ", world.closest())?;
        }
    }
    Ok(())
}

/// When the closest two come within 20 if they go on as they do, unless they are so near already.
fn approach<L: Ledger>(world: &World, steps: &mut Steps<L>) -> Option<Moment>
    requires { IsWatched world.now }
{
    let (i, j) = world.closest()?;
    let (one, other) = (world.motion(i)?, world.motion(j)?);
    first_within(&one, &other, 20, world.now(), steps).filter(|near| near != world.now())
}

/// Prints what happens to two vehicles, and when.
fn tell(text: &mut Vec<u8>, moment: &Moment, event: &[u8], pair: Option<(u32, u32)>) -> Done {
    put_moment(text, moment)?;
    put_bytes(text, event)?;
    put_pair(text, pair)
}

/// Prints which vehicles are on the crossing now.
fn tell_crossing(world: &World, text: &mut Vec<u8>) -> Done
    requires { IsWatched world.now }
{
    let (x1, x2, y1, y2) = (-20, 20, -20, 20);
    put_moment(text, world.now())?;
    put_bytes(text, b": on the crossing ")?;
    put_list(text, world.inside(&Rect { x1, x2, y1, y2 })?.as_slice())
}

fn main(rt: HostRuntime) -> io::Result<()> {
    let text = uncounted(Run(rt.alloc())).map_err(|_| io::ErrorKind::OutOfMemory)?;
    io::writer(&rt).write_all(&text)
}
