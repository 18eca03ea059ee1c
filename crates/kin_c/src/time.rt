//! Calls that go on in time.

ghost use Rattle.std.specs.Prelude.{◌≡◌};
ghost use Rattle.kin_c.specs.Calls.{Changing, Going};
ghost use Rattle.kin_c.specs.Statuses.{Answers};
ghost use Rattle.kin_c.specs.Times.{Goes, GoesOn, GoesToFraction, GoesToMoment, GoesToRoot, Reports, Steps, StepsTo, report};

use crate::failure::{KinFailure, put_failures};
use crate::handle::KinWorld;
use crate::moment::KinMoment;
use crate::status::Status;
use kin_tracker::{Block, Event, Moment, Tracker, fraction, root};
use std::alloc::Global;

/// The event that nothing is.
const NOTHING: u32 = 0;

/// The event that facts fail.
const FAILURES: u32 = 1;

/// The event that a leg begins.
const LEG: u32 = 2;

/// Goes to the instant `n / d`.
#[unsafe(no_mangle)]
pub extern "C" fn kin_go_to_fraction(alloc: Global, world: &mut KinWorld, n: i64, d: i64) -> u32
    ensures { Answers result (Changing (GoesToFraction n d) world.old.slot.value world.new.slot.value) }
{
    let Some(mut tracker) = world.take(alloc) else {
        return Status::NoWorld.code();
    };
    let status = go_to_fraction(&mut tracker, n, d);
    world.put(tracker);
    status.code()
}

/// Goes to the instant `n / d`, if there is one.
fn go_to_fraction(tracker: &mut Tracker, n: i64, d: i64) -> Status
    ensures { GoesToFraction n d tracker.old tracker.new result }
{
    match fraction(n, d) {
        Ok(moment) => go(tracker, &moment),
        Err(refusal) => Status::Refused(refusal),
    }
}

/// Goes to the greater root of `a*t^2 + b*t + c`, or to the lesser one.
#[unsafe(no_mangle)]
pub extern "C" fn kin_go_to_root(
    alloc: Global,
    world: &mut KinWorld,
    a: i64,
    b: i64,
    c: i64,
    upper: bool,
) -> u32
    ensures { Answers result (Changing (GoesToRoot a b c upper) world.old.slot.value world.new.slot.value) }
{
    let Some(mut tracker) = world.take(alloc) else {
        return Status::NoWorld.code();
    };
    let status = go_to_root(&mut tracker, a, b, c, upper);
    world.put(tracker);
    status.code()
}

/// Goes to a root, if there is one.
fn go_to_root(tracker: &mut Tracker, a: i64, b: i64, c: i64, upper: bool) -> Status
    ensures { GoesToRoot a b c upper tracker.old tracker.new result }
{
    match root(a, b, c, upper) {
        Ok(moment) => go(tracker, &moment),
        Err(refusal) => Status::Refused(refusal),
    }
}

/// Goes to a moment.
#[unsafe(no_mangle)]
pub extern "C" fn kin_go_to_moment(alloc: Global, world: &mut KinWorld, moment: &KinMoment) -> u32
    ensures { Answers result (Changing (GoesToMoment moment.now) world.old.slot.value world.new.slot.value) }
{
    let Some(mut tracker) = world.take(alloc) else {
        return Status::NoWorld.code();
    };
    let status = go_to_moment(&mut tracker, moment);
    world.put(tracker);
    status.code()
}

/// Goes to the moment that the numbers name, if there is one.
fn go_to_moment(tracker: &mut Tracker, moment: &KinMoment) -> Status
    ensures { GoesToMoment moment.now tracker.old tracker.new result }
{
    match moment.read() {
        Ok(moment) => go(tracker, &moment),
        Err(refusal) => Status::Refused(refusal),
    }
}

/// Goes to a moment.
fn go(tracker: &mut Tracker, moment: &Moment) -> Status
    ensures { Goes moment.now tracker.old tracker.new result }
{
    match tracker.go_to(moment) {
        Ok(()) => Status::Done,
        Err(refusal) => Status::Refused(refusal),
    }
}

/// Goes to what comes next.
#[unsafe(no_mangle)]
pub extern "C" fn kin_go_on(
    alloc: Global,
    world: &mut KinWorld,
    event: &mut u32,
    moment: &mut KinMoment,
    out: &mut [KinFailure],
    len: &mut usize,
) -> u32
    ensures { let before = report event.old moment.old out.old len.old in let after = report event.new moment.new out.new len.new in
        Answers result (Going GoesOn before after world.old.slot.value world.new.slot.value) }
{
    let Some(mut tracker) = world.take(alloc) else {
        return Status::NoWorld.code();
    };
    let status = go_on(&mut tracker, event, moment, out, len);
    world.put(tracker);
    status.code()
}

/// Goes to what comes next.
fn go_on(
    tracker: &mut Tracker,
    event: &mut u32,
    moment: &mut KinMoment,
    out: &mut [KinFailure],
    len: &mut usize,
) -> Status
    ensures { GoesOn (report event.old moment.old out.old len.old) (report event.new moment.new out.new len.new) tracker.old tracker.new result }
{
    match tracker.go_on() {
        Ok(next) => tell(&next, event, moment, out, len),
        Err(refusal) => Status::Refused(refusal),
    }
}

/// Goes to the next failures, or to the limit.
#[unsafe(no_mangle)]
pub extern "C" fn kin_step(
    alloc: Global,
    world: &mut KinWorld,
    limit: &KinMoment,
    event: &mut u32,
    moment: &mut KinMoment,
    out: &mut [KinFailure],
    len: &mut usize,
) -> u32
    ensures { let before = report event.old moment.old out.old len.old in let after = report event.new moment.new out.new len.new in
        Answers result (Going (Steps limit.now) before after world.old.slot.value world.new.slot.value) }
{
    let Some(mut tracker) = world.take(alloc) else {
        return Status::NoWorld.code();
    };
    let status = step(&mut tracker, limit, event, moment, out, len);
    world.put(tracker);
    status.code()
}

/// Goes to the next failures, or to the limit that the numbers name, if there is one.
fn step(
    tracker: &mut Tracker,
    limit: &KinMoment,
    event: &mut u32,
    moment: &mut KinMoment,
    out: &mut [KinFailure],
    len: &mut usize,
) -> Status
    ensures { Steps limit.now (report event.old moment.old out.old len.old) (report event.new moment.new out.new len.new) tracker.old tracker.new result }
{
    match limit.read() {
        Ok(limit) => step_to(tracker, &limit, event, moment, out, len),
        Err(refusal) => Status::Refused(refusal),
    }
}

/// Goes to the next failures, or to the limit.
fn step_to(
    tracker: &mut Tracker,
    limit: &Moment,
    event: &mut u32,
    moment: &mut KinMoment,
    out: &mut [KinFailure],
    len: &mut usize,
) -> Status
    ensures { StepsTo limit.now (report event.old moment.old out.old len.old) (report event.new moment.new out.new len.new) tracker.old tracker.new result }
{
    match tracker.step(limit) {
        Ok(Some(block)) => tell(&Event::Failures(block), event, moment, out, len),
        Ok(None) => tell(&Event::Nothing, event, moment, out, len),
        Err(refusal) => Status::Refused(refusal),
    }
}

/// Reports an event.
fn tell(
    next: &Event,
    event: &mut u32,
    moment: &mut KinMoment,
    out: &mut [KinFailure],
    len: &mut usize,
) -> Status
    ensures { Reports next.now (report event.old moment.old out.old len.old) (report event.new moment.new out.new len.new) result }
{
    match next {
        Event::Failures(block) => {
            *event = FAILURES;
            *moment = KinMoment::of(&block.moment);
            put_failures(&block.failures, out, len)
        }
        Event::Leg(begins) => {
            *event = LEG;
            *moment = KinMoment::of(begins);
            put_failures(&[], out, len)
        }
        Event::Nothing => {
            *event = NOTHING;
            put_failures(&[], out, len)
        }
    }
}
