//! Vehicles on two roads that cross: how a program uses a `Tracker`. It goes from event to event, and prints when
//! another pair becomes the closest one and when the closest two come within 20. Each time is exact.
#![tactic(auto)]

use kin_print::{put_bytes, put_list, put_moment, put_pair};
use kin_tracker::{Keep, Moment, Rect, Refusal, Tracker, fraction, is_earlier, motion};
use std::alloc::Global;
use std::io::{self, Write};

/// What a step of the program answers: it is done, or a call was refused.
type Done = Result<(), Refusal>;

/// What is printed of the run.
fn text_of(alloc: Global) -> Result<Vec<u8>, Refusal> {
    // Vehicles have numbers below 2^2, and two structures are kept.
    let mut tracker = Tracker::new(alloc, 2, &[Keep::Closest, Keep::Range])?;
    let mut text = Vec::new(alloc);
    play(&mut tracker, &mut text)?;
    Ok(text)
}

/// Two vehicles go east, one far behind the other, one north, and one against them; 50 seconds go by.
fn play(tracker: &mut Tracker, text: &mut Vec<u8>) -> Done {
    tracker.insert(0, motion(-300, 0, 12, 0)?)?;
    tracker.insert(1, motion(0, -260, 0, 11)?)?;
    tracker.insert(2, motion(-520, 0, 17, 0)?)?;
    tracker.insert(3, motion(350, 4, -10, 0)?)?;
    tell_closest(tracker, text)?;
    watch(tracker, 24, text)?;
    tell_crossing(tracker, text)?;
    watch(tracker, 30, text)?;
    tell_crossing(tracker, text)?;
    tracker.turn(2, 0, 12)?;
    watch(tracker, 36, text)?;
    tracker.remove(1)?;
    tell_closest(tracker, text)?;
    watch(tracker, 50, text)
}

/// Goes from event to event until this second, and prints what happens on the way.
fn watch(tracker: &mut Tracker, until: i64, text: &mut Vec<u8>) -> Done {
    let limit = fraction(until, 1)?;
    loop {
        let (pair, near) = (tracker.closest()?, approach(tracker)?);
        let block = tracker.step(&limit)?;
        if let Some(near) = near
            && !is_earlier(&tracker.now()?, &near)
        {
            tell(text, &near, b": near ", pair)?;
        }
        if tracker.closest()? != pair {
            tell_closest(tracker, text)?;
        }
        if block.is_none() {
            return Ok(());
        }
    }
}

/// When the closest two come within 20 if they go on as they do, unless they are so near already.
fn approach(tracker: &Tracker) -> Result<Option<Moment>, Refusal> {
    let Some((i, j)) = tracker.closest()? else {
        return Ok(None);
    };
    let now = tracker.now()?;
    Ok(tracker.first_within(i, j, 20)?.filter(|near| *near != now))
}

/// Prints what happens to two vehicles, and when.
fn tell(text: &mut Vec<u8>, moment: &Moment, event: &[u8], pair: Option<(u32, u32)>) -> Done {
    put_moment(text, moment)?;
    put_bytes(text, event)?;
    put_pair(text, pair)?;
    Ok(())
}

/// Prints which vehicles are the closest now.
fn tell_closest(tracker: &Tracker, text: &mut Vec<u8>) -> Done {
    tell(text, &tracker.now()?, b": closest ", tracker.closest()?)
}

/// Prints which vehicles are on the crossing now.
fn tell_crossing(tracker: &Tracker, text: &mut Vec<u8>) -> Done {
    let (x1, x2, y1, y2) = (-20, 20, -20, 20);
    put_moment(text, &tracker.now()?)?;
    put_bytes(text, b": on the crossing ")?;
    put_list(text, &tracker.inside(&Rect { x1, x2, y1, y2 })?)?;
    Ok(())
}

fn main(rt: HostRuntime) -> io::Result<()> {
    let text = text_of(rt.alloc()).map_err(|_| io::ErrorKind::Other)?;
    io::writer(&rt).write_all(&text)
}
