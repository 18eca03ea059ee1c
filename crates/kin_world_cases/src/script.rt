//! What a script is made of.

use kin_instant::ratio::ratio;
use kin_motion::{Form, Keep, Motion, Rect};
use kin_num::{Moment, Phase, Sign};
use kin_turn::turned::TurnError;
use kin_world::LegError;

/// A whole second and the phase.
pub type Time = (i64, Phase);

/// A direction and two points: the form `Line` without offset.
pub type Along = ((i32, i32), (u32, u32));

/// Structure and part, form, and the signs before and after.
pub type Lost = ((u32, u32), Along, (Sign, Sign));

/// A call, and the answer that it must have.
#[derive(Clone, Copy)]
pub enum Call {
    /// A number enters with its x, y, u and v.
    Insert(u32, [i32; 4]),
    MayInsert(u32, bool),
    /// A live number leaves.
    Remove(u32),
    /// A live number gets another x, y, u and v.
    Replace(u32, [i32; 4]),
    /// A live number turns to this velocity, or doesn't for this reason.
    Turns(u32, (i32, i32), Option<TurnError>),
    /// A live number has this velocity from a whole second on, or can't for this reason.
    Plans(u32, u32, (i32, i32), Option<LegError>),
    /// The motion of a number now.
    Goes(u32, Option<[i32; 4]>),
    /// A step towards the first time stops at the second, where these facts have failed.
    Stops(Time, Time, &'static [Lost]),
    /// The same without a list: so many facts have failed.
    Passes(Time, Time, usize),
    /// A leap towards the first time lands at the second, or moves to the first.
    Leaps(Time, Option<Time>),
    /// A step to this time passes no failure.
    Moves(Time),
    /// Steps up to this time, whatever fails.
    Runs(Time),
    Next(Option<Time>),
    /// How many facts are live, and how many failure moments were made.
    Facts(usize, u64),
    /// The sign of the live fact of a structure and part.
    SignOf((u32, u32), Along, Option<Sign>),
    Order(u32, &'static [u32]),
    Extreme(u32, Option<u32>),
    /// The hull cycle, by a structure that is kept.
    Hull(u32, &'static [u32]),
    /// The closest pair, which a structure keeps.
    Closest(u32, Option<(u32, u32)>),
    /// The points in a rectangle, by a structure that is kept.
    Inside(u32, Rect, &'static [u32]),
    /// The nearest other point of a live number, by a structure that is kept.
    Nearest(u32, u32, Option<u32>),
    /// The farthest pair, which a structure keeps.
    Farthest(u32, Option<(u32, u32)>),
    /// The pairs whose boxes overlap, of the boxes that are kept.
    Overlaps(&'static [(u32, u32)]),
}

/// The size, what is kept, and the calls.
pub type Script = (u32, &'static [Keep], &'static [Call]);

pub const ORDER_EAST: Keep = Keep::Order { dx: 1, dy: 0 };

pub const ORDER_NORTH: Keep = Keep::Order { dx: 0, dy: 1 };

pub const EXTREME_EAST: Keep = Keep::Extreme { dx: 1, dy: 0 };

pub const EXTREME_NORTH: Keep = Keep::Extreme { dx: 0, dy: 1 };

pub const EAST: Along = ((1, 0), (0, 1));

pub const WEST: Along = ((1, 0), (1, 0));

pub const NORTH: Along = ((0, 1), (0, 1));

/// Two points that were apart meet.
pub const MEET: (Sign, Sign) = (Sign::Plus, Sign::Zero);

/// Two points that had met are the other way round.
pub const PART: (Sign, Sign) = (Sign::Zero, Sign::Minus);

/// A motion whose numbers are in range.
pub fn motion(m: [i32; 4]) -> Option<Motion> {
    let [x, y, u, v] = m;
    let small = |n: i32| n.unsigned_abs() <= Motion::LIMIT;
    if small(x) && small(y) && small(u) && small(v) {
        Some(Motion::new(x, y, u, v))
    } else {
        None
    }
}

pub fn moment(time: Time) -> Option<Moment> {
    let (second, phase) = time;
    if second.unsigned_abs() < 1 << 31 {
        Some(Moment {
            at: ratio(second, 1),
            phase,
        })
    } else {
        None
    }
}

pub fn form(line: Along) -> Form {
    let ((dx, dy), (i, j)) = line;
    Form::Line {
        dx,
        dy,
        off: 0,
        i,
        j,
    }
}
