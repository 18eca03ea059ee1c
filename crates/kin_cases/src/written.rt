//! Points, moments and chains as tests write them.

ghost use Rattle.std.specs.Prelude.{◌≡◌, ◌≤◌, ◌^◌, unsigned_abs, length, IfSome, IfOk};
ghost use Rattle.kin_motion.specs.Course.{motion_limit};

use crate::fault::Fault;
use crate::moments::{after, at, at_fraction, at_the_root_of_two};
use kin_motion::{Motion, Motions};
use kin_num::Moment;
use std::alloc::Global;

/// A number in the range of motions.
fn number(text: &str) -> Option<i32>
    ensures { IfSome result (λ n. unsigned_abs n ≤ motion_limit) }
{
    let Ok(number) = text.parse::<i32>() else {
        return None;
    };
    if number.unsigned_abs() > Motion::LIMIT {
        return None;
    }
    Some(number)
}

/// A motion: x, y, and the speed along both.
fn motion(text: &str) -> Option<Motion> {
    let mut words = text.split_whitespace();
    let x = number(words.next()?)?;
    let y = number(words.next()?)?;
    let u = number(words.next()?)?;
    let v = number(words.next()?)?;
    Some(Motion::new(x, y, u, v))
}

/// Motions with commas between, of the numbers from 0 on, up to 8, and how many they are.
pub fn motions(alloc: Global, text: &str) -> Result<(Motions, u32), Fault> {
    let mut motions = Motions::new(alloc, 3)?;
    let mut points = text.split(',');
    for no in 0..8 {
        let Some(point) = points.next() else {
            return Ok((motions, no));
        };
        let Some(motion) = motion(point) else {
            return Err(Fault::NotNew);
        };
        motions.set(no, motion);
    }
    Ok((motions, 8))
}

/// The parts of a fraction, `1/2`.
fn fraction(text: &str) -> Option<Moment> {
    let (number, parts) = text.split_once('/')?;
    match (number.parse::<u16>(), parts.parse::<u16>()) {
        (Ok(number), Ok(parts)) => at_fraction(number, parts),
        _ => None,
    }
}

/// A whole second, `5`, or a fraction, `1/2`, or the moments just after a second, `5+`, or `root`, the
/// greater root of `t^2 - 2`.
fn moment(text: &str) -> Option<Moment> {
    if text == "root" {
        return Some(at_the_root_of_two());
    }
    if text.contains('/') {
        return fraction(text);
    }
    if let Some(second) = text.strip_suffix('+') {
        return match second.parse::<u16>() {
            Ok(second) => Some(after(i64::from(second))),
            Err(_) => None,
        };
    }
    match text.parse::<u16>() {
        Ok(second) => Some(at(i64::from(second))),
        Err(_) => None,
    }
}

/// Numbers with spaces between.
pub fn numbers(alloc: Global, text: &str) -> Result<Vec<u32>, Fault> {
    let mut numbers = Vec::new(alloc);
    for word in text.split_whitespace() {
        let Ok(no) = word.parse::<u32>() else {
            return Err(Fault::NotNew);
        };
        numbers.push(no).map_err(|_| Fault::NoMemory)?;
    }
    Ok(numbers)
}

/// The moment of a line as `5: 0 1 2 / 3`, and what follows the colon.
pub fn told_at(line: &str) -> Option<(Moment, &str)> {
    let (text, told) = line.split_once(':')?;
    let moment = moment(text.trim())?;
    Some((moment, told))
}

/// Whether a chain and a count are those that are written: `0 1 2 / 3`.
pub fn are_written(chain: &[u32], count: usize, text: &str) -> bool {
    match text.split_once('/') {
        Some((numbers, total)) => is_chain(chain, numbers) && is_count(count, total),
        None => false,
    }
}

fn is_count(count: usize, text: &str) -> bool {
    text.trim().parse::<usize>() == Ok(count)
}

fn is_chain(chain: &[u32], text: &str) -> bool {
    let mut words = text.split_whitespace();
    for no in chain {
        let Some(word) = words.next() else {
            return false;
        };
        if word.parse::<u32>() != Ok(*no) {
            return false;
        }
    }
    words.next().is_none()
}
