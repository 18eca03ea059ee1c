//! What a line says: one function for each kind of line.

ghost use Rattle.std.specs.Prelude.{◌≡◌, ◌≤◌, IfSome, option_map};
ghost use Rattle.kin_script.specs.Changes.{insert_of, remove_of, replace_of, turn_of, leg_of};
ghost use Rattle.kin_script.specs.Commands.{quadratic_at, root_of, at_of, command_of, size_of, journal_of, header_line_of};
ghost use Rattle.kin_script.specs.Questions.{boxes_of, keep_of, order_question_of, extreme_question_of, box_question_of, nearest_question_of, question_of};
ghost use Rattle.kin_script.specs.Words.{direction_at};

use crate::command::Command;
use crate::number::ratio;
use crate::words::Words;
use kin_motion::{Keep, Rect};

/// A line of the header, after the size line.
pub enum HeaderLine {
    Keep(Keep),
    Journal(bool),
}

/// What follows the word `insert`: a number and its motion.
#[tactic(auto, unfolding(crate::specs::Changes::insert_of))]
fn insert(size: u32, words: &mut Words<'_>) -> Option<Command>
    requires low { 1 ≤ size }
    requires high { size ≤ 12 }
    ensures { result ≡ insert_of size words.old }
{
    let no = words.number(size)?;
    let m = words.motion()?;
    words.last(Command::Insert { no, m })
}

/// What follows the word `remove`: a number.
#[tactic(auto, unfolding(crate::specs::Changes::remove_of))]
fn remove(size: u32, words: &mut Words<'_>) -> Option<Command>
    requires low { 1 ≤ size }
    requires high { size ≤ 12 }
    ensures { result ≡ remove_of size words.old }
{
    let no = words.number(size)?;
    words.last(Command::Remove { no })
}

/// What follows the word `replace`: a number and its new motion.
#[tactic(auto, unfolding(crate::specs::Changes::replace_of))]
fn replace(size: u32, words: &mut Words<'_>) -> Option<Command>
    requires low { 1 ≤ size }
    requires high { size ≤ 12 }
    ensures { result ≡ replace_of size words.old }
{
    let no = words.number(size)?;
    let m = words.motion()?;
    words.last(Command::Replace { no, m })
}

/// What follows the word `turn`: a number and its new velocity.
#[tactic(auto, unfolding(crate::specs::Changes::turn_of))]
fn turn(size: u32, words: &mut Words<'_>) -> Option<Command>
    requires low { 1 ≤ size }
    requires high { size ≤ 12 }
    ensures { result ≡ turn_of size words.old }
{
    let no = words.number(size)?;
    let (u, v) = words.velocity()?;
    words.last(Command::Turn { no, u, v })
}

/// What follows the word `leg`: a number, the instant at which the leg begins, and the velocity from then on.
#[tactic(auto, unfolding(crate::specs::Changes::leg_of))]
fn leg(size: u32, words: &mut Words<'_>) -> Option<Command>
    requires low { 1 ≤ size }
    requires high { size ≤ 12 }
    ensures { result ≡ leg_of size words.old }
{
    let no = words.number(size)?;
    let at = words.instant()?;
    let (u, v) = words.velocity()?;
    words.last(Command::Leg { no, at, u, v })
}

/// Three coefficients, of which the first is not 0.
#[tactic(auto, unfolding(crate::specs::Commands::quadratic_at))]
fn quadratic(words: &mut Words<'_>) -> Option<(i64, i64, i64)>
    ensures { option_map (λ q. (q, words.new)) result ≡ quadratic_at words.old }
{
    let a = words.long_integer(1 << 29)?;
    let b = words.long_integer(1 << 31)?;
    let c = words.long_integer(1 << 29)?;
    if a == 0 {
        return None;
    }
    Some((a, b, c))
}

/// What follows `at root`: a quadratic and which of its roots.
#[tactic(auto, unfolding(crate::specs::Commands::root_of))]
fn root(words: &mut Words<'_>) -> Option<Command>
    ensures { result ≡ root_of words.old }
{
    let (a, b, c) = quadratic(words)?;
    let upper = words.side()?;
    words.last(Command::AtRoot { a, b, c, upper })
}

/// What follows the word `at`: a fraction, or a root.
#[tactic(auto, unfolding(crate::specs::Commands::at_of))]
fn at(words: &mut Words<'_>) -> Option<Command>
    ensures { result ≡ at_of words.old }
{
    let word = words.next()?;
    if word == b"root".as_slice() {
        return root(words);
    }
    let (n, d) = ratio(word)?;
    words.last(Command::AtRatio {
        n: i64::from(n),
        d: i64::from(d),
    })
}

/// What follows the word `order`: the number of a structure.
#[tactic(auto, unfolding(crate::specs::Questions::order_question_of))]
fn order(words: &mut Words<'_>) -> Option<Command>
    ensures { result ≡ order_question_of words.old }
{
    let s = words.natural(0, 31)?;
    words.last(Command::Order { s })
}

/// What follows the word `extreme`: the number of a structure.
#[tactic(auto, unfolding(crate::specs::Questions::extreme_question_of))]
fn extreme(words: &mut Words<'_>) -> Option<Command>
    ensures { result ≡ extreme_question_of words.old }
{
    let s = words.natural(0, 31)?;
    words.last(Command::Extreme { s })
}

/// What follows the word `box`: the bounds of a rectangle.
#[tactic(auto, unfolding(crate::specs::Questions::box_question_of))]
fn inside(words: &mut Words<'_>) -> Option<Command>
    ensures { result ≡ box_question_of words.old }
{
    let x1 = words.integer(1 << 24)?;
    let x2 = words.integer(1 << 24)?;
    let y1 = words.integer(1 << 24)?;
    let y2 = words.integer(1 << 24)?;
    let rect = Rect { x1, x2, y1, y2 };
    words.last(Command::Inside { rect })
}

/// What follows the word `nearest`: the number of a point.
#[tactic(auto, unfolding(crate::specs::Questions::nearest_question_of))]
fn nearest(size: u32, words: &mut Words<'_>) -> Option<Command>
    requires low { 1 ≤ size }
    requires high { size ≤ 12 }
    ensures { result ≡ nearest_question_of size words.old }
{
    let no = words.number(size)?;
    words.last(Command::Nearest { no })
}

/// The question of this name.
#[tactic(auto, unfolding(crate::specs::Questions::question_of))]
fn question(size: u32, name: &[u8], words: &mut Words<'_>) -> Option<Command>
    requires low { 1 ≤ size }
    requires high { size ≤ 12 }
    ensures { result ≡ question_of size name.now words.old }
{
    if name == b"order".as_slice() {
        order(words)
    } else if name == b"extreme".as_slice() {
        extreme(words)
    } else if name == b"hull".as_slice() {
        words.last(Command::Hull)
    } else if name == b"closest".as_slice() {
        words.last(Command::Closest)
    } else if name == b"box".as_slice() {
        inside(words)
    } else if name == b"nearest".as_slice() {
        nearest(size, words)
    } else if name == b"farthest".as_slice() {
        words.last(Command::Farthest)
    } else if name == b"overlaps".as_slice() {
        words.last(Command::Overlaps)
    } else if name == b"live".as_slice() {
        words.last(Command::Live)
    } else {
        None
    }
}

/// The command of a line.
#[tactic(auto, unfolding(crate::specs::Commands::command_of))]
pub fn command_of(size: u32, mut words: Words<'_>) -> Option<Command>
    requires low { 1 ≤ size }
    requires high { size ≤ 12 }
    ensures { result ≡ command_of size words.entry }
{
    let name = words.next()?;
    if name == b"insert".as_slice() {
        insert(size, &mut words)
    } else if name == b"remove".as_slice() {
        remove(size, &mut words)
    } else if name == b"replace".as_slice() {
        replace(size, &mut words)
    } else if name == b"turn".as_slice() {
        turn(size, &mut words)
    } else if name == b"leg".as_slice() {
        leg(size, &mut words)
    } else if name == b"at".as_slice() {
        at(&mut words)
    } else if name == b"next".as_slice() {
        words.last(Command::Next)
    } else {
        question(size, name, &mut words)
    }
}

/// The size of a size line.
#[tactic(auto, unfolding(crate::specs::Commands::size_of))]
pub fn size_of(mut words: Words<'_>) -> Option<u32>
    ensures value { result ≡ size_of words.entry }
    ensures range { IfSome result (λ k. (1 ≤ k) × (k ≤ 12)) }
{
    if words.next()? != b"size".as_slice() {
        return None;
    }
    let size = words.natural(1, 12)?;
    words.last(size)
}

/// A direction: two numbers, not both 0.
#[tactic(auto, unfolding(crate::specs::Words::direction_at))]
fn direction(words: &mut Words<'_>) -> Option<(i32, i32)>
    ensures { result ≡ direction_at words.old }
{
    let dx = words.integer(16)?;
    let dy = words.integer(16)?;
    if dx == 0 && dy == 0 {
        return None;
    }
    words.last((dx, dy))
}

/// What follows the words `keep boxes`: a width and a height.
#[tactic(auto, unfolding(crate::specs::Questions::boxes_of))]
fn boxes(words: &mut Words<'_>) -> Option<Keep>
    ensures { result ≡ boxes_of words.old }
{
    let w = words.natural(0, 4096)? as i32;
    let h = words.natural(0, 4096)? as i32;
    words.last(Keep::Boxes { w, h })
}

/// What a keep line keeps.
#[tactic(auto, unfolding(crate::specs::Questions::keep_of))]
fn keep(words: &mut Words<'_>) -> Option<Keep>
    ensures { result ≡ keep_of words.old }
{
    let kind = words.next()?;
    if kind == b"order".as_slice() {
        let (dx, dy) = direction(words)?;
        Some(Keep::Order { dx, dy })
    } else if kind == b"extreme".as_slice() {
        let (dx, dy) = direction(words)?;
        Some(Keep::Extreme { dx, dy })
    } else if kind == b"hull".as_slice() {
        words.last(Keep::Hull)
    } else if kind == b"closest".as_slice() {
        words.last(Keep::Closest)
    } else if kind == b"range".as_slice() {
        words.last(Keep::Range)
    } else if kind == b"nearest".as_slice() {
        words.last(Keep::Nearest)
    } else if kind == b"diameter".as_slice() {
        words.last(Keep::Diameter)
    } else if kind == b"boxes".as_slice() {
        boxes(words)
    } else {
        None
    }
}

/// Whether a journal line puts the journal on.
#[tactic(auto, unfolding(crate::specs::Commands::journal_of))]
fn journal(words: &mut Words<'_>) -> Option<bool>
    ensures { result ≡ journal_of words.old }
{
    let word = words.next()?;
    if word == b"on".as_slice() {
        words.last(true)
    } else if word == b"off".as_slice() {
        words.last(false)
    } else {
        None
    }
}

/// What a line of the header says, after the size line.
#[tactic(auto, unfolding(crate::specs::Commands::header_line_of))]
pub fn header_line_of(mut words: Words<'_>) -> Option<HeaderLine>
    ensures { result ≡ header_line_of words.entry }
{
    let name = words.next()?;
    if name == b"keep".as_slice() {
        Some(HeaderLine::Keep(keep(&mut words)?))
    } else if name == b"journal".as_slice() {
        Some(HeaderLine::Journal(journal(&mut words)?))
    } else {
        None
    }
}
