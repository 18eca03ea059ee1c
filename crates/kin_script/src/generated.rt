//! The generated script: points with drawn courses, for a run of any size without an input.

ghost use Rattle.std.specs.Prelude.{◌≡◌, ◌++◌, ◌≤◌, ◌^◌, unsigned_abs, IfOk, OnOk};
ghost use Rattle.kin_script.specs.Ranges.{IsInRange};
ghost use Rattle.kin_script.specs.Generated.{IsGenerated, IsLeastSize, insertions, questions, generated_keeps, next_state, state_after, drawn, picked, course_behind};

use crate::command::Command;
use crate::script::{Commands, Keeps, Script};
use kin_motion::{Keep, Motion, Rect};
use std::alloc::{AllocError, Global};

/// The lines before the first point: the size, the kept structures and the journal.
const HEADER_LINES: u32 = 7;

/// A linear congruential generator: the multiplier and the increment of Numerical Recipes (Press and
/// others, 1992, section 7.1), modulo 2^32.
#[derive(Drop)]
struct Draws {
    state: u32,
}

impl Draws {
    /// The upper half of the next state.
    #[tactic(auto, unfolding(crate::specs::Generated::next_state, crate::specs::Generated::drawn))]
    fn draw(&mut self) -> u32
        ensures state { self.new.state ≡ next_state self.old.state }
        ensures value { result ≡ drawn self.new.state }
    {
        let state = (1_664_525 * u64::from(self.state) + 1_013_904_223) % (1 << 32);
        self.state = state as u32;
        self.state >> 16
    }

    /// A whole number at most `reach` from 0.
    #[tactic(auto, unfolding(crate::specs::Generated::picked))]
    fn pick(&mut self, reach: u16) -> i32
        ensures state { self.new.state ≡ next_state self.old.state }
        ensures value { result ≡ picked reach (drawn self.new.state) }
        ensures small { unsigned_abs result ≤ reach }
    {
        let choices = 2 * u32::from(reach) + 1;
        (self.draw() % choices) as i32 - i32::from(reach)
    }

    /// The course of the next point.
    #[tactic(auto, unfolding(crate::specs::Generated::state_after, crate::specs::Generated::course_behind))]
    fn motion(&mut self) -> Motion
        ensures state { self.new.state ≡ state_after 4 self.old.state }
        ensures value { result ≡ course_behind self.old.state }
    {
        let x = self.pick(1000);
        let y = self.pick(1000);
        let u = self.pick(10);
        let v = self.pick(10);
        Motion::new(x, y, u, v)
    }
}

/// The least size of at least 1 that has room for this many points.
fn least_size(count: u32) -> u32
    requires { count ≤ 2 ^ 10 }
    ensures { IsLeastSize count result }
{
    let mut size = 1;
    while 1 << size < count {
        size += 1;
    }
    size
}

/// One structure of each kind but nearest neighbours, a farthest pair and boxes.
fn generated_keeps(alloc: Global) -> Result<Keeps, AllocError>
    ensures { IfOk result (λ k. k ≡ generated_keeps) }
{
    let keeps = [
        Keep::Order { dx: 1, dy: 0 },
        Keep::Extreme { dx: 1, dy: 1 },
        Keep::Hull,
        Keep::Closest,
        Keep::Range,
    ];
    Ok(Keeps::from_vec(Vec::from_array(alloc, keeps)?))
}

/// The lines that insert the points, in the order of their numbers.
fn insertions(alloc: Global, seed: u32, count: u32) -> Result<Commands, AllocError>
    requires { count ≤ 2 ^ 10 }
    ensures { IfOk result (λ lines. lines ≡ insertions seed count) }
{
    let mut lines = Commands::new(alloc);
    let mut draws = Draws { state: seed };
    for no in 0..count {
        let m = draws.motion();
        lines.push((HEADER_LINES + 1 + no, Command::Insert { no, m }))?;
    }
    Ok(lines)
}

/// Asks for all that is kept at the time 20.
fn ask(lines: &mut Commands, first: u32) -> Result<(), AllocError>
    requires { first ≤ 2 ^ 11 }
    ensures { OnOk result (lines.new ≡ lines.old ++ questions first) }
{
    let rect = Rect {
        x1: -100,
        x2: 100,
        y1: -100,
        y2: 100,
    };
    lines.push((first, Command::AtRatio { n: 20, d: 1 }))?;
    lines.push((first + 1, Command::Extreme { s: 1 }))?;
    lines.push((first + 2, Command::Hull))?;
    lines.push((first + 3, Command::Closest))?;
    lines.push((first + 4, Command::Inside { rect }))?;
    lines.push((first + 5, Command::Live))
}

/// Puts the parts together.
fn put_together(alloc: Global, seed: u32, count: u32) -> Result<Script, AllocError>
    requires low { 1 ≤ count }
    requires high { count ≤ 2 ^ 10 }
    ensures { IfOk result (IsGenerated seed count) }
{
    let mut lines = insertions(alloc, seed, count)?;
    ask(&mut lines, HEADER_LINES + 1 + count)?;
    Ok(Script {
        size: least_size(count),
        keeps: generated_keeps(alloc)?,
        journal: false,
        lines,
    })
}

/// The script of a seed, with `count` points, 1 to 1024: their places are drawn from -1000..1000 and their
/// speeds from -10..10, along each axis. One structure of each kind but nearest neighbours,
/// a farthest pair and boxes is kept, and all are asked at the time 20.
#[tactic(auto, using(crate::proofs::GeneratedRanges::result_in_range))]
pub fn generate(alloc: Global, seed: u32, count: u32) -> Result<Script, AllocError>
    requires low { 1 ≤ count }
    requires high { count ≤ 2 ^ 10 }
    ensures script { IfOk result (IsGenerated seed count) }
    ensures range { IfOk result IsInRange }
{
    put_together(alloc, seed, count)
}
