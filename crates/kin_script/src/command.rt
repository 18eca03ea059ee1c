//! The commands of a script.

use kin_motion::{Motion, Rect};

/// What one line after the header asks for.
#[derive(Clone, Copy, Debug, PartialEq, Eq)]
pub enum Command {
    /// A point of this number starts, with this motion.
    Insert { no: u32, m: Motion },
    /// The point of this number leaves.
    Remove { no: u32 },
    /// The point of this number starts anew, with this motion.
    Replace { no: u32, m: Motion },
    /// The point of this number goes on from where it is, with this velocity.
    Turn { no: u32, u: i32, v: i32 },
    /// The point of this number has this velocity from the whole instant `at` on, its path being unbroken.
    Leg { no: u32, at: u32, u: i32, v: i32 },
    /// Time goes to `n/d`, as it is written, in lowest terms or not.
    AtRatio { n: i64, d: i64 },
    /// Time goes to the greater (`upper`) or the lesser root of `a*t^2 + b*t + c`, as it is written.
    /// With one root both name it.
    AtRoot { a: i64, b: i64, c: i64, upper: bool },
    /// Time goes to the next moment at which a live fact fails or a leg begins, if there is one.
    Next,
    /// The points along the direction of the kept order `s`.
    Order { s: u32 },
    /// The extreme point along the direction of the kept structure `s`.
    Extreme { s: u32 },
    /// The hull cycle.
    Hull,
    /// The closest pair.
    Closest,
    /// The points in a rectangle.
    Inside { rect: Rect },
    /// The nearest other point of the point of this number.
    Nearest { no: u32 },
    /// The farthest pair.
    Farthest,
    /// The pairs of points whose boxes overlap.
    Overlaps,
    /// How many facts are live.
    Live,
}
