//! Moving points, and structures that are kept over them, for programs that don't want to prove anything.
//!
//! A `Tracker` is a `World` of kin_world that tests what each call needs. No call requires more than its types say: it
//! answers a `Result`, whose error, a `Refusal`, names the cause. A refused call changes nothing. Where memory is wanting in
//! the middle of a change the tracker is lost, and refuses each later call. Steps aren't counted.
#![tactic(auto)]

pub use kin_world::{
    Block, Failure, Form, Instant, Keep, Moment, Motion, Phase, Rect, Shape, Sign,
};
pub use numbers::{fraction, is_earlier, motion, root};
pub use refusal::Refusal;
pub use time::Event;
pub use tracker::Tracker;

mod answers;
mod change;
mod counted;
mod keeps;
pub mod numbers;
mod ranges;
pub mod refusal;
pub mod time;
pub mod tracker;
