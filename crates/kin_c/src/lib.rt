//! Trackers for C: one export a call, as `include/kin.h` declares them.
//!
//! C holds a `KinWorld`, which has a boxed tracker or none. An export takes the box out, works, and puts it back. Each answers
//! the number of a status, and its clause says of each status when it comes, and what the call has done then.
#![tactic(auto)]

mod buffer;
mod change;
mod compare;
mod failure;
mod handle;
mod keep;
pub mod laws;
mod loose;
mod moment;
mod motion;
mod point;
mod print;
mod slot;
mod status;
mod structure;
mod time;
mod world;
