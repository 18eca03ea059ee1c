//! Planned legs: the motions that points have from whole instants on.
//!
//! A path in pieces is a first motion and legs, each of which begins where the one before it is at that instant. Here are
//! the legs that are still to come, of all points together, as one list by instant and number.
#![tactic(auto)]

pub use leg::Leg;
pub use legs::Legs;

pub mod laws;
pub mod leg;
pub mod legs;
