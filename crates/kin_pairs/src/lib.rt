//! Pairs of points in a kinetic tournament, by their distance.
//!
//! The closest pair and the farthest pair are each the best of many pairs. Both have a tournament of pairs (kin_tourney)
//! whose facts come after others, and which settles with those failed facts that are its own.
#![tactic(auto)]

pub use distance::Distance;
pub use farness::Farness;
pub use mail::Mail;
pub use pair::Pair;

pub mod brief;
pub mod distance;
pub mod farness;
pub mod mail;
pub mod pair;
mod sorting;
