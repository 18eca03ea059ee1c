//! Three lists of the same numbers, each number found by its place in each list.
//!
//! `Rank` finds the first number in one list whose places in the two others are greater than two given ones, and the
//! numbers whose places lie in two ranges. For the first it may have a tree over the places of a list, in which a
//! node knows which of its numbers comes first (a tournament tree over one key, searched as a priority search tree).
#![tactic(auto)]

pub use rank::Rank;

mod first;
mod leaders;
mod lists;
mod order;
mod ranges;
pub mod rank;
mod tree;
