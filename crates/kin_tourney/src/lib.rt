//! The kinetic tournament: the best item of many slots, kept by the results of its matches.
//!
//! The slots are the leaves of a binary tree. Each inner node whose halves both hold an item keeps
//! one certificate, the sign of a form of its two best items. This is the kinetic tournament of
//! Basch, Guibas and Hershberger (1999), over any key (`Keyed`) whose items are in a strict total
//! order at each moment.
//!
//! `Tourney` is `Kinetic`. After a `settle` that answers `Ok` the winner of each node is the best of its slots, by
//! definition over the slots directly, and the facts alone determine winners and facts. A changed
//! slot or a failed fact costs at most one sign test a level.
#![tactic(auto)]

pub use along::Along;
pub use keyed::Keyed;
pub use tourney::Tourney;

pub mod along;
mod best;
pub mod descent;
pub mod doubt;
mod entry;
pub mod keyed;
mod matches;
mod points;
mod report;
pub mod tourney;
mod tree;
