//! The kinetic sorted list of Basch, Guibas and Hershberger, "Data Structures for Mobile Data",
//! Journal of Algorithms 31 (1999): moving points in their order along a direction, with one
//! certificate for each two neighbours.
//!
//! `KinList` is `Kinetic`. After a `settle` that answers `Ok` its members are in order and its facts are
//! those of the neighbours; what has changed is reported exactly, each fact once; and the facts alone
//! determine the order. It is a `Sorted` (kin_sorted) along a direction, whose repair begins at the failed
//! facts and exchanges neighbours. `swaps` has these exchanges, one for each pair of members that changed
//! places. The sign tests of such a `settle` are at most 8 for each fact that is dropped or born and for
//! each such pair, and for a number that enters a halving of the list.
#![tactic(auto)]

pub use list::KinList;
pub use mark::Mark;

mod kept;
pub mod list;
pub mod mark;
