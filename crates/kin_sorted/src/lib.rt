//! The kinetic sorted list of Basch, Guibas and Hershberger, "Data Structures for Mobile Data",
//! Journal of Algorithms 31 (1999), over any ranked items: with one certificate for each two
//! neighbours.
//!
//! Items are `Ranked`: of two items a form has a sign, and the sign says which comes first. Points along
//! a direction are (`Direction`), and so are the ends of boxes (`Ends`).
//!
//! `Sorted` is `Kinetic`. Any number of items may be marked as entering and as leaving before a
//! `settle`. After a `settle` that answers `Ok` its members are in order and its facts are those of the
//! neighbours; what has changed is reported exactly, each fact once; and the facts alone determine the
//! order. A repair takes out what leaves, begins at the gaps and the failed facts, exchanges neighbours,
//! and puts in what enters. The sign tests of such a `settle` are at most 8 for each fact that is dropped
//! or born and for each pair of members that changed places, and a halving of the list for each item that
//! enters.
#![tactic(auto)]

pub use direction::Direction;
pub use ends::{End, Ends, Side};
pub use ranked::Ranked;
pub use single::Single;
pub use sorted::Sorted;

mod between;
mod cell;
pub mod direction;
mod doubts;
pub mod ends;
mod enter;
mod leave;
mod lineup;
mod link;
mod marks;
mod mend;
pub mod ranked;
mod repair;
mod report;
mod row;
mod settle;
pub mod single;
pub mod sorted;
