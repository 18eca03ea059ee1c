//! The kinetic closest pair.
//!
//! Eight kinetic lists keep for each point its candidates in the octants around it, and a kinetic tournament the best of
//! the pairs of all points and their candidates, as in Basch, Guibas and Hershberger, "Data Structures for Mobile Data",
//! Journal of Algorithms 31 (1999).
//!
//! `KinClosest` is `Kinetic`. After a `settle` that answers `Ok` its pair is the closest pair by definition, and the facts
//! alone determine it.
#![tactic(auto)]

pub use closest::KinClosest;

pub mod closest;
mod kept;
mod pairs;
