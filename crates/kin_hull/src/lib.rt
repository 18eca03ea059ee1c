//! The kinetic convex hull.
//!
//! Two trees of merges keep the upper chain of all points (kin_env), one of the points as they are and one of the points
//! reflected in the x axis, whose upper chain is the lower chain: the kinetic convex hull of Basch, Guibas and
//! Hershberger, "Data Structures for Mobile Data", Journal of Algorithms 31 (1999).
//!
//! `KinHull` is `Kinetic`. After a `settle` that answers `Ok` its cycle is the hull cycle by definition, and the facts
//! alone determine it.
#![tactic(auto)]

pub use hull::KinHull;

mod around;
pub mod hull;
mod kept;
pub mod laws;
mod mail;
pub mod side;
mod sorting;
