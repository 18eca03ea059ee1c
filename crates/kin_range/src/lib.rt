//! The kinetic range: moving points in a rectangle.
//!
//! Two kinetic lists keep the points in their orders along x and along y, as in Basch, Guibas and Hershberger, "Data
//! Structures for Mobile Data", Journal of Algorithms 31 (1999).
//!
//! `KinRange` is `Kinetic`. After a `settle` that answers `Ok` its lists are the orders by definition, and the facts alone
//! determine them.
//! The points in a rectangle are asked for at the moment now; the border of a rectangle is no fact.
#![tactic(auto)]

pub use range::KinRange;

mod both;
mod kept;
mod pick;
pub mod range;
mod side;
mod span;
