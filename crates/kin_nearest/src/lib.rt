//! All nearest neighbours of moving points.
//!
//! Eight kinetic lists keep for each point its candidates in the octants around it, as in Basch, Guibas and Hershberger,
//! "Data Structures for Mobile Data", Journal of Algorithms 31 (1999). The nearest other point of a point is found among
//! the points that it is the candidate of, and the points at their places.
//!
//! `KinNearest` is `Kinetic`. After a `settle` that answers `Ok` its candidates are those of the definition, and the facts
//! alone determine them. The nearest other points are no content: they may change while all facts hold, and are looked
//! for when they are asked for.
#![tactic(auto)]

pub use nearest::KinNearest;

mod best;
mod kept;
pub mod nearest;
mod walk;
