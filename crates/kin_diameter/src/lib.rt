//! The kinetic farthest pair.
//!
//! Two parallel lines of support that turn round a convex hull meet its farthest points together, after Shamos,
//! "Computational Geometry", PhD thesis, Yale University (1978). The breakpoints of both chains of the hull are kept in
//! one list by falling slope, and a kinetic tournament (kin_tourney) keeps the best of the pairs of points that are
//! current in the cells between them.
//!
//! `KinDiameter` is `Kinetic`. It is given both chains, which the facts of a hull determine. After a `settle` that answers
//! `Ok` its pair is the farthest pair by definition, and while the chains stay the same, the facts alone determine it.
#![tactic(auto)]

pub use diameter::KinDiameter;

mod between;
mod breakpoint;
mod cells;
mod changes;
pub mod diameter;
mod merge;
mod places;
mod seats;
mod slope;
mod sweep;
mod told;
