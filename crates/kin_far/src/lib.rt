//! The mathematics of the farthest pair of moving points: it is the pair of a cell of a sweep round the hull.
//!
//! Two parallel lines of support that turn round a convex hull meet its farthest points together, after Shamos,
//! "Computational Geometry", PhD thesis, Yale University (1978). There is no code here: each function's contract is
//! one law.
#![tactic(auto)]

pub mod laws;
