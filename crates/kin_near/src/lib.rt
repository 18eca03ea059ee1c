//! The mathematics of the closest pair of moving points: it is a point and its candidate in an octant.
//!
//! A kinetic closest pair keeps for each point the candidates of its octants, and the best of all these pairs
//! by a tournament, after Basch, Guibas and Hershberger, "Data Structures for Mobile Data", Journal of
//! Algorithms 31 (1999). There is no code here: each function's contract is one law.
#![tactic(auto)]

pub mod laws;
