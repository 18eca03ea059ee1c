//! Moving boxes: each point is the lower left corner of a closed box, and all boxes have one width and one height.
//!
//! Two kinetic sorted lists (kin_sorted) keep the low and the high ends of the boxes in their orders along x and along y,
//! as a sweep over boxes meets them. The overlaps are read off the two orders without a sign test.
//!
//! `KinBoxes` is `Kinetic`: after a `settle` that answers `Ok` its lists are the orders by definition, and the facts alone
//! determine them and the overlaps.
#![tactic(auto)]

pub use boxes::KinBoxes;

mod axis;
mod both;
pub mod boxes;
mod kept;
mod mail;
mod sweep;
