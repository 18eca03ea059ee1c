//! Candidates of moving points in octants: for each point, and each of the eight octants around it, the
//! point of that octant that comes first in the octant's third order. A kinetic closest pair is found
//! by them, as in Basch, Guibas and Hershberger, "Data Structures for Mobile Data", Journal of
//! Algorithms 31 (1999).
//!
//! `Wedges` is `Kinetic`. It keeps eight kinetic lists, the candidate of each point in each octant, and
//! for each point and octant the points whose candidate there it is. A `settle` looks only at those
//! slots that an exchange, or the number that enters or leaves, can have touched: a lost candidate is
//! looked up by a scan that begins after the apex, and every other one is compared with what is offered
//! to its slot. No clause says so. The sign tests of a `settle` are those of its eight lists.
#![tactic(auto)]

pub use wedges::Wedges;

mod answer;
mod around;
mod candidates;
mod changed;
pub mod hits;
pub mod laws;
pub mod mail;
mod octant;
mod offer;
mod orders;
pub mod part;
mod push;
mod renew;
mod rows;
mod settle;
mod sides;
mod steady;
mod table;
mod thread;
mod threads;
mod touch;
mod walk;
pub mod wedges;
