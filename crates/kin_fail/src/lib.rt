//! Failures: when a fact fails first, and the block of all that fail at one moment.
//!
//! A certificate of a kinetic data structure is a sign condition on a polynomial in time (Basch, Guibas and Hershberger,
//! "Data Structures for Mobile Data", 1999). `first_fail` gives the moment at which one fails first, `first_within` the
//! first one at which two points are within a distance, and `block_of` the failures at one moment, as the journal has them.
//! `rank` orders facts and their owners as the journal does.
#![tactic(auto)]

pub use now::Now;
pub use owned::{Block, Failure, Owned};

pub mod approach;
pub mod failures;
pub mod first_fail;
pub mod laws;
pub mod now;
pub mod owned;
pub mod rank;
