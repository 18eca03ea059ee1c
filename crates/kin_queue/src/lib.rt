//! The event queue of a kinetic data structure: which certificate fails next.
//!
//! It holds the failure moment of each certificate under an id, as Basch, Guibas and Hershberger keep their certificates
//! in a priority queue by failure time. A contract sees a finite map from ids to moments and the entry that comes next,
//! which is one of least moment (`specs/Agenda`). Keys decide the order of most entries; where two keys don't, their
//! moments are compared by `compare_moments` with the caller's counter.
#![tactic(auto)]

pub use due::Due;
pub use queue::Queue;

pub mod due;
mod heap;
mod instants;
pub mod queue;
mod ticket;
mod tie;
