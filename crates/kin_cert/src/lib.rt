//! The table of certificates: all live facts with their owners.
//!
//! A certificate of a kinetic data structure is a sign condition on a polynomial in time (Basch, Guibas and Hershberger,
//! "Data Structures for Mobile Data", 1999). `Table` keeps the certificates of all structures: it takes over what a
//! structure drops and bears, makes the first failure of each (`first_fail` of kin_fail), gives the least failure moment,
//! and gives out all certificates that fail there, in the journal's order. A contract sees a table as a list of live facts,
//! each with its owner and its failure moment (`specs/Facts`).
#![tactic(auto)]

pub use kin_fail::{Block, Failure, Now, Owned, first_fail};
pub use mail::Mail;
pub use plan::Plan;
pub use table::Table;

mod bucket;
mod change;
mod entry;
mod guesses;
mod holder;
mod holders;
mod index;
mod key;
pub mod laws;
pub mod mail;
mod names;
pub mod plan;
mod roll;
mod schedule;
pub mod table;
mod tell;
mod timing;
