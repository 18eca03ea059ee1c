//! The motion script: what a script is, and its reader.
//!
//! The grammar is in `specs/`, as a function of whole lines: from bytes to the script that they are,
//! or to the number of the first line outside; `laws` says what holds of it. [`read::read`] goes over
//! the bytes once and answers what the grammar says, or want of memory; every number of a script that it
//! gives is in its range.
#![tactic(auto)]

pub use command::Command;
pub use generated::generate;
pub use number::numeral;
pub use read::ReadError;
pub use refusal::Refusal;
pub use script::{Commands, Keeps, Script};

pub mod command;
mod generated;
pub mod laws;
mod line;
mod lines;
mod number;
pub mod read;
pub mod refusal;
pub mod script;
mod words;
