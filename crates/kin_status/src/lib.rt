//! How a run ends, and what it has written until then.
//!
//! The definitions in the contract of `kin_run`: which text and which status an input has, and what was written where a
//! run was broken off. [`laws`] says that every input has both, and no others. Here are also the parts of a run that
//! know no world: what its arguments ask for, which instant a line asks for, how passed blocks are counted, and how
//! lines are gathered and written.
#![tactic(auto)]

pub mod asked;
pub mod ending;
pub mod journal;
pub mod laws;
pub mod status;
pub mod stop;
pub mod tally;
pub mod text;
pub mod words;
pub mod write;
