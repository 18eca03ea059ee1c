//! The top call: arguments, source and sink in, status out.
//!
//! A script of moving points is taken whole, read by the grammar, and replayed command by command;
//! each question is answered at the moment now, by signs that are exact at rational and irrational
//! instants. The contract of `run::run` says which bytes are written and which status is answered,
//! for sources and sinks that expose their bytes: the text of the script as `kin_script` defines it,
//! or a prefix of it where reading, writing or memory failed.
#![tactic(auto)]

pub use kin_script::refusal::Refusal;
pub use kin_status::{laws, status, words};

mod change;
mod demo;
mod go_to;
mod next;
mod perform;
mod play;
mod reply;
pub mod run;
