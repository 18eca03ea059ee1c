//! A second program over the definition of the text: it holds a claimed text against it.
//!
//! [`check`] takes a script, a line `=` and a claimed text, and says whether the text is that of the script. It replays
//! the script command by command, and compares what each prints with what is left of the claim. All answers, live facts
//! and failures come from all positions (`kin_plain`): there is no structure, no event queue and no world. It is slow. A
//! reader who doesn't want to believe the engine can read this instead.
#![tactic(auto)]

pub use verdict::{Verdict, check};

pub mod block;
pub mod change;
pub mod claim;
pub mod event;
pub mod halt;
pub mod journal;
pub mod laws;
pub mod least;
pub mod next;
pub mod perform;
pub mod plan;
pub mod replay;
pub mod reply;
pub mod run;
pub mod sight;
pub mod split;
pub mod state;
pub mod verdict;
