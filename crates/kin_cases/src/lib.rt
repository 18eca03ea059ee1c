//! What drives single structures over motions from moment to moment, for tests.
//!
//! A `Driver` has a structure and the list of its live facts, which it keeps by the structure's
//! reports alone. To settle at a moment it hands the structure exactly the facts that fail there.
//! A `Watch` gives signs and counts its calls by itself.
#![tactic(auto)]

pub mod answer;
pub mod ask;
pub mod chains;
pub mod contest;
pub mod definition;
pub mod driver;
pub mod envelope;
pub mod failing;
pub mod failures;
pub mod fault;
pub mod keeping;
pub mod merging;
pub mod moments;
pub mod octants;
pub mod random;
pub mod scene;
pub mod spanning;
pub mod spares;
pub mod telling;
pub mod watch;
pub mod written;
