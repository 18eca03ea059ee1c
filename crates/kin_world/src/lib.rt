//! Motions, structures and the table of their live facts together, driven from failure to failure.
//!
//! This is the event loop of a kinetic data structure (Basch, Guibas and Hershberger, "Data Structures for Mobile Data",
//! 1999), one step at a time: `World::step` moves to the first moment at which live facts fail, rational or irrational,
//! repairs all structures there together, and answers what failed. A contract sees a world as its motions, its planned
//! legs, its moment and its live facts (`specs/Worlds`). `Upkeep` is written for any kind of structure; what holds of every
//! kind is in `specs/Structures`.
//!
//! A program that uses a world imports the names of lower crates from here.
#![tactic(auto)]

pub use counter::{Work, uncounted};
pub use kin_fail::approach::first_within;
pub use kin_fail::{Block, Failure};
pub use kin_instant::next::next_root;
pub use kin_instant::order::{compare, compare_moments};
pub use kin_instant::ratio::ratio;
pub use kin_instant::roots::Roots;
pub use kin_instant::sign::sign_at;
pub use kin_instant::solve;
pub use kin_motion::{Fact, Form, Keep, Motion, Rect};
pub use kin_num::{Instant, Moment, NoMemory, Phase, Poly, Shape, Sign, Steps};
pub use kin_turn::turned::TurnError;
pub use planning::LegError;
pub use std::sync::ledger::Ledger;
pub use world::World;

mod among;
pub mod counter;
mod crossing;
mod farthest;
pub mod laws;
mod places;
pub mod planning;
mod structure;
mod upkeep;
pub mod world;
