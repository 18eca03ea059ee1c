//! The definition once more, as a short program.
//!
//! Every answer and every set of live facts at one moment, computed from all positions. It has no structure, and nothing
//! of the engine's code: each function says in its contract that it is the definition's own function by computation.
//! It is slow. A reader who doesn't want to believe the engine can read this instead.
#![tactic(auto)]

pub mod axis;
pub mod box_facts;
pub mod breakpoint;
pub mod chain;
pub mod closest;
pub mod contest;
pub mod cycle;
pub mod diameter;
pub mod ends;
pub mod extreme;
pub mod facts;
pub mod failures;
pub mod farthest;
pub mod hull;
pub mod keeps;
pub mod lists;
pub mod merge;
pub mod mirrored;
pub mod nearest;
pub mod numbers;
pub mod octant;
pub mod order;
pub mod overlaps;
pub mod pair;
pub mod rect;
pub mod slots;
pub mod tournament;
