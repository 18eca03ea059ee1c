//! The upper chain of many points, kept by a tree of merges: half of the kinetic convex hull of
//! Basch, Guibas and Hershberger, "Data Structures for Mobile Data", Journal of Algorithms 31 (1999).
//!
//! The slots of the points are the leaves of a binary tree. Each node whose halves both hold a point
//! merges the upper chains of its halves (kin_overlay) and hands the node above the edits of its
//! chain. `EnvTree` is `Kinetic`: after a `settle` that answers `Ok` the chain of each node is the
//! upper chain of the points under it, and the facts alone determine all chains and all facts.
//!
//! A node has work only where the chain of a half has changed or a fact of it failed; a changed
//! slot and a failed fact lead there along the levels above them, and no other node is looked at. No
//! clause says so.
#![tactic(auto)]

pub use branches::Branches;
pub use held::Held;
pub use node::Node;
pub use tree::EnvTree;

pub mod branches;
pub mod held;
pub mod node;
mod steady;
pub mod tree;
