//! Many doubly linked lists in one arena. A node stays where it is while its list changes, so a
//! node's id finds it at once.
#![tactic(auto)]

pub use links::{Links, ListId, NodeId};

mod arena;
pub mod links;
mod node;
