//! The printed text, appended to a buffer of the caller's.
//!
//! Each call appends exactly the bytes that the definitions of the printed text say, or, where
//! memory runs out, a prefix of them.
#![tactic(auto)]

pub use failure::put_failure;
pub use line::{put_count, put_one};
pub use list::{put_list, put_pair, put_pairs};
pub use moment::put_moment;
pub use piece::{put_bytes, put_number, put_pieces};
pub use reply::{Reply, put_reply};

pub mod failure;
pub mod line;
pub mod list;
pub mod moment;
pub mod piece;
pub mod reply;
