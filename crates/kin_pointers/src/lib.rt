//! Slots that point at numbers, and for each number the slots that point at it; and sets of ids.
//!
//! All look-ups are immediate, and a change takes a few writes: a list's last item takes the place of one that goes,
//! and each slot and each id knows its place in its list.
#![tactic(auto)]

pub mod ids;
pub mod pointers;
