//! Tests of structures that a world keeps, each alone: its answers and its facts as points meet and pass each other, and
//! whose counter it asks with.
#![tactic(auto)]

#[cfg(test)]
mod answers;
#[cfg(test)]
mod many;
#[cfg(test)]
mod overlapping;
