//! Tests of the sorted list over ranked items, at its two kinds of items.
#![tactic(auto)]

#[cfg(test)]
mod boxes;
#[cfg(test)]
mod points;
#[cfg(test)]
mod watch;
