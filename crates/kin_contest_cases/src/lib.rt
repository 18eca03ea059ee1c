//! Tests of `Tourney` alone: its winners, as points meet and slots change.
#![tactic(auto)]

#[cfg(test)]
mod contests;
#[cfg(test)]
mod many;
