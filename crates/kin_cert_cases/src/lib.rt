//! Tests of first failures and of the table of live facts.
//!
//! A `Trial` has a table and lists its facts, so that it can see of each whether it still holds.
#![tactic(auto)]

#[cfg(test)]
mod first_failures;
#[cfg(test)]
mod moments;
#[cfg(test)]
mod remaking;
#[cfg(test)]
mod trial;
