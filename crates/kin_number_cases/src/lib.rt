//! Tests of numbers: whole roots and divisors, signs, instants, their order and their keys, and turns.
//!
//! Each test is a table. Its values were worked out by hand, or with whole numbers of any width.
#![tactic(auto)]

#[cfg(test)]
mod divisors;
#[cfg(test)]
mod instants;
#[cfg(test)]
mod keys;
#[cfg(test)]
mod order;
#[cfg(test)]
mod pair_signs;
#[cfg(test)]
mod pairs;
#[cfg(test)]
mod signs;
#[cfg(test)]
mod solutions;
#[cfg(test)]
mod turns;
#[cfg(test)]
mod whole_roots;
