//! Tests of a world: scripts of calls, each with the answer that it must have.
//!
//! A `Script` (`script`) is followed call by call (`follow`), by `change`, `advance` and `answer`.
#![tactic(auto)]

#[cfg(test)]
mod advance;
#[cfg(test)]
mod answer;
#[cfg(test)]
mod asked;
#[cfg(test)]
mod boxes;
#[cfg(test)]
mod change;
#[cfg(test)]
mod far;
#[cfg(test)]
mod follow;
#[cfg(test)]
mod leaping;
#[cfg(test)]
mod planning;
#[cfg(test)]
mod script;
#[cfg(test)]
mod stepping;
#[cfg(test)]
mod turning;
