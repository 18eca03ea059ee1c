//! Tests of `Wedges` alone: the candidates of points in their octants; and of the nearest points that are found by them.
#![tactic(auto)]

#[cfg(test)]
mod around;
#[cfg(test)]
mod crowds;
#[cfg(test)]
mod neighbours;
