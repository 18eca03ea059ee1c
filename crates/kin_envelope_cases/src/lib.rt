//! Tests of `EnvTree` alone: the upper chain of points that move, enter and leave.
#![tactic(auto)]

#[cfg(test)]
mod envelopes;
#[cfg(test)]
mod sixteens;
#[cfg(test)]
mod under;
