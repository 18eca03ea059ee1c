//! Tests of `Overlay` alone: the merge of two chains against its definition.
#![tactic(auto)]

#[cfg(test)]
mod certificates;
#[cfg(test)]
mod edits;
#[cfg(test)]
mod halves;
#[cfg(test)]
mod merges;
#[cfg(test)]
mod sixteens;
#[cfg(test)]
mod visits;
