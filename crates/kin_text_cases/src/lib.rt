//! Tests of what is read and printed, and of the bytes that come and go.
#![tactic(auto)]

#[cfg(test)]
mod changes;
#[cfg(test)]
mod failures;
#[cfg(test)]
mod generated;
#[cfg(test)]
mod headers;
#[cfg(test)]
mod memory;
#[cfg(test)]
mod moments;
#[cfg(test)]
mod outside;
#[cfg(test)]
mod ranges;
#[cfg(test)]
mod refusals;
#[cfg(test)]
mod replies;
#[cfg(test)]
mod rows;
#[cfg(test)]
mod scripts;
#[cfg(test)]
mod standard;
