//! Tests of whole runs, over sources and sinks in memory.
#![tactic(auto)]

#[cfg(test)]
mod blocks;
#[cfg(test)]
mod borders;
#[cfg(test)]
mod bounds;
#[cfg(test)]
mod boxes;
#[cfg(test)]
mod claims;
#[cfg(test)]
mod exits;
#[cfg(test)]
mod farthest;
#[cfg(test)]
mod faults;
#[cfg(test)]
mod generated;
#[cfg(test)]
mod kept;
#[cfg(test)]
mod legs;
#[cfg(test)]
mod nearest;
#[cfg(test)]
mod prefixes;
#[cfg(test)]
mod runs;
#[cfg(test)]
mod texts;
#[cfg(test)]
mod worked;
