//! Tests of the parts that structures and the table of facts are made of: motions, reports, slots that point, sets of
//! ids, planned legs, linked lists, three lists with a tree, a sorted list, a tournament and the event queue.
#![tactic(auto)]

#[cfg(test)]
mod ids;
#[cfg(test)]
mod legs;
#[cfg(test)]
mod links;
#[cfg(test)]
mod lists;
#[cfg(test)]
mod motions;
#[cfg(test)]
mod pointers;
#[cfg(test)]
mod queues;
#[cfg(test)]
mod races;
#[cfg(test)]
mod random_ranks;
#[cfg(test)]
mod ranks;
#[cfg(test)]
mod reports;
#[cfg(test)]
mod watch;
