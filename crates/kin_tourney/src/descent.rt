//! The way of a repair: from node to node in doubt, each after its halves.

ghost use Rattle.std.specs.Prelude.{◌≡◌, ◌≢◌, ℕ, ◌+◌, ◌*◌, ◌/◌, ◌<◌, true, length, MatchOption};
ghost use Rattle.kin_tourney.specs.Standings.{doubt_in, IsClosed};
ghost use Rattle.kin_tourney.specs.Repairs.{IsPerfect, IsLowest, IsDone, IsPassage, HasClimbed};

use crate::doubt::Doubt;

/// The first half of a node that isn't clear.
fn doubted_half(doubts: &[Doubt], node: usize) -> Option<usize>
    requires tree { IsPerfect doubts.now }
    requires root { 0 < node }
    requires inner { node < length doubts.now }
    ensures { MatchOption result
        ((v : ℕ) → 0 < v → v / 2 ≡ node → doubt_in doubts.now v ≡ Doubt.Clear)
        (λ half. (half / 2 ≡ node) × (node < half) × (half < length doubts.now) × (doubt_in doubts.now half ≢ Doubt.Clear)) }
{
    let left = 2 * node;
    if left >= doubts.len() {
        return None;
    }
    if !doubts[left].is_clear() {
        return Some(left);
    }
    if !doubts[left + 1].is_clear() {
        return Some(left + 1);
    }
    None
}

/// The node in doubt with clear halves to which the doubts lead down from a node in doubt.
fn lowest_doubt(doubts: &[Doubt], node: usize) -> usize
    requires tree { IsPerfect doubts.now }
    requires root { 0 < node }
    requires inner { node < length doubts.now }
    requires doubted { doubt_in doubts.now node ≢ Doubt.Clear }
    ensures { IsLowest doubts.now result }
{
    let mut node = node;
    while let Some(half) = doubted_half(doubts, node) {
        node = half;
    }
    node
}

/// Where a repair begins, or 0 where no node is in doubt. The way down begins at `near`, if that is a
/// node in doubt, and else at the root.
pub fn first_doubt(doubts: &[Doubt], near: usize) -> usize
    requires tree { IsPerfect doubts.now }
    requires some { 1 < length doubts.now }
    ensures none { result ≡ 0 → doubt_in doubts.now 1 ≡ Doubt.Clear }
    ensures lowest { 0 < result → IsLowest doubts.now result }
{
    if 0 < near && near < doubts.len() && !doubts[near].is_clear() {
        return lowest_doubt(doubts, near);
    }
    if doubts[1].is_clear() {
        0
    } else {
        lowest_doubt(doubts, 1)
    }
}

/// The other half of the node above this one. The halves of a node are its double and the next number.
fn other_half(node: usize) -> usize
    ensures { result + node ≡ 4 * (node / 2) + 1 }
{
    node ^ 1
}

/// Where a repair goes on after a node that is clear again, or 0 after the root. The node above
/// is next, unless its other half is in doubt.
#[inline(always)]
pub fn next_doubt(doubts: &[Doubt], node: usize) -> usize
    requires tree { IsPerfect doubts.now }
    requires done { IsDone doubts.now node }
    ensures none { result ≡ 0 → node / 2 ≡ 0 }
    ensures lowest { 0 < result → IsLowest doubts.now result }
{
    let above = node / 2;
    if above == 0 {
        return 0;
    }
    let other = other_half(node);
    if doubts[other].is_clear() {
        above
    } else {
        lowest_doubt(doubts, other)
    }
}

/// Whether the node above a clear one is only on the way to nodes in doubt, and its other half is clear too.
fn is_passage(doubts: &[Doubt], node: usize) -> bool
    requires tree { IsPerfect doubts.now }
    requires done { IsDone doubts.now node }
    ensures { result ≡ true → IsPassage doubts.now node }
{
    let above = node / 2;
    if above == 0 {
        return false;
    }
    doubts[above].is_below() && doubts[other_half(node)].is_clear()
}

/// Clears the nodes above a clear one, as far as they are only on the way to nodes in doubt and have no
/// other half in doubt, and answers the last one.
#[inline(always)]
pub fn pass_up(doubts: &mut [Doubt], node: usize) -> usize
    requires tree { IsPerfect doubts.old }
    requires closed { IsClosed doubts.old }
    requires done { IsDone doubts.old node }
    ensures room { length doubts.new ≡ length doubts.old }
    ensures climbed { (count : ℕ) × HasClimbed count doubts.old node doubts.new result }
    ensures done { IsDone doubts.new result }
{
    let mut node = node;
    while is_passage(doubts, node) {
        node /= 2;
        doubts[node] = Doubt::Clear;
    }
    node
}
