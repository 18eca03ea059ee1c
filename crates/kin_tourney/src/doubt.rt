//! Which nodes have to be looked at between a change and the repair.

ghost use Rattle.std.specs.Prelude.{◌≡◌, ◌≢◌, ◌↔◌, ℕ, ◌<◌, length, replicate, slice_set, slice_index_or, IsTrue, IfOk};
ghost use Rattle.kin_motion.specs.declared.fact.Placed.{Placed as Put};
ghost use Rattle.kin_tourney.specs.declared.doubt.Doubt.TheVariants.{Below};
ghost use Rattle.kin_tourney.specs.Standings.{IsClosed};
ghost use Rattle.kin_tourney.specs.Repairs.{IsSpread, IsDoubted};

use kin_motion::fact::Placed;
use kin_num::memory::NoMemory;
use std::alloc::Global;

/// Whether a node has to be looked at.
#[derive(Clone, Copy, Debug, PartialEq, Eq)]
pub enum Doubt {
    /// Nothing at or below the node is in doubt.
    Clear,
    /// Only nodes below are in doubt: the way leads through here.
    Below,
    /// Its own match has to be played again.
    Here,
}

impl Doubt {
    pub fn is_clear(self) -> bool
        ensures { IsTrue result ↔ (self ≡ Doubt.Clear) }
    {
        match self {
            Doubt::Clear => true,
            Doubt::Below | Doubt::Here => false,
        }
    }

    pub fn is_below(self) -> bool
        ensures { IsTrue result ↔ (self ≡ Below) }
    {
        match self {
            Doubt::Below => true,
            Doubt::Clear | Doubt::Here => false,
        }
    }

    pub fn is_here(self) -> bool
        ensures { IsTrue result ↔ (self ≡ Doubt.Here) }
    {
        match self {
            Doubt::Here => true,
            Doubt::Clear | Doubt::Below => false,
        }
    }
}

/// This many nodes, all clear but node 0.
pub fn no_doubts(alloc: Global, count: usize) -> Result<Vec<Doubt>, NoMemory>
    requires { 0 < count }
    ensures { IfOk result (λ v. v.items ≡ slice_set (replicate count Doubt.Clear) 0 Doubt.Here) }
{
    let mut doubts = Vec::from_elem(alloc, Doubt::Clear, count)?;
    doubts[0] = Doubt::Here;
    Ok(doubts)
}

/// Puts a node and those above it into this doubt, as far as they are clear.
pub fn doubt_path(doubts: &mut [Doubt], node: usize, doubt: Doubt)
    requires closed { IsClosed doubts.old }
    requires node { node < length doubts.old }
    requires doubt { doubt ≢ Doubt.Clear }
    ensures closed { IsClosed doubts.new }
    ensures spread { IsSpread doubts.old doubts.new doubt node }
{
    let mut node = node;
    while doubts[node].is_clear() {
        doubts[node] = doubt;
        node /= 2;
    }
}

/// Puts the nodes of failed facts into doubt.
pub fn doubt_failed(doubts: &mut [Doubt], failed: &[Placed])
    requires closed { IsClosed doubts.old }
    requires inner { (k : ℕ) (d : Put) → k < length failed.now → (slice_index_or failed.now k d).part < length doubts.old }
    ensures closed { IsClosed doubts.new }
    ensures doubted { IsDoubted doubts.old doubts.new failed.now (length failed.now) }
{
    for placed in failed.iter() {
        let node = placed.part as usize;
        doubt_path(doubts, node, Doubt::Below);
        doubts[node] = Doubt::Here;
    }
}
