//! The breakpoints of both chains in one list.

ghost use Rattle.std.specs.Prelude.{◌≡◌, ◌+◌, ◌≤◌, ◌++◌, ◌∷◌, [], map, reverse, length, IfSome, IsNone, OnOk};
ghost use Rattle.kin_motion.specs.Agreements.{FitsSize};
ghost use Rattle.kin_motion.specs.Merges.{Half.{A, B}, breakpoints_of};
ghost use Rattle.kin_motion.specs.Scene.{IsReal};
ghost use Rattle.kin_motion.specs.Sets.{AreDistinct};
ghost use Rattle.kin_motion.specs.Sweeps.{breakpoints_back, AreChains, IsSweep};
ghost use Rattle.kin_diameter.specs.Merging.{AreAmong, AreSlopesOf, IsNext, left_of, first_placed, facts_between};
ghost use Rattle.kin_diameter.specs.Seen.{half_of, seen, slope_fact};

use crate::breakpoint::{Breakpoint, Chain};
use crate::slope::Slope;
use kin_motion::signs::Signs;
use kin_num::Sign;
use kin_num::memory::NoMemory;
use kin_num::steps::Steps;
use std::alloc::Global;
use std::sync::ledger::Ledger;

/// A breakpoint, with the sign of its slope with the next one of the other chain. Where there is none, it is any sign.
#[derive(Clone, Copy, Debug, PartialEq, Eq)]
pub(crate) struct Placing {
    at: Breakpoint,
    ahead: Sign,
}

/// The one that comes first, of an upper and a lower breakpoint whose slope has this sign.
fn earlier(upper: Breakpoint, lower: Breakpoint, sign: Sign) -> Placing
    ensures { result ≡ first_placed upper lower sign }
{
    match sign {
        Sign::Minus => Placing {
            at: lower,
            ahead: Sign::Plus,
        },
        _ => Placing {
            at: upper,
            ahead: sign,
        },
    }
}

/// The breakpoint that comes next, where these ends of both chains are left. At most one sign is asked for it.
fn next_of<O: Signs, L: Ledger>(
    now: &O,
    upper: &[u32],
    lower: &[u32],
    steps: &mut Steps<L>,
) -> Option<Placing>
    requires real { IsReal (O.scene now.now) }
    requires fits { FitsSize 12 (O.scene now.now) }
    requires upper { AreAmong upper.now (O.scene now.now).live }
    requires lower { AreAmong lower.now (O.scene now.now).live }
    ensures some { IfSome result (λ p. IsNext (O.scene now.now) (breakpoints_of A upper.now) (breakpoints_back (reverse lower.now)) (seen p.at) p.ahead) }
    ensures none { IsNone result → (breakpoints_of A upper.now ≡ []) × (breakpoints_back (reverse lower.now) ≡ []) }
    ensures count { steps.new ≤ steps.old + 1 }
    ensures none_count { IsNone result → steps.new ≡ steps.old }
{
    match (Breakpoint::first(upper), Breakpoint::last(lower)) {
        (Some(upper), Some(lower)) => {
            let sign = now.sign(&upper.slope(lower), steps);
            Some(earlier(upper, lower, sign))
        }
        (Some(only), None) | (None, Some(only)) => Some(Placing {
            at: only,
            ahead: Sign::Plus,
        }),
        (None, None) => None,
    }
}

/// The upper chain without its first point.
fn without_first(upper: &[u32]) -> &[u32]
    ensures breakpoints { breakpoints_of A result.now ≡ left_of A A (breakpoints_of A upper.now) }
    ensures among { AreAmong result.now upper.now }
{
    match upper.split_first() {
        Some((_, rest)) => rest,
        None => upper,
    }
}

/// The lower chain without its last point.
fn without_last(lower: &[u32]) -> &[u32]
    ensures breakpoints { breakpoints_back (reverse result.now) ≡ left_of B B (breakpoints_back (reverse lower.now)) }
    ensures among { AreAmong result.now lower.now }
{
    match lower.split_last() {
        Some((_, rest)) => rest,
        None => lower,
    }
}

/// What is left of both chains after the next breakpoint of one of them.
fn rest_after<'a>(chain: Chain, upper: &'a [u32], lower: &'a [u32]) -> (&'a [u32], &'a [u32])
    ensures upper { breakpoints_of A result.0.now ≡ left_of A (half_of chain) (breakpoints_of A upper.now) }
    ensures lower { breakpoints_back (reverse result.1.now) ≡ left_of B (half_of chain) (breakpoints_back (reverse lower.now)) }
    ensures upper_among { AreAmong result.0.now upper.now }
    ensures lower_among { AreAmong result.1.now lower.now }
{
    match chain {
        Chain::Upper => (without_first(upper), lower),
        Chain::Lower => (upper, without_last(lower)),
    }
}

/// Breakpoints in their order, and the slopes of neighbours of different chains with their signs.
#[derive(Drop)]
pub(crate) struct Merged {
    pub breakpoints: Vec<Breakpoint>,
    pub slopes: Vec<Slope>,
}

impl Merged {
    pub fn new(alloc: Global) -> Merged
        ensures breakpoints { result.breakpoints.items ≡ [] }
        ensures slopes { result.slopes.items ≡ [] }
    {
        Merged {
            breakpoints: Vec::new(alloc),
            slopes: Vec::new(alloc),
        }
    }

    /// Puts a breakpoint at the end, and its slope with the last one where that is of the other chain.
    fn push(&mut self, last: Option<Placing>, at: Breakpoint) -> Result<(), NoMemory>
        ensures breakpoints { OnOk result (self.new.breakpoints.items ≡ self.old.breakpoints.items ++ at ∷ []) }
        ensures slopes { OnOk result (map slope_fact self.new.slopes.items ≡ map slope_fact self.old.slopes.items ++ facts_between last at) }
    {
        self.breakpoints.push(at).map_err(|_| NoMemory)?;
        let Some(last) = last else {
            return Ok(());
        };
        if last.at.chain.is(at.chain) {
            return Ok(());
        }
        let slope = Slope::new(last.at, at, last.ahead);
        self.slopes.push(slope).map_err(|_| NoMemory)?;
        Ok(())
    }

    /// Merges the breakpoints of both chains, the lower one from right to left, by falling slope. Where slopes are equal
    /// the upper one comes first. The memory of the list before is used again.
    pub fn merge<O: Signs, L: Ledger>(
        &mut self,
        now: &O,
        upper: &[u32],
        lower: &[u32],
        steps: &mut Steps<L>,
    ) -> Result<(), NoMemory>
        requires real { IsReal (O.scene now.now) }
        requires fits { FitsSize 12 (O.scene now.now) }
        requires chains { AreChains (O.scene now.now) upper.now lower.now }
        ensures sweep { OnOk result (IsSweep (O.scene now.now) upper.now (reverse lower.now) (map seen self.new.breakpoints.items)) }
        ensures facts { OnOk result (AreSlopesOf (O.scene now.now) self.new.breakpoints.items self.new.slopes.items) }
        ensures once { OnOk result (AreDistinct self.new.slopes.items) }
        ensures cost { OnOk result (steps.new ≤ steps.old + length self.new.breakpoints.items) }
    {
        self.breakpoints.clear();
        self.slopes.clear();
        let (mut upper_rest, mut lower_rest) = (upper, lower);
        let mut last = None;
        'both: while let Some(next) = next_of(now, upper_rest, lower_rest, steps) {
            self.push(last, next.at)?;
            last = Some(next);
            (upper_rest, lower_rest) = rest_after(next.at.chain, upper_rest, lower_rest);
        }
        Ok(())
    }
}
