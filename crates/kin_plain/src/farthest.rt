//! The farthest pair.

ghost use Rattle.std.specs.Prelude.{◌≡◌, filter, IfOk};
ghost use Rattle.std.specs.List.{All};
ghost use Rattle.kin_motion.specs.Farthest.{are_apart, farthest_of};
ghost use Rattle.kin_plain.specs.Comparing.{AreBothLive};

use crate::chain::{is_zero, x_sign, y_sign};
use crate::contest::{Contest, best_of};
use crate::lists::put;
use crate::pair::{Pair, pair_in, pairs_of};
use kin_motion::form::Form;
use kin_motion::signs::Signs;
use kin_num::Sign;
use kin_num::memory::NoMemory;
use kin_num::steps::Steps;
use std::alloc::Global;
use std::sync::ledger::Ledger;

/// Pairs compared by distance: the farther pair wins, and at a tie the lesser one.
#[derive(Drop)]
pub struct Farness;

impl Contest for Farness {
    ghost use Rattle.kin_motion.specs.Farthest.{farness_key};
    ghost use Rattle.kin_plain.specs.Comparing.{AreBothLive, farness_askable};

    type Item = Pair;

    ghost key = { λ k. farness_key };

    ghost may = { λ k. AreBothLive };

    ghost askable = { λ k. farness_askable };

    fn form(&self, left: &Pair, right: &Pair) -> Form {
        left.distance(right)
    }

    fn left_wins(&self, sign: Sign, left: &Pair, right: &Pair) -> bool {
        match sign {
            Sign::Plus => false,
            Sign::Zero => left.is_less(right),
            Sign::Minus => true,
        }
    }
}

/// Whether both points are at different places.
fn are_apart<O: Signs, L: Ledger>(now: &O, pair: &Pair, steps: &mut Steps<L>) -> bool
    requires { AreBothLive (O.scene now.now).live pair.now }
    ensures { result ≡ are_apart (O.scene now.now) pair.now.i pair.now.j }
{
    let (i, j) = pair.points();
    !(is_zero(x_sign(now, i, j, steps)) && is_zero(y_sign(now, i, j, steps)))
}

/// Those of some pairs that are at different places.
fn apart_of<O: Signs, L: Ledger>(
    alloc: Global,
    now: &O,
    pairs: &[Pair],
    steps: &mut Steps<L>,
) -> Result<Vec<Pair>, NoMemory>
    requires { All (AreBothLive (O.scene now.now).live) pairs.now }
    ensures { IfOk result (λ apart. apart.items ≡ filter (λ p. are_apart (O.scene now.now) p.i p.j) pairs.now) }
{
    let mut apart = Vec::new(alloc);
    for pair in pairs {
        if are_apart(now, pair, steps) {
            put(&mut apart, *pair)?;
        }
    }
    Ok(apart)
}

/// The farthest pair, or none where no two live numbers are at different places.
pub fn farthest_of<O: Signs, L: Ledger>(
    alloc: Global,
    now: &O,
    live: &[u32],
    steps: &mut Steps<L>,
) -> Result<Option<(u32, u32)>, NoMemory>
    requires live { live.now ≡ (O.scene now.now).live }
    ensures { IfOk result (λ farthest. farthest ≡ farthest_of (O.scene now.now)) }
{
    let pairs = pairs_of(alloc, live)?;
    let apart = apart_of(alloc, now, &pairs, steps)?;
    Ok(pair_in(best_of(&Farness, now, &apart, steps)))
}
