//! The nearest of the points to which the hits lead.

ghost use Rattle.std.specs.Prelude.{◌≡◌, ◌≢◌, ℕ, ◌+◌, ◌≤◌, ◌<◌, ◌^◌, None, Some, MatchOption};
ghost use Rattle.kin_motion.specs.Nearest.{IsNearest};
ghost use Rattle.kin_motion.specs.Numbers.{IsIn};
ghost use Rattle.kin_motion.specs.Scene.{IsReal};
ghost use Rattle.kin_motion.specs.Spending.{HasRisenWithin};
ghost use Rattle.kin_wedge.specs.Wedging.{candidate_told, IsSettledWedging};
ghost use Rattle.kin_nearest.specs.Nearing.{count_lesser_there, MayNearestAsk};
ghost use Rattle.kin_nearest.specs.Searches.{IsEnd, IsKept, IsReached, MayOctantAsk};

use crate::walk::walk_down;
use kin_motion::form::Form;
use kin_motion::signs::Signs;
use kin_num::Sign;
use kin_num::steps::Steps;
use kin_wedge::Wedges;
use std::sync::ledger::Ledger;

/// The nearer one to `no` of the best so far and of the point to which an apex leads, of equally near ones the lesser. All
/// points at the apex's place are as far as the apex, so that is compared first; where it is farther than the best,
/// nothing is walked.
fn better_of<O: Signs, L: Ledger>(
    wedges: &Wedges,
    now: &O,
    no: u32,
    apex: u32,
    best: Option<u32>,
    steps: &mut Steps<L>,
) -> u32
    requires real { IsReal (O.scene now.now) }
    requires settled { IsSettledWedging wedges.now (O.scene now.now) }
    requires member { IsIn no (O.scene now.now).live }
    requires live { IsIn apex (O.scene now.now).live }
    requires other { apex ≢ no }
    requires room { apex < 2 ^ wedges.now.size }
    requires best { IsEnd (O.scene now.now) no best }
    ensures end { IsEnd (O.scene now.now) no (Some result) }
    ensures reached { IsReached (O.scene now.now) no (Some result) apex }
    ensures best { MatchOption best (Unit {0}) (λ b. IsKept (O.scene now.now) no b result) }
    ensures tests { steps.new ≤ steps.old + count_lesser_there (O.scene now.now) apex + 2 }
{
    let Some(best) = best else {
        return walk_down(wedges, now, no, apex, steps);
    };
    if apex == best {
        return best;
    }
    let distances = Form::Dist {
        i: no,
        j: apex,
        k: no,
        l: best,
    };
    match now.sign(&distances, steps) {
        Sign::Plus => walk_down(wedges, now, no, apex, steps),
        Sign::Zero => walk_down(wedges, now, no, apex, steps).min(best),
        Sign::Minus => best,
    }
}

/// The nearest of the best so far and of the points to which the hits in an octant lead.
fn best_with<O: Signs, L: Ledger>(
    wedges: &Wedges,
    now: &O,
    no: u32,
    octant: u32,
    best: Option<u32>,
    steps: &mut Steps<L>,
) -> Option<u32>
    requires real { IsReal (O.scene now.now) }
    requires settled { IsSettledWedging wedges.now (O.scene now.now) }
    requires member { IsIn no (O.scene now.now).live }
    requires octant { octant < 8 }
    requires best { IsEnd (O.scene now.now) no best }
    ensures end { IsEnd (O.scene now.now) no result }
    ensures hits { (h : ℕ) → candidate_told wedges.now h octant ≡ Some no → IsReached (O.scene now.now) no result h }
    ensures kept { (h : ℕ) → IsReached (O.scene now.now) no best h → IsReached (O.scene now.now) no result h }
    ensures tests { HasRisenWithin (MayOctantAsk wedges.now (O.scene now.now) no octant) steps.old steps.new }
{
    let mut best = best;
    for apex in wedges.hits(no, octant) {
        best = Some(better_of(wedges, now, no, apex, best, steps));
    }
    best
}

/// The nearest of the points to which the hits in all octants lead.
pub fn best_of_hits<O: Signs, L: Ledger>(
    wedges: &Wedges,
    now: &O,
    no: u32,
    steps: &mut Steps<L>,
) -> Option<u32>
    requires real { IsReal (O.scene now.now) }
    requires settled { IsSettledWedging wedges.now (O.scene now.now) }
    requires member { IsIn no (O.scene now.now).live }
    ensures nearest { IsNearest (O.scene now.now) no result }
    ensures tests { HasRisenWithin (MayNearestAsk wedges.now (O.scene now.now) no) steps.old steps.new }
{
    let mut best = None;
    for octant in 0..8 {
        best = best_with(wedges, now, no, octant, best, steps);
    }
    best
}
