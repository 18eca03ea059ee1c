//! The way down at one place, from each number to the next lesser one.

ghost use Rattle.std.specs.Prelude.{◌≡◌, ◌≢◌, ◌↔◌, ◌+◌, ◌≤◌, ◌<◌, ◌^◌, IsTrue, MatchOption};
ghost use Rattle.kin_motion.specs.Numbers.{IsIn};
ghost use Rattle.kin_motion.specs.Scene.{IsReal};
ghost use Rattle.kin_wedge.specs.Wedging.{IsSettledWedging};
ghost use Rattle.kin_near.specs.Candidates.{AreCoincident};
ghost use Rattle.kin_near.specs.Hits.{IsWayDown};
ghost use Rattle.kin_nearest.specs.Nearing.{count_lesser_there};
ghost use Rattle.kin_nearest.specs.Walks.{IsLowestFor, IsStepDown};

use kin_motion::form::Form;
use kin_motion::signs::Signs;
use kin_num::Sign;
use kin_num::steps::Steps;
use kin_wedge::Wedges;
use std::sync::ledger::Ledger;

/// Whether two points are at one place. The form is minus their squared distance.
fn are_at_one_place<O: Signs, L: Ledger>(now: &O, i: u32, j: u32, steps: &mut Steps<L>) -> bool
    requires real { IsReal (O.scene now.now) }
    requires first { IsIn i (O.scene now.now).live }
    requires second { IsIn j (O.scene now.now).live }
    ensures value { IsTrue result ↔ AreCoincident (O.scene now.now) i j }
    ensures count { steps.new ≡ steps.old + 1 }
{
    let distance = Form::Dist { i, j, k: i, l: i };
    matches!(now.sign(&distance, steps), Sign::Zero)
}

/// The next lesser number at the place of a point, but none where that is `no`. It is the candidate in octant 4, unless
/// this is elsewhere.
fn next_down<O: Signs, L: Ledger>(
    wedges: &Wedges,
    now: &O,
    no: u32,
    from: u32,
    steps: &mut Steps<L>,
) -> Option<u32>
    requires real { IsReal (O.scene now.now) }
    requires settled { IsSettledWedging wedges.now (O.scene now.now) }
    requires live { IsIn from (O.scene now.now).live }
    requires room { from < 2 ^ wedges.now.size }
    ensures next { MatchOption result (IsLowestFor (O.scene now.now) no from) (IsStepDown (O.scene now.now) no from) }
    ensures room { MatchOption result (Unit {0}) (λ next. next < 2 ^ wedges.now.size) }
    ensures tests { steps.new ≤ steps.old + 1 }
{
    let Some(next) = wedges.candidate(from, 4) else {
        return None;
    };
    if next == no {
        return None;
    }
    if are_at_one_place(now, from, next, steps) {
        Some(next)
    } else {
        None
    }
}

/// Where the way down from an apex leads: to the least number at its place, but not below `no` where this is on the way.
pub fn walk_down<O: Signs, L: Ledger>(
    wedges: &Wedges,
    now: &O,
    no: u32,
    apex: u32,
    steps: &mut Steps<L>,
) -> u32
    requires real { IsReal (O.scene now.now) }
    requires settled { IsSettledWedging wedges.now (O.scene now.now) }
    requires live { IsIn apex (O.scene now.now).live }
    requires other { apex ≢ no }
    requires room { apex < 2 ^ wedges.now.size }
    ensures way { IsWayDown (O.scene now.now) no apex result }
    ensures tests { steps.new ≤ steps.old + count_lesser_there (O.scene now.now) apex + 1 }
{
    let mut end = apex;
    while let Some(next) = next_down(wedges, now, no, end, steps) {
        end = next;
    }
    end
}
