//! The extreme point along a direction.

ghost use Rattle.std.specs.Prelude.{◌≡◌, ◌≤◌, ◌++◌, ◌^◌, length, IfOk, OnOk};
ghost use Rattle.kin_motion.specs.Extremes.{extreme_of, extreme_facts, point_slots, slot_of_point};
ghost use Rattle.kin_motion.specs.Live.{IsSmallDirection};

use crate::contest::{Contest, best_of};
use crate::lists::put;
use crate::numbers::{is_in, numbers_below};
use crate::tournament::put_tournament_facts;
use kin_motion::fact::Placed;
use kin_motion::form::Form;
use kin_motion::signs::Signs;
use kin_num::Sign;
use kin_num::memory::NoMemory;
use kin_num::steps::Steps;
use std::alloc::Global;
use std::sync::ledger::Ledger;

/// Points compared along a direction: the farther one wins, and at a tie the lesser number.
#[derive(Drop)]
struct Along {
    dx: i32,
    dy: i32,
}

impl Contest for Along {
    ghost use Rattle.kin_motion.specs.Extremes.{along_key};
    ghost use Rattle.kin_plain.specs.Comparing.{MayLieAlong, along_askable};

    type Item = u32;

    ghost key = { λ k. along_key k.dx k.dy };

    ghost may = { λ k. MayLieAlong k.dx k.dy };

    ghost askable = { λ k. along_askable k.dx k.dy };

    fn form(&self, left: &u32, right: &u32) -> Form {
        Form::Line {
            dx: self.dx,
            dy: self.dy,
            off: 0,
            i: *left,
            j: *right,
        }
    }

    fn left_wins(&self, sign: Sign, left: &u32, right: &u32) -> bool {
        match sign {
            Sign::Minus => true,
            Sign::Zero => *left < *right,
            Sign::Plus => false,
        }
    }
}

/// The extreme live number, or none where no number is live.
pub fn extreme_of<O: Signs, L: Ledger>(
    now: &O,
    live: &[u32],
    dx: i32,
    dy: i32,
    steps: &mut Steps<L>,
) -> Option<u32>
    requires small { IsSmallDirection dx dy }
    requires live { live.now ≡ (O.scene now.now).live }
    ensures { result ≡ extreme_of (O.scene now.now) dx dy }
{
    best_of(&Along { dx, dy }, now, live, steps)
}

/// What slot `no` holds: the point of that number where it is live.
fn slot_of_point(live: &[u32], no: u32) -> Option<u32>
    ensures { result ≡ slot_of_point live.now no }
{
    if is_in(no, live) { Some(no) } else { None }
}

/// The slots of all numbers below `2^size`. Slot `i` holds point `i` where it is live.
fn point_slots(alloc: Global, size: u32, live: &[u32]) -> Result<Vec<Option<u32>>, NoMemory>
    requires { size ≤ 12 }
    ensures { IfOk result (λ slots. slots.items ≡ point_slots size live.now) }
{
    let mut slots = Vec::new(alloc);
    for no in 0..numbers_below(size) {
        put(&mut slots, slot_of_point(live, no))?;
    }
    Ok(slots)
}

/// Puts the facts of the tournament of the points at the end.
pub fn put_extreme_facts<O: Signs, L: Ledger>(
    alloc: Global,
    now: &O,
    size: u32,
    live: &[u32],
    dx: i32,
    dy: i32,
    facts: &mut Vec<Placed>,
    steps: &mut Steps<L>,
) -> Result<(), NoMemory>
    requires size { size ≤ 12 }
    requires small { IsSmallDirection dx dy }
    requires live { live.now ≡ (O.scene now.now).live }
    ensures { OnOk result (facts.new.items ≡ facts.old.items ++ extreme_facts size (O.scene now.now) dx dy) }
{
    let slots = point_slots(alloc, size, live)?;
    put_tournament_facts(&Along { dx, dy }, now, size, 0, &slots, facts, steps)
}
