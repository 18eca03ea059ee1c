//! The nearest other point of a point.

ghost use Rattle.std.specs.Prelude.{◌≡◌, ℕ, not, nat_eq, filter, IfOk};
ghost use Rattle.kin_motion.specs.Nearest.{nearest_of};
ghost use Rattle.kin_motion.specs.Numbers.{IsIn};

use crate::contest::{Contest, best_of};
use crate::lists::put;
use kin_motion::form::Form;
use kin_motion::signs::Signs;
use kin_num::Sign;
use kin_num::memory::NoMemory;
use kin_num::steps::Steps;
use std::alloc::Global;
use std::sync::ledger::Ledger;

/// Points compared by their distance from one: the nearer point wins, and at a tie the lesser number.
#[derive(Drop)]
struct Around {
    no: u32,
}

impl Contest for Around {
    ghost use Rattle.kin_motion.specs.Nearest.{distance_from};
    ghost use Rattle.kin_plain.specs.Comparing.{MayBeNear, around_askable};

    type Item = u32;

    ghost key = { λ k. distance_from k.no };

    ghost may = { λ k. MayBeNear k.no };

    ghost askable = { λ k. around_askable k.no };

    fn form(&self, left: &u32, right: &u32) -> Form {
        Form::Dist {
            i: self.no,
            j: *left,
            k: self.no,
            l: *right,
        }
    }

    fn left_wins(&self, sign: Sign, left: &u32, right: &u32) -> bool {
        match sign {
            Sign::Plus => true,
            Sign::Zero => *left < *right,
            Sign::Minus => false,
        }
    }
}

/// The numbers of a list other than one.
fn others_of(alloc: Global, list: &[u32], no: u32) -> Result<Vec<u32>, NoMemory>
    ensures { IfOk result (λ others. others.items ≡ filter (λ j. not (nat_eq j no)) list.now) }
{
    let mut others = Vec::new(alloc);
    for other in list {
        if *other != no {
            put(&mut others, *other)?;
        }
    }
    Ok(others)
}

/// The nearest other live number of a live number, or none where no other is live.
pub fn nearest_of<O: Signs, L: Ledger>(
    alloc: Global,
    now: &O,
    live: &[u32],
    no: u32,
    steps: &mut Steps<L>,
) -> Result<Option<u32>, NoMemory>
    requires no_live { IsIn no (O.scene now.now).live }
    requires live { live.now ≡ (O.scene now.now).live }
    ensures { IfOk result (λ nearest. nearest ≡ nearest_of (O.scene now.now) no) }
{
    let others = others_of(alloc, live, no)?;
    Ok(best_of(&Around { no }, now, &others, steps))
}
