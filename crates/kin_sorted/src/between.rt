//! What is asked and reported for two items, by their slots.

ghost use Rattle.std.specs.Prelude.{◌≡◌, ◌+◌, ◌≤◌, ◌^◌};
ghost use Rattle.kin_motion.specs.Parts.{moved_by};
ghost use Rattle.kin_sorted.specs.Links.{fact_of};

use crate::ranked::Ranked;
use kin_motion::fact::{Fact, Placed};
use kin_motion::form::Form;
use kin_num::Sign;

/// The form of two items.
#[inline(always)]
pub fn form_between<R: Ranked>(rank: &R, left: u32, right: u32) -> Form
    ensures { result ≡ (R.ranks rank.now).form left right }
{
    rank.form(rank.item(left), rank.item(right))
}

/// Whether the left item comes first where their form has this sign.
#[inline(always)]
pub fn stands_first<R: Ranked>(rank: &R, sign: Sign, left: u32, right: u32) -> bool
    ensures { result ≡ (R.ranks rank.now).leads sign left right }
{
    rank.leads(sign, rank.item(left), rank.item(right))
}

/// The fact of a link, this many parts further on.
#[inline(always)]
pub fn fact<R: Ranked>(rank: &R, part: u32, left: u32, right: u32, sign: Sign) -> Placed
    requires { part + (R.ranks rank.now).parts ≤ 2 ^ 32 }
    ensures { result ≡ moved_by part (fact_of (R.ranks rank.now) left (record { right = right; sign = sign })) }
{
    let own = rank.part(rank.item(left), rank.item(right));
    Placed {
        part: part + own,
        fact: Fact {
            form: form_between(rank, left, right),
            sign,
        },
    }
}
