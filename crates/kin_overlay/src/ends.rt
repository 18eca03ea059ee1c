//! What is asked at the outer ends.

ghost use Rattle.std.specs.Prelude.{◌≡◌, ◌⊎◌, ℕ, ◌+◌, ◌<◌, ◌≤◌, pos, Some, length};
ghost use Rattle.kin_motion.specs.declared.fact.Fact.{Fact as Claim};
ghost use Rattle.kin_motion.specs.declared.form.Form.TheVariants.{Line};
ghost use Rattle.kin_motion.specs.Numbers.{IsIn};
ghost use Rattle.kin_motion.specs.Scene.{x_sign, y_sign};
ghost use Rattle.kin_overlay.specs.Fingers.{end_at, right_end, AreLive};
ghost use Rattle.kin_overlay.specs.Lists.{front, behind};
ghost use Rattle.kin_overlay.specs.Remembered.{end_facts};
ghost use Rattle.kin_overlay.specs.Repairing.{AtLeast, IsUnknown};
ghost use Rattle.kin_overlay.specs.Standings.{StandIn};

use crate::end::{End, x_line, y_line};
use crate::standing::Standing;
use kin_motion::signs::Signs;
use kin_num::Sign;
use kin_num::steps::Steps;
use std::sync::ledger::Ledger;

/// The sign by x of an outer end. It isn't asked where it is remembered and unfailed.
#[inline(always)]
fn end_sign<O: Signs, L: Ledger>(
    a: u32,
    b: u32,
    standing: &Standing,
    now: &O,
    steps: &mut Steps<L>,
) -> Sign
    requires standing { StandIn (O.scene now.now) standing.now }
    requires a_live { IsIn a (O.scene now.now).live }
    requires b_live { IsIn b (O.scene now.now).live }
    ensures value { result ≡ x_sign (O.scene now.now) a b }
    ensures count { steps.new ≤ steps.old + 1 }
    ensures asked { (steps.new ≡ steps.old) ⊎ ((steps.new ≡ steps.old + 1) × ((f : Claim) → f.form ≡ Line (pos 1) (pos 0) (pos 0) a b → IsUnknown standing.now f)) }
{
    match standing.x_sign(a, b) {
        Some(sign) => sign,
        None => now.sign(&x_line(a, b), steps),
    }
}

/// The sign by y of an outer end. It isn't asked where it is remembered and unfailed.
fn end_height<O: Signs, L: Ledger>(
    a: u32,
    b: u32,
    standing: &Standing,
    now: &O,
    steps: &mut Steps<L>,
) -> Sign
    requires standing { StandIn (O.scene now.now) standing.now }
    requires a_live { IsIn a (O.scene now.now).live }
    requires b_live { IsIn b (O.scene now.now).live }
    ensures value { result ≡ y_sign (O.scene now.now) a b }
    ensures count { steps.new ≤ steps.old + 1 }
    ensures asked { (steps.new ≡ steps.old) ⊎ ((steps.new ≡ steps.old + 1) × ((f : Claim) → f.form ≡ Line (pos 0) (pos 1) (pos 0) a b → IsUnknown standing.now f)) }
{
    match standing.y_sign(a, b) {
        Some(sign) => sign,
        None => now.sign(&y_line(a, b), steps),
    }
}

/// An outer end with these points.
#[inline(always)]
pub fn end_of<O: Signs, L: Ledger>(
    a: u32,
    b: u32,
    standing: &Standing,
    now: &O,
    steps: &mut Steps<L>,
) -> End
    requires standing { StandIn (O.scene now.now) standing.now }
    requires a_live { IsIn a (O.scene now.now).live }
    requires b_live { IsIn b (O.scene now.now).live }
    ensures value { result ≡ end_at (O.scene now.now) a b }
    ensures count { steps.new ≤ steps.old + length (end_facts (Some result)) }
    ensures asked { (n : ℕ) × AtLeast (IsUnknown standing.now) (end_facts (Some result)) n × (steps.new ≡ steps.old + n) }
{
    let x = end_sign(a, b, standing, now, steps);
    let y = match x {
        Sign::Zero => Some(end_height(a, b, standing, now, steps)),
        Sign::Minus | Sign::Plus => None,
    };
    End { a, b, x, y }
}

/// The right outer end of two chains, where it is another than the left one.
pub fn right_end<O: Signs, L: Ledger>(
    a: &[u32],
    b: &[u32],
    standing: &Standing,
    now: &O,
    steps: &mut Steps<L>,
) -> Option<End>
    requires standing { StandIn (O.scene now.now) standing.now }
    requires a_some { 0 < length a.now }
    requires b_some { 0 < length b.now }
    requires a_live { AreLive (O.scene now.now).live a.now }
    requires b_live { AreLive (O.scene now.now).live b.now }
    ensures value { result ≡ right_end (O.scene now.now) (front a.now) (behind a.now) (front b.now) (behind b.now) }
    ensures count { steps.new ≤ steps.old + length (end_facts result) }
    ensures asked { (n : ℕ) × AtLeast (IsUnknown standing.now) (end_facts result) n × (steps.new ≡ steps.old + n) }
{
    if a.len() + b.len() == 2 {
        return None;
    }
    Some(end_of(a[a.len() - 1], b[b.len() - 1], standing, now, steps))
}
