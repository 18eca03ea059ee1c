//! The first failure of a fact.

ghost use Rattle.std.specs.Prelude.{◌≡◌, ◌+◌, ◌↔◌, IsTrue, pos};
ghost use Rattle.kin_num.specs.Instants.{sign_at};
ghost use Rattle.kin_motion.specs.declared.fact.Fact.{Fact as Known};
ghost use Rattle.kin_fail.specs.Failures.{IsFirstFailure, seen_by};

use kin_instant::next::next_root_from;
use kin_motion::fact::Fact;
use kin_num::{Moment, Phase, Poly, Sign, Steps};
use std::sync::ledger::Ledger;

/// The first moment after now at which the fact doesn't hold, or `None` exactly where it holds at
/// every later moment. `p` is the polynomial of its form, and the fact holds now.
///
/// A sign + or - fails at the next root. A sign 0 fails just after the present instant, since no
/// polynomial but 0 has the sign 0 there. It is made in line, but for the roots of curves.
#[inline(always)]
pub fn first_fail<L: Ledger>(
    fact: &Fact,
    p: &Poly,
    now: &Moment,
    steps: &mut Steps<L>,
) -> Option<Moment>
    requires holds { sign_at p.now now.now ≡ fact.now.sign }
    ensures failure { IsFirstFailure (seen_by p.now) now.now fact.now result }
    ensures count { steps.new ≡ steps.old + 1 }
{
    steps.tick();
    now.at.recall_canonical();
    if let Sign::Zero = fact.sign {
        return left_zero(p, now);
    }
    let Some(at) = next_root_from(p, now, fact.sign) else {
        return None;
    };
    Some(Moment {
        at,
        phase: Phase::At,
    })
}

// When a polynomial leaves the sign 0. Only a constant never does: it is 0, which isn't asked.
#[inline(always)]
fn left_zero(p: &Poly, now: &Moment) -> Option<Moment>
    requires { sign_at p.now now.now ≡ Sign.Zero }
    ensures { (f : Known) → f.sign ≡ Sign.Zero → IsFirstFailure (seen_by p.now) now.now f result }
{
    now.at.recall_canonical();
    if is_constant(p) {
        return None;
    }
    Some(Moment {
        at: now.at,
        phase: Phase::After,
    })
}

fn is_constant(p: &Poly) -> bool
    ensures { IsTrue result ↔ ((p.now.a ≡ pos 0) × (p.now.b ≡ pos 0)) }
{
    p.a() == 0 && p.b() == 0
}
