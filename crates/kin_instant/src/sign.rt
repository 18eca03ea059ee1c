//! The sign of a quadratic at an instant and at a moment.

ghost use Rattle.std.specs.Prelude.{◌≡◌, ◌+◌};
ghost use Rattle.kin_num.specs.Canonical.{IsCanonical};
ghost use Rattle.kin_num.specs.Instants.{sign_at_instant, sign_at as sign_at_moment, derivative};

use crate::ratio_sign::{slope_at_ratio, value_at_ratio};
use crate::root_sign::{slope_at_root, value_at_root};
use kin_algebra::sign::Sign;
use kin_num::instant::{Instant, Moment, Phase, Shape};
use kin_num::poly::Poly;
use kin_num::steps::Steps;
use std::sync::ledger::Ledger;

/// The sign of `p` at `w`.
#[inline(always)]
pub(crate) fn value_sign(p: &Poly, w: &Instant) -> Sign
    ensures value { result ≡ sign_at_instant p.now w.now }
    ensures canonical { IsCanonical w.now }
{
    match w.shape() {
        Shape::Ratio { n, d } => value_at_ratio(p, n, d),
        Shape::Root { a, b, c, upper } => {
            // a copy, so that the polynomial of a line needs no place in memory
            let p = *p;
            value_at_root(&p, a, b, c, upper)
        }
    }
}

/// The sign of the slope of `p` at `w`.
#[inline(always)]
pub(crate) fn slope_sign(p: &Poly, w: &Instant) -> Sign
    ensures value { result ≡ sign_at_instant (derivative p.now) w.now }
    ensures canonical { IsCanonical w.now }
{
    match w.shape() {
        Shape::Ratio { n, d } => slope_at_ratio(p, n, d),
        Shape::Root { a, b, c, upper } => {
            // as above
            let p = *p;
            slope_at_root(&p, a, b, c, upper)
        }
    }
}

/// The sign of `p` at the moment `m`. Just after an instant it is that of the first of `p`, its slope and its
/// curvature that isn't zero there.
#[inline(always)]
fn moment_sign(p: &Poly, m: &Moment) -> Sign
    ensures { result ≡ sign_at_moment p.now m.now }
{
    let value = value_sign(p, &m.at);
    match (m.phase, value) {
        (Phase::After, Sign::Zero) => slope_sign(p, &m.at).then(Sign::of(i128::from(p.a()))),
        _ => value,
    }
}

/// The same where the instant is an irrational root. It is one call, so that at a fraction no value has to be kept
/// over a call.
#[inline(never)]
fn moment_sign_at_root(p: &Poly, m: &Moment) -> Sign
    ensures { result ≡ sign_at_moment p.now m.now }
{
    moment_sign(p, m)
}

/// The sign of `p` at the moment `m`. Counts one step.
///
/// At a fraction this takes a handful of products of 64-bit numbers, and two for a line; at an irrational root about
/// ten. No root is taken. It is in line, so that a line doesn't pay for what only curves need.
#[inline(always)]
pub fn sign_at<L: Ledger>(p: &Poly, m: &Moment, steps: &mut Steps<L>) -> Sign
    ensures value { result ≡ sign_at_moment p.now m.now }
    ensures count { steps.new ≡ steps.old + 1 }
{
    steps.tick();
    match m.at.shape() {
        Shape::Ratio { .. } => moment_sign(p, m),
        Shape::Root { .. } => {
            // a copy, so that the polynomial of a line needs no place in memory
            let p = *p;
            moment_sign_at_root(&p, m)
        }
    }
}
