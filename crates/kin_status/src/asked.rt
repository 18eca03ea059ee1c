//! The instant that an `at` line asks for.

ghost use Rattle.std.specs.Prelude.{◌≡◌, ◌≤◌, ◌<◌, ◌<ℤ◌, ◌^◌, ◌↔◌, IsTrue, MatchOption, if◌then◌else◌, pos, unsigned_abs};
ghost use Rattle.kin_num.specs.Canonical.{discriminant};
ghost use Rattle.kin_num.specs.Order.{IsEarlier};
ghost use Rattle.kin_motion.specs.Turning.{just_at};
ghost use Rattle.kin_script.specs.Replay.{IsNamedRoot};

use kin_instant::order::compare;
use kin_instant::roots::Roots;
use kin_instant::solve::roots;
use kin_num::poly::Poly;
use kin_num::{Instant, Moment, Phase};
use std::cmp::Ordering;

/// Whether the instant is before the moment.
pub fn is_before(instant: &Instant, moment: &Moment) -> bool
    ensures { IsTrue result ↔ IsEarlier (just_at instant.now) moment.now }
{
    match compare(instant, &moment.at) {
        Ordering::Less => true,
        Ordering::Equal => moment.phase == Phase::After,
        Ordering::Greater => false,
    }
}

/// The one of two roots that `upper` names.
fn named(lesser: Instant, greater: Instant, upper: bool) -> Instant
    ensures { result ≡ (if upper then greater else lesser) }
{
    if upper { greater } else { lesser }
}

/// The greater root or the lesser one of `a*t^2 + b*t + c`, where `a` isn't 0; with one root both name
/// it. `None` exactly where there is no real root.
pub fn named_root(a: i64, b: i64, c: i64, upper: bool) -> Option<Instant>
    requires a_not_zero { 0 < unsigned_abs a }
    requires a_small { unsigned_abs a ≤ 2 ^ 29 }
    requires b_small { unsigned_abs b ≤ 2 ^ 31 }
    requires c_small { unsigned_abs c ≤ 2 ^ 29 }
    ensures { MatchOption result (discriminant a b c <ℤ pos 0) (IsNamedRoot upper (record { a = a; b = b; c = c })) }
{
    match roots(&Poly::new(a, b, c)) {
        Roots::Nowhere | Roots::All => None,
        Roots::One(root) => Some(root),
        Roots::Two(lesser, greater) => Some(named(lesser, greater, upper)),
    }
}
