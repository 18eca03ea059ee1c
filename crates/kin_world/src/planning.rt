//! What may be planned: the motion of a new leg, and why there is none.

ghost use Rattle.std.specs.Prelude.{◌≡◌, ◌<◌, ◌≤◌, ◌^◌, ◌↔◌, ◌⊎◌, Some, None, Err, IfOk, IsTrue, option_map, unwrap_or, unsigned_abs};
ghost use Rattle.kin_num.specs.declared.instant.Moment.{Moment as MomentOf};
ghost use Rattle.kin_num.specs.declared.instant.Phase.TheVariants.{At};
ghost use Rattle.kin_num.specs.Order.{IsEarlier};
ghost use Rattle.kin_motion.specs.Course.{Course, motion_limit};
ghost use Rattle.kin_motion.specs.Plans.{Plan as Path};
ghost use Rattle.kin_motion.specs.Turning.{just_at};
ghost use Rattle.kin_legs.specs.declared.leg.Leg.{Leg as Planned};
ghost use Rattle.kin_legs.specs.Paths.{whole};
ghost use Rattle.kin_legs.specs.Scheduling.{HasLegFrom, IsOver, MayFollow, FollowsTooFast};
ghost use Rattle.kin_world.specs.declared.planning.LegError.TheVariants.{Past as Late, Planned as AlreadyPlanned, OutOfBounds as TooFar};
ghost use Rattle.kin_world.specs.Crossing.{IsKnownBy};

use kin_instant::order::compare;
use kin_legs::Leg;
use kin_motion::Motion;
use kin_num::{Instant, Moment, Phase, Shape};
use kin_turn::turned::{TurnError, turned};
use std::cmp::Ordering;

/// Why a leg can't be planned.
#[derive(Clone, Copy, Debug, PartialEq, Eq)]
pub enum LegError {
    /// The instant isn't after now.
    Past,
    /// The point has a leg from this instant or a later one on.
    Planned,
    /// One of the numbers of its motion isn't in -8192..8192.
    OutOfBounds,
}

/// A whole instant below 2^31, as a moment.
pub(crate) fn whole_moment(at: u32) -> Moment
    requires soon { at < 2 ^ 31 }
    ensures { result ≡ just_at (whole at) }
{
    Moment {
        at: Instant::of(Shape::Ratio {
            n: i64::from(at),
            d: 1,
        }),
        phase: Phase::At,
    }
}

/// Whether an instant itself comes after a moment. Counts no step.
fn is_later(instant: &Instant, moment: &Moment) -> bool
    ensures { IsTrue result ↔ IsEarlier moment.now (just_at instant.now) }
{
    compare(instant, &moment.at) == Ordering::Greater
}

/// The earlier one of the moment at which a leg begins and the next failure, if there is one. Counts no step.
pub(crate) fn first_of(begins: Moment, failing: Option<Moment>) -> Moment
    requires at { begins.phase ≡ At }
    ensures none { failing ≡ None → result ≡ begins }
    ensures some { (due : MomentOf) → failing ≡ Some due → ((result ≡ due) × IsEarlier due begins) ⊎ ((result ≡ begins) × ¬ (IsEarlier due begins)) }
{
    match failing {
        Some(due) => {
            if is_later(&begins.at, &due) {
                due
            } else {
                begins
            }
        }
        None => begins,
    }
}

// Whether there is a leg, and it begins at this instant or later.
fn begins_from(last: &Option<Leg>, at: u32) -> bool
    ensures { IsTrue result ↔ ((l : Planned) × (last.now ≡ Some l) × (at ≤ l.at)) }
{
    match last {
        Some(leg) => at <= leg.at,
        None => false,
    }
}

// The motion of the leg, or this one where there is none.
fn motion_after(motion: &Motion, last: &Option<Leg>) -> Motion
    ensures { result ≡ unwrap_or (option_map (λ (l : Planned). l.m) last.now) motion.now }
{
    match last {
        Some(leg) => leg.m,
        None => *motion,
    }
}

/// The motion with the velocity `(u, v)` of a leg from `at` on, for a point with this motion and this last leg.
pub(crate) fn following(
    motion: &Motion,
    last: Option<Leg>,
    now: &Moment,
    at: u32,
    u: i32,
    v: i32,
) -> Result<Motion, LegError>
    requires soon { at < 2 ^ 31 }
    requires u { unsigned_abs u ≤ motion_limit }
    requires v { unsigned_abs v ≤ motion_limit }
    ensures may { (plan : Path) → IsKnownBy motion.now last plan → IfOk result (MayFollow now.now plan at u v) }
    ensures past { (result ≡ Err Late) ↔ IsOver now.now at }
    ensures planned { (plan : Path) → IsKnownBy motion.now last plan → (result ≡ Err AlreadyPlanned) ↔ (IsEarlier now.now (just_at (whole at)) × HasLegFrom plan at) }
    ensures outside { (plan : Path) → IsKnownBy motion.now last plan → (result ≡ Err TooFar) ↔ FollowsTooFast now.now plan at u v }
{
    let begins = whole_moment(at);
    if !is_later(&begins.at, now) {
        return Err(LegError::Past);
    }
    if begins_from(&last, at) {
        return Err(LegError::Planned);
    }
    match turned(&motion_after(motion, &last), &begins, u, v) {
        Ok(new) => Ok(new),
        Err(TurnError::OutOfBounds) => Err(LegError::OutOfBounds),
        Err(TurnError::NotWhole) => unreachable!(),
    }
}
