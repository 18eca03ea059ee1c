//! What comes first: facts fail, or a leg begins.

ghost use Rattle.std.specs.Prelude.{◌≡◌, ◌<◌, ◌^◌, ◌↔◌, IfOk, IfSome, IsTrue};
ghost use Rattle.std.specs.List.{All};
ghost use Rattle.kin_num.specs.Canonical.{IsCanonical};
ghost use Rattle.kin_num.specs.Order.{IsEarlier};
ghost use Rattle.kin_motion.specs.Course.{live_of};
ghost use Rattle.kin_motion.specs.Forms.{IsAskable};
ghost use Rattle.kin_motion.specs.Moments.{HoldsAt};
ghost use Rattle.kin_motion.specs.Plans.{motions_in_force, plans_scene};
ghost use Rattle.kin_motion.specs.Turning.{just_at};
ghost use Rattle.kin_legs.specs.Paths.{whole};
ghost use Rattle.kin_check.specs.Events.{ComesBy, ComesFirst, IsFirst, IsFirstBy};
ghost use Rattle.kin_check.specs.Sound.{IsSound};

use crate::least::least_failure;
use crate::plan::whole;
use crate::sight::sight_at;
use crate::state::State;
use kin_instant::order::compare_moments;
use kin_num::memory::NoMemory;
use kin_num::{Moment, Phase, Steps};
use kin_plain::keeps::Owned;
use kin_status::asked::is_before;
use std::alloc::Global;
use std::cmp::Ordering;
use std::sync::ledger::Ledger;

/// What comes first of facts and legs.
#[derive(Clone, Copy, Debug)]
pub enum Event {
    /// Facts fail then. No leg begins sooner.
    Failure(Moment),
    /// A leg begins then. Nothing fails up to there.
    Leg(Moment),
    /// Neither comes.
    Nothing,
}

/// A whole number as a moment.
fn whole_moment(number: u32) -> Moment
    requires { number < 2 ^ 31 }
    ensures { result ≡ just_at (whole number) }
{
    Moment {
        at: whole(number),
        phase: Phase::At,
    }
}

/// The sooner one of a failure and the beginning of a leg. Where they come together, it is the failure.
fn first_of(fails: Option<Moment>, begins: Option<u32>) -> Event
    requires { IfSome begins (λ number. number < 2 ^ 31) }
    ensures { ComesFirst fails begins result }
{
    match (fails, begins) {
        (None, None) => Event::Nothing,
        (Some(moment), None) => Event::Failure(moment),
        (None, Some(number)) => Event::Leg(whole_moment(number)),
        (Some(moment), Some(number)) => {
            if is_before(&whole(number), &moment) {
                Event::Leg(whole_moment(number))
            } else {
                Event::Failure(moment)
            }
        }
    }
}

/// What comes first after a moment at which all these facts hold.
pub fn first_event<L: Ledger>(
    alloc: Global,
    state: &State,
    facts: &[Owned],
    from: &Moment,
    steps: &mut Steps<L>,
) -> Result<Event, NoMemory>
    requires sound { IsSound state.now }
    requires askable { All (λ c. IsAskable (live_of (motions_in_force state.now.plans from.now)) c.placed.fact.form) facts.now }
    requires hold { All (λ c. HoldsAt (plans_scene state.now.plans) from.now c.placed.fact) facts.now }
    ensures { IfOk result (IsFirst state.now.plans from.now facts.now) }
{
    from.at.recall_canonical();
    let sight = sight_at(alloc, state, from)?;
    let fails = least_failure(facts, &sight.motions, from, steps);
    Ok(first_of(fails, state.soonest(from)))
}

/// Whether a moment is past the last one.
fn is_past<L: Ledger>(moment: &Moment, last: &Moment, steps: &mut Steps<L>) -> bool
    ensures { IsTrue result ↔ IsEarlier last.now moment.now }
{
    compare_moments(last, moment, steps) == Ordering::Less
}

/// What has come by the last moment, or else nothing.
fn by_last<L: Ledger>(event: &Event, last: &Moment, steps: &mut Steps<L>) -> Event
    requires { IsCanonical last.now.at }
    ensures { ComesBy last.now event.now result }
{
    match *event {
        Event::Failure(moment) => {
            if is_past(&moment, last, steps) {
                return Event::Nothing;
            }
        }
        Event::Leg(moment) => {
            if is_past(&moment, last, steps) {
                return Event::Nothing;
            }
        }
        Event::Nothing => {}
    }
    *event
}

/// What comes first after a moment at which all these facts hold, and by the last one.
pub fn first_event_by<L: Ledger>(
    alloc: Global,
    state: &State,
    facts: &[Owned],
    from: &Moment,
    last: &Moment,
    steps: &mut Steps<L>,
) -> Result<Event, NoMemory>
    requires sound { IsSound state.now }
    requires askable { All (λ c. IsAskable (live_of (motions_in_force state.now.plans from.now)) c.placed.fact.form) facts.now }
    requires hold { All (λ c. HoldsAt (plans_scene state.now.plans) from.now c.placed.fact) facts.now }
    requires canonical { IsCanonical last.now.at }
    requires in_time { ¬ (IsEarlier last.now from.now) }
    ensures { IfOk result (IsFirstBy state.now.plans from.now last.now facts.now) }
{
    from.at.recall_canonical();
    let event = first_event(alloc, state, facts, from, steps)?;
    Ok(by_last(&event, last, steps))
}
