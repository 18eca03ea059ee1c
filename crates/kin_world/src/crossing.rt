//! Legs that begin as time goes on.
//!
//! At the instant at which a leg begins each point is where it was, so no sign changes: no structure is touched, and
//! only the failure moments of the facts that name the leg's point are computed anew.

ghost use Rattle.std.specs.Prelude.{◌≡◌, ◌∷◌, ◌+◌, ◌<◌, ◌≤◌, ◌^◌, ℕ, List, IfOk, OnOk, OnErr, Contains, IsTrue, IsFalse, MatchOption, length, ◌↔◌};
ghost use Rattle.kin_num.specs.Canonical.{IsCanonical};
ghost use Rattle.kin_num.specs.Order.{IsEarlier};
ghost use Rattle.kin_legs.specs.declared.leg.Leg.{Leg as Planned};
ghost use Rattle.kin_legs.specs.Joined.{AreAhead, begins_at, piece_of};
ghost use Rattle.kin_legs.specs.Paths.{IsFair};
ghost use Rattle.kin_cert.specs.Taken.{NoneWaits, NoneFailsUntil};
ghost use Rattle.kin_world.specs.Crossing.{Flight, flight_of, seen, IsReady, IsNextStop, HasCrossed, HasCrossedTo};
ghost use Rattle.kin_world.specs.Upkeep.{IsDueWithin};
ghost use Rattle.kin_world.specs.Worlds.{BeginsWithin};

use crate::planning::whole_moment;
use crate::upkeep::Upkeep;
use crate::upkeep::leap::is_after;
use kin_legs::{Leg, Legs};
use kin_num::{Moment, NoMemory, Steps};
use std::sync::ledger::Ledger;

/// The moment at which a leg begins.
pub fn beginning(leg: &Leg) -> Moment
    requires soon { leg.now.at < 2 ^ 31 }
    ensures { result ≡ begins_at leg.now }
{
    whole_moment(leg.at)
}

// Whether a leg begins at the moment.
fn begins(leg: &Leg, moment: &Moment) -> bool
    requires soon { leg.now.at < 2 ^ 31 }
    ensures { IsTrue result ↔ (moment.now ≡ begins_at leg.now) }
{
    *moment == beginning(leg)
}

/// Where the first leg begins, or the limit where that is earlier or there is no leg.
#[inline(always)]
pub fn next_stop<L: Ledger>(legs: &Legs, limit: &Moment, steps: &mut Steps<L>) -> Moment
    requires fair { (l : Planned) → Contains legs.now.legs l → IsFair (piece_of l) }
    requires canonical { IsCanonical limit.now.at }
    ensures value { IsNextStop limit.now legs.now.legs result }
    ensures count { steps.new ≤ steps.old + 1 }
{
    legs.recall_rising();
    let Some(leg) = legs.first() else {
        return *limit;
    };
    let begins = beginning(&leg);
    if is_after(&begins, limit, steps) {
        *limit
    } else {
        begins
    }
}

// The least failure moment, or `None` where nothing fails at the limit or before it.
#[inline(always)]
fn due_within<L: Ledger>(upkeep: &Upkeep, limit: &Moment, steps: &mut Steps<L>) -> Option<Moment>
    requires { NoneWaits upkeep.now.table.live }
    ensures value { MatchOption result (NoneFailsUntil upkeep.now.table.live limit.now) (IsDueWithin limit.now upkeep.now.table.live) }
    ensures count { steps.new ≤ steps.old + 1 }
{
    let Some(moment) = upkeep.table.failing() else {
        return None;
    };
    if is_after(&moment, limit, steps) {
        None
    } else {
        Some(moment)
    }
}

// Begins the first leg, which begins now.
fn begin_first<L: Ledger>(
    upkeep: &mut Upkeep,
    legs: &mut Legs,
    leg: &Leg,
    steps: &mut Steps<L>,
) -> Result<(), NoMemory>
    requires ready { IsReady (flight_of upkeep.old legs.old steps.old) }
    requires begins { upkeep.old.moment ≡ begins_at leg.now }
    requires first { (rest : List Planned) × (legs.old.legs ≡ leg.now ∷ rest) }
    ensures begun { OnOk result ((more : ℕ) (start : Flight) → HasCrossed more start (flight_of upkeep.old legs.old steps.old) → HasCrossed more start (flight_of upkeep.new legs.new steps.new)) }
    ensures moment { OnOk result (upkeep.new.moment ≡ upkeep.old.moment) }
    ensures shorter { length legs.old.legs ≡ length legs.new.legs + 1 }
    ensures fewer { (l : Planned) → Contains legs.new.legs l → Contains legs.old.legs l }
    ensures keeps { upkeep.new.keeps ≡ upkeep.old.keeps }
{
    let _ = legs.take_first();
    upkeep.take_up(leg.no, leg.m, steps)
}

/// Begins the legs whose moment is now; answers whether there is one. In line, since usually there is none.
#[inline(always)]
pub fn begin_due<L: Ledger>(
    upkeep: &mut Upkeep,
    legs: &mut Legs,
    steps: &mut Steps<L>,
) -> Result<bool, NoMemory>
    requires ready { IsReady (flight_of upkeep.old legs.old steps.old) }
    ensures begun { OnOk result ((more : ℕ) (start : Flight) → HasCrossed more start (flight_of upkeep.old legs.old steps.old) → HasCrossed more start (flight_of upkeep.new legs.new steps.new)) }
    ensures moment { OnOk result (upkeep.new.moment ≡ upkeep.old.moment) }
    ensures fewer { OnOk result (length legs.new.legs ≤ length legs.old.legs) }
    ensures ahead { OnOk result (AreAhead upkeep.new.moment legs.new.legs) }
    ensures some { IfOk result (λ some. IsTrue some → length legs.new.legs < length legs.old.legs) }
    ensures none { IfOk result (λ some. IsFalse some → legs.new ≡ legs.old) }
    ensures keeps { upkeep.new.keeps ≡ upkeep.old.keeps }
    ensures cause { OnErr result ((l : Planned) × Contains legs.old.legs l × (upkeep.old.moment ≡ begins_at l)) }
{
    let mut some = false;
    while let Some(leg) = legs.first() {
        if begins(&leg, &upkeep.moment) {
            begin_first(upkeep, legs, &leg, steps)?;
            some = true;
        } else {
            return Ok(some);
        }
    }
    Ok(some)
}

/// Moves on as far as nothing fails: from leg to leg, and to the limit. Answers the moment at which a live fact fails,
/// which isn't after the limit or the beginning of the next leg, or `None` at the limit. In line, since moments are long
/// to hand on.
#[inline(always)]
pub fn cross<L: Ledger>(
    upkeep: &mut Upkeep,
    legs: &mut Legs,
    limit: &Moment,
    steps: &mut Steps<L>,
) -> Result<Option<Moment>, NoMemory>
    requires ready { IsReady (flight_of upkeep.old legs.old steps.old) }
    requires ahead { AreAhead upkeep.old.moment legs.old.legs }
    requires canonical { IsCanonical limit.now.at }
    requires later { ¬ (IsEarlier limit.now upkeep.old.moment) }
    ensures crossed { IfOk result (λ due. HasCrossedTo limit.now due (flight_of upkeep.old legs.old steps.old) (flight_of upkeep.new legs.new steps.new)) }
    ensures keeps { upkeep.new.keeps ≡ upkeep.old.keeps }
    ensures cause { OnErr result (BeginsWithin limit.now (seen (flight_of upkeep.old legs.old steps.old))) }
{
    loop {
        let stop = next_stop(legs, limit, steps);
        if let Some(due) = due_within(upkeep, &stop, steps) {
            return Ok(Some(due));
        }
        upkeep.moment = stop;
        let some = begin_due(upkeep, legs, steps)?;
        if !some {
            return Ok(None);
        }
    }
}
