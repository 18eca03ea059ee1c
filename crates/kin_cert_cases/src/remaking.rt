//! Which fact a table gives out as it fails, and how failure moments are made anew as points turn.

ghost use Rattle.std.specs.Prelude.{◌≡◌, ◌<◌};
ghost use Rattle.kin_cert_cases.specs.Listed.{AreListed};

use crate::trial::{Seats, Trial, line};
use kin_fail::Owned;
use kin_motion::form::Form;
use kin_motion::motion::{Motion, Motions};
use kin_num::{NoMemory, Sign};
use std::alloc::Global;
use std::marker::Brand;
use std::sync::ledger::{Blank, Ledger};
use std::test::Fail;

/// Whether the fact that the second point is to the right of the first fails at 5, and is then given
/// out alone.
fn fails_at_five<L: Ledger>(trial: &mut Trial<L>, motions: &Motions) -> Result<bool, NoMemory>
    requires { AreListed trial.old.table.live trial.old.facts.items }
{
    trial.bear(line(0, 1), motions, 0)?;
    let is_alone = trial.live() == 1 && trial.is_next(5, 1);
    let taken = trial.take()?;
    Ok(is_alone && is_the_fact(&taken))
}

fn is_the_fact(taken: &[Owned]) -> bool {
    match taken {
        [one] => one.structure == 0 && one.part == 0 && one.fact.sign == Sign::Plus,
        _ => false,
    }
}

/// A fact fails at 5, and still does after it was made anew for its first point, whose motion is as it was.
fn is_made_anew<L: Ledger>(trial: &mut Trial<L>, motions: &Motions) -> Result<bool, NoMemory>
    requires { AreListed trial.old.table.live trial.old.facts.items }
{
    trial.bear(line(0, 1), motions, 0)?;
    let first = trial.is_next(5, 1);
    trial.turn(0, motions, 0)?;
    Ok(first && trial.live() == 1 && trial.is_next(5, 2))
}

/// Of two facts one fails at 10 and one at 30. Where point 1 stops at 4, the first never does, and the
/// second, which doesn't name it, stays. No fact names point 3.
fn stops<L: Ledger>(
    trial: &mut Trial<L>,
    before: &Motions,
    after: &Motions,
) -> Result<bool, NoMemory>
    requires { AreListed trial.old.table.live trial.old.facts.items }
{
    trial.bear(line(0, 1), before, 0)?;
    trial.bear(line(0, 2), before, 0)?;
    let first = trial.is_next(10, 2);
    trial.turn(1, after, 4)?;
    trial.turn(3, after, 4)?;
    Ok(first && trial.is_next(30, 3))
}

/// A fact names point 1 twice and fails at 30. Where that stops at 4, it fails at 18.
fn is_named_twice<L: Ledger>(
    trial: &mut Trial<L>,
    before: &Motions,
    after: &Motions,
) -> Result<bool, NoMemory>
    requires { AreListed trial.old.table.live trial.old.facts.items }
{
    let form = Form::Dist {
        i: 0,
        j: 1,
        k: 1,
        l: 2,
    };
    trial.bear(form, before, 0)?;
    let first = trial.is_next(30, 1);
    trial.turn(1, after, 4)?;
    Ok(first && trial.is_next(18, 2))
}

/// A fact is born after another one was made anew, which fails at 24, and never fails. Where point 3
/// turns at 4, it fails at 18.
fn turns_late<L: Ledger>(
    trial: &mut Trial<L>,
    before: &Motions,
    after: &Motions,
) -> Result<bool, NoMemory>
    requires { AreListed trial.old.table.live trial.old.facts.items }
{
    trial.bear(line(1, 2), before, 4)?;
    trial.turn(1, before, 4)?;
    let first = trial.is_next(24, 2);
    trial.bear(line(1, 3), before, 4)?;
    trial.turn(3, after, 4)?;
    Ok(first && trial.is_next(18, 4))
}

/// Three facts are live, of which two have one first number, and each is found. A fourth one isn't there.
fn are_found<L: Ledger>(trial: &mut Trial<L>, motions: &Motions) -> Result<bool, NoMemory>
    requires { AreListed trial.old.table.live trial.old.facts.items }
{
    trial.bear(line(0, 1), motions, 0)?;
    trial.bear(line(0, 2), motions, 0)?;
    trial.bear(line(3, 1), motions, 0)?;
    let are_there = trial.has(&line(0, 1)) && trial.has(&line(0, 2)) && trial.has(&line(3, 1));
    Ok(are_there && trial.live() == 3 && !trial.has(&line(0, 3)))
}

/// What is shown of a table.
#[derive(Clone, Copy)]
enum Case {
    FailsAtFive,
    IsMadeAnew,
    Stops,
    IsNamedTwice,
    TurnsLate,
    AreFound,
}

/// Whether it holds of a table, under these motions and then those.
fn holds_of<L: Ledger>(
    case: Case,
    trial: &mut Trial<L>,
    before: &Motions,
    after: &Motions,
) -> Result<bool, NoMemory>
    requires { AreListed trial.old.table.live trial.old.facts.items }
{
    match case {
        Case::FailsAtFive => fails_at_five(trial, before),
        Case::IsMadeAnew => is_made_anew(trial, before),
        Case::Stops => stops(trial, before, after),
        Case::IsNamedTwice => is_named_twice(trial, before, after),
        Case::TurnsLate => turns_late(trial, before, after),
        Case::AreFound => are_found(trial, before),
    }
}

/// The same of a new table. It is dropped here alone, since each way to a drop is costly to prove.
fn is_shown<L: Ledger>(
    case: Case,
    alloc: Global,
    seats: Seats,
    before: &Motions,
    after: &Motions,
    blank: Blank,
) -> Result<bool, NoMemory>
    requires name { blank.name ≡ L.name }
    requires parts { blank.parts ≡ L.parts }
    requires some { 0 < L.parts }
{
    let mut trial = Trial::<L>::begin(alloc, seats, blank)?;
    holds_of(case, &mut trial, before, after)
}

/// Four points on the x axis: the first rests at 0, the third comes from 30 with the speed -1.
fn points(alloc: Global, second: Motion, fourth: Motion) -> Result<Motions, NoMemory> {
    let mut all = Motions::new(alloc, 2)?;
    all.set(0, Motion::new(0, 0, 0, 0));
    all.set(1, second);
    all.set(2, Motion::new(30, 0, -1, 0));
    all.set(3, fourth);
    Ok(all)
}

/// Two points on the x axis that come together at 5.
fn meeting(alloc: Global) -> Result<Motions, NoMemory> {
    let mut motions = Motions::new(alloc, 1)?;
    motions.set(0, Motion::new(0, 0, 1, 0));
    motions.set(1, Motion::new(10, 0, -1, 0));
    Ok(motions)
}

/// No plan, a plan in which no fact has a seat, one in which each first number has one, one in which only the number 0
/// has one, one in which all facts have the same, one in which two parts share their seats, and one in which they are facts
/// of merges.
fn plans() -> [Seats; 7] {
    [
        Seats::None,
        Seats::Planned {
            size: 2,
            lists: 0,
            nodes: 0,
        },
        Seats::Planned {
            size: 2,
            lists: 1,
            nodes: 0,
        },
        Seats::Planned {
            size: 0,
            lists: 1,
            nodes: 0,
        },
        Seats::Planned {
            size: 2,
            lists: 0,
            nodes: 1,
        },
        Seats::Pairs { size: 2, lists: 1 },
        Seats::Merges { size: 2, rows: 4 },
    ]
}

#[test]
fn a_table_gives_its_failing_fact(rt: HostRuntime) -> Result<(), Fail> {
    let motions = meeting(rt.alloc())?;
    for seats in plans() {
        let holds = is_shown::<Brand>(
            Case::FailsAtFive,
            rt.alloc(),
            seats,
            &motions,
            &motions,
            Blank::new(1),
        )?;
        assert!(rt; holds, "{seats:?}");
    }
    Ok(())
}

#[test]
fn a_point_goes_on_as_before(rt: HostRuntime) -> Result<(), Fail> {
    let motions = meeting(rt.alloc())?;
    for seats in plans() {
        let holds = is_shown::<Brand>(
            Case::IsMadeAnew,
            rt.alloc(),
            seats,
            &motions,
            &motions,
            Blank::new(1),
        )?;
        assert!(rt; holds, "{seats:?}");
    }
    Ok(())
}

#[test]
fn a_point_stops(rt: HostRuntime) -> Result<(), Fail> {
    let fourth = Motion::new(20, 0, 0, 0);
    let before = points(rt.alloc(), Motion::new(10, 0, -1, 0), fourth)?;
    let after = points(rt.alloc(), Motion::new(6, 0, 0, 0), fourth)?;
    for seats in plans() {
        let holds = is_shown::<Brand>(
            Case::Stops,
            rt.alloc(),
            seats,
            &before,
            &after,
            Blank::new(1),
        )?;
        assert!(rt; holds, "{seats:?}");
    }
    Ok(())
}

#[test]
fn a_fact_names_a_point_twice(rt: HostRuntime) -> Result<(), Fail> {
    let fourth = Motion::new(20, 0, 0, 0);
    let before = points(rt.alloc(), Motion::new(10, 0, -1, 0), fourth)?;
    let after = points(rt.alloc(), Motion::new(6, 0, 0, 0), fourth)?;
    for seats in plans() {
        let holds = is_shown::<Brand>(
            Case::IsNamedTwice,
            rt.alloc(),
            seats,
            &before,
            &after,
            Blank::new(1),
        )?;
        assert!(rt; holds, "{seats:?}");
    }
    Ok(())
}

#[test]
fn a_later_point_turns(rt: HostRuntime) -> Result<(), Fail> {
    let stopped = Motion::new(6, 0, 0, 0);
    let before = points(rt.alloc(), stopped, Motion::new(20, 0, 0, 0))?;
    let after = points(rt.alloc(), stopped, Motion::new(24, 0, -1, 0))?;
    for seats in plans() {
        let holds = is_shown::<Brand>(
            Case::TurnsLate,
            rt.alloc(),
            seats,
            &before,
            &after,
            Blank::new(1),
        )?;
        assert!(rt; holds, "{seats:?}");
    }
    Ok(())
}

#[test]
fn facts_of_one_seat_are_found(rt: HostRuntime) -> Result<(), Fail> {
    let motions = points(
        rt.alloc(),
        Motion::new(10, 0, -1, 0),
        Motion::new(20, 0, 0, 0),
    )?;
    for seats in plans() {
        let holds = is_shown::<Brand>(
            Case::AreFound,
            rt.alloc(),
            seats,
            &motions,
            &motions,
            Blank::new(1),
        )?;
        assert!(rt; holds, "{seats:?}");
    }
    Ok(())
}
