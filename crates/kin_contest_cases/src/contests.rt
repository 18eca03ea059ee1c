//! Points that meet, in a kinetic tournament.

ghost use Rattle.std.specs.Prelude.{◌≡◌, ◌≤◌, ◌<◌};

use kin_cases::contest::Contest;
use kin_cases::fault::Fault;
use kin_cases::moments::{after, at};
use kin_cases::watch::{Callers, Tally};
use kin_cases::written::motions;
use kin_num::Steps;
use std::alloc::Global;
use std::marker::Brand;
use std::sync::ledger::{Blank, Ledger};
use std::test::Fail;

/// What is done to a tournament.
#[derive(Clone, Copy)]
enum Deed {
    /// A slot gets a point.
    Set(u32, u32),
    /// A slot is emptied.
    Clear(u32),
    /// It is settled at a second.
    At(u16),
    /// It is settled just after a second.
    After(u16),
}

use Deed::{After, At, Clear, Set};

/// The winners of the root and of its halves after each settle, and how often a sign was asked for
/// them: in all, and with the caller's counter.
#[derive(Drop)]
struct Seen {
    winners: Vec<[Option<u32>; 3]>,
    asked: Vec<(u64, u64)>,
}

impl Seen {
    fn note(&mut self, contest: &Contest, tally: &Tally) -> Result<(), Fault> {
        let winners = [contest.winner(1), contest.winner(2), contest.winner(3)];
        self.winners.push(winners).map_err(|_| Fault::NoMemory)?;
        self.asked.push(tally.take()).map_err(|_| Fault::NoMemory)?;
        Ok(())
    }
}

fn carry_out<L: Ledger>(
    contest: Contest,
    deed: Deed,
    tally: &Tally,
    steps: &mut Steps<L>,
) -> Result<Contest, Fault> {
    match deed {
        Set(slot, item) => contest.set(slot, item),
        Clear(slot) => contest.clear(slot),
        At(second) => contest.go(&at(i64::from(second)), tally, steps),
        After(second) => contest.go(&after(i64::from(second)), tally, steps),
    }
}

/// What is seen after each settle.
fn play<L: Ledger>(
    alloc: Global,
    contest: Contest,
    deeds: &[Deed],
    blank: Blank,
) -> Result<Seen, Fault>
    requires name { blank.name ≡ L.name }
    requires parts { blank.parts ≡ L.parts }
    requires some { 0 < L.parts }
{
    let mut steps = Steps::<Callers<L>>::open(blank);
    let tally = Tally::new();
    let mut contest = contest;
    let mut seen = Seen {
        winners: Vec::new(alloc),
        asked: Vec::new(alloc),
    };
    for deed in deeds {
        contest = carry_out(contest, *deed, &tally, &mut steps)?;
        if let At(_) | After(_) = *deed {
            seen.note(&contest, &tally)?;
        }
    }
    Ok(seen)
}

/// The same for points that are written, with a counter that is made here.
fn played(alloc: Global, points: &str, size: u32, deeds: &[Deed]) -> Result<Seen, Fault>
    requires low { 1 ≤ size }
    requires high { size ≤ 15 }
{
    let (motions, _) = motions(alloc, points)?;
    let contest = Contest::new(alloc, motions, size)?;
    play::<Brand>(alloc, contest, deeds, Blank::new(1))
}

/// Two points that meet at 5.
const TWO_POINTS: &str = "0 0 1 0, 10 0 -1 0";

/// Two points that meet, seen at 4, 5 and 6, and without both at 7.
fn two_meet(alloc: Global) -> Result<Seen, Fault> {
    let deeds = [
        Set(0, 0),
        Set(1, 1),
        At(4),
        At(5),
        At(6),
        Clear(0),
        Clear(1),
        At(7),
    ];
    played(alloc, TWO_POINTS, 1, &deeds)
}

#[test]
fn the_farther_of_two_points_wins_and_at_a_tie_the_lesser_number(
    rt: HostRuntime,
) -> Result<(), Fail> {
    let winners = [
        [Some(1), Some(0), Some(1)],
        [Some(0), Some(0), Some(1)],
        [Some(0), Some(0), Some(1)],
        [None, None, None],
    ];
    let seen = two_meet(rt.alloc())?;
    assert_eq!(rt; seen.winners.as_slice(), winners.as_slice());
    Ok(())
}

#[test]
fn a_tournament_asks_with_the_callers_counter_alone(rt: HostRuntime) -> Result<(), Fail> {
    let seen = two_meet(rt.alloc())?;
    assert_eq!(rt; seen.asked.len(), 4);
    for (turn, (all, counted)) in seen.asked.iter().enumerate() {
        assert_eq!(rt; *all >= 1, turn < 3, "{turn}");
        assert_eq!(rt; all, counted);
    }
    Ok(())
}

/// Other points first and then their own, and slots that are cleared and filled, before one settle.
#[test]
fn of_several_marks_of_a_slot_the_last_one_counts(rt: HostRuntime) -> Result<(), Fail> {
    let deeds = [
        Set(0, 1),
        Clear(0),
        Set(0, 0),
        Set(1, 1),
        Set(1, 1),
        At(4),
        Clear(0),
        Clear(1),
        Set(0, 1),
        Set(1, 0),
        At(4),
        Set(1, 0),
        Clear(1),
        At(6),
    ];
    let seen = played(rt.alloc(), TWO_POINTS, 1, &deeds)?;
    let winners = [
        [Some(1), Some(0), Some(1)],
        [Some(1), Some(1), Some(0)],
        [Some(1), Some(1), None],
    ];
    assert_eq!(rt; seen.winners.as_slice(), winners.as_slice());
    Ok(())
}

/// Five points far apart among 32,768 slots that meet at 10, where each is at 30, seen at 0, at 10
/// and just after it.
#[test]
fn five_points_meet_in_the_largest_tournament(rt: HostRuntime) -> Result<(), Fail> {
    let points = "0 0 3 0, 10 0 2 0, 20 0 1 0, 30 0 0 0, -10 0 4 0";
    let deeds = [
        Set(32_767, 0),
        Set(0, 1),
        Set(16_383, 2),
        Set(16_384, 3),
        Set(1, 4),
        At(0),
        At(10),
        After(10),
    ];
    let seen = played(rt.alloc(), points, 15, &deeds)?;
    let winners = [
        [Some(3), Some(2), Some(3)],
        [Some(0), Some(1), Some(0)],
        [Some(4), Some(4), Some(0)],
    ];
    assert_eq!(rt; seen.winners.as_slice(), winners.as_slice());
    Ok(())
}
