//! What the slots of the tournament get.

ghost use Rattle.std.specs.Prelude.{◌≡◌, ◌<◌, ◌^◌, ◌↔◌, length, Contains, IsTrue};
ghost use Rattle.kin_motion.specs.ClosestPairs.{Near};
ghost use Rattle.kin_motion.specs.Tournaments.{item_in};
ghost use Rattle.kin_diameter.specs.Seats.{AreTold, AreWithin, IsTold};

use kin_pairs::{Farness, Pair};
use kin_tourney::Tourney;

/// Whether both are the same pair in the same slot, or none.
fn is_same(one: &Option<Pair>, other: &Option<Pair>) -> bool
    ensures { IsTrue result ↔ (one.now ≡ other.now) }
{
    match (one, other) {
        (Some(one), Some(other)) => one.is(other),
        (None, None) => true,
        _ => false,
    }
}

/// Gives a slot this pair, or none, and marks it, unless it holds that already.
fn tell(tourney: &mut Tourney<Farness>, slot: u32, pair: Option<Pair>)
    requires { slot < 2 ^ tourney.old.size }
    ensures { IsTold slot pair tourney.old tourney.new }
{
    if is_same(&tourney.item(slot), &pair) {
        return;
    }
    match pair {
        Some(pair) => tourney.set(slot, pair),
        None => tourney.clear(slot),
    }
}

/// Gives the slots of these cells what is in their places.
pub(crate) fn tell_each(tourney: &mut Tourney<Farness>, cells: &[Pair], places: &[Option<Pair>])
    requires slots_room { length tourney.old.slots ≡ 2 ^ tourney.old.size }
    requires marks_room { length tourney.old.marked ≡ 2 ^ tourney.old.size }
    requires places_room { length places.now ≡ 2 ^ tourney.old.size }
    requires within { AreWithin (2 ^ tourney.old.size) cells.now }
    ensures told { AreTold (item_in places.now) tourney.old tourney.new }
    ensures held { (n : Near) → Contains cells.now n → item_in tourney.new.slots n.slot ≡ item_in places.now n.slot }
{
    for cell in cells {
        let slot = cell.slot();
        tell(tourney, slot, places[slot as usize]);
    }
}
