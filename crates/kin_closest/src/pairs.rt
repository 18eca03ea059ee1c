//! The tournament of the pairs of points and their candidates.

ghost use Rattle.std.specs.Prelude.{◌≡◌, ℕ, ◌+◌, ◌/◌, ◌^◌, ◌<◌, ◌≤◌, true, Some, IfSome, length, slice_get, slice_set};
ghost use Rattle.kin_motion.specs.ClosestFacts.{near_of};
ghost use Rattle.kin_wedge.specs.Wedging.{candidate_told};
ghost use Rattle.kin_closest.specs.Told.{AreLow, AreTold};

use kin_pairs::{Distance, Pair};
use kin_tourney::Tourney;
use kin_wedge::Wedges;

/// Gives a slot the pair of the candidate that it has now.
fn tell(pairs: &mut Tourney<Distance>, slot: u32, candidate: Option<u32>)
    requires slot { slot < 2 ^ pairs.old.size }
    requires short { slot < 2 ^ 15 }
    requires low { IfSome candidate (λ q. q < 2 ^ 12) }
    ensures { pairs.new ≡ record pairs.old { slots = slice_set pairs.old.slots slot (near_of slot (slot / 8) candidate); marked = slice_set pairs.old.marked slot true; winners = pairs.new.winners } }
{
    match candidate {
        Some(candidate) => pairs.set(slot, Pair::new(slot, slot / 8, candidate)),
        None => pairs.clear(slot),
    }
}

/// Gives these slots the pairs of their candidates.
fn tell_each(pairs: &mut Tourney<Distance>, wedges: &Wedges, slots: &[u32])
    requires size { pairs.old.size ≡ wedges.now.size + 3 }
    requires slots_room { length pairs.old.slots ≡ 2 ^ pairs.old.size }
    requires marks_room { length pairs.old.marked ≡ 2 ^ pairs.old.size }
    requires within { (k i : ℕ) → slice_get slots.now k ≡ Some i → i < 2 ^ (wedges.now.size + 3) }
    requires small { wedges.now.size ≤ 12 }
    requires low { AreLow wedges.now.size (candidate_told wedges.now) }
    ensures { AreTold (candidate_told wedges.now) slots.now (length slots.now) pairs.old pairs.new }
{
    for slot in slots {
        let slot = *slot;
        tell(pairs, slot, wedges.candidate(slot / 8, slot % 8));
    }
}

/// Gives the pairs of their candidates to all slots whose candidate the last settle has changed.
pub(crate) fn tell_all(pairs: &mut Tourney<Distance>, wedges: &Wedges, changed: &[u32])
    requires changed { changed.now ≡ wedges.now.changed }
    requires size { pairs.old.size ≡ wedges.now.size + 3 }
    requires slots_room { length pairs.old.slots ≡ 2 ^ pairs.old.size }
    requires marks_room { length pairs.old.marked ≡ 2 ^ pairs.old.size }
    requires within { (k i : ℕ) → slice_get wedges.now.changed k ≡ Some i → i < 2 ^ (wedges.now.size + 3) }
    requires small { wedges.now.size ≤ 12 }
    requires low { AreLow wedges.now.size (candidate_told wedges.now) }
    ensures { AreTold (candidate_told wedges.now) wedges.now.changed (length wedges.now.changed) pairs.old pairs.new }
{
    tell_each(pairs, wedges, changed);
}
