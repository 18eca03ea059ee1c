//! What a sorted list keeps in order.

ghost use Rattle.std.specs.Prelude.{◌≡◌, ℕ, ◌<◌, ◌^◌, Some};
ghost use Rattle.kin_motion.specs.Rankings.{IsRanking};
ghost use Rattle.kin_motion.specs.Ranks.{Ranks};

use kin_motion::fact::Placed;
use kin_motion::form::Form;
use kin_num::Sign;

/// Items that are in a strict total order at each moment. Of two items a form has a sign, and the sign
/// says which of them comes first. An item is named by its slot, a number of its own, so that what
/// belongs to it is found without a map.
pub trait Ranked: Drop {
    type Item: Copy;

    /// How the items are ranked, each named by its slot.
    ghost ranks: { Self → Ranks };

    /// The slot of an item.
    ghost slot_of: { Self → Self.Item → ℕ };

    /// How many slots there are.
    fn slots(&self) -> usize
        ensures { result ≡ (ranks self.now).slots };

    /// The slot of an item.
    fn slot(&self, item: Self::Item) -> u32
        requires { slot_of self.now item < (ranks self.now).slots }
        ensures { result ≡ slot_of self.now item };

    /// The item of a slot. No other item has the slot.
    fn item(&self, slot: u32) -> Self::Item
        ensures slot { slot_of self.now result ≡ slot }
        ensures one { (x : Self.Item) → slot_of self.now x ≡ slot → result ≡ x };

    /// The part of the fact of two neighbours.
    fn part(&self, left: Self::Item, right: Self::Item) -> u32
        ensures { result ≡ (ranks self.now).part (slot_of self.now left) (slot_of self.now right) };

    /// The form of the fact of two neighbours.
    fn form(&self, left: Self::Item, right: Self::Item) -> Form
        ensures { result ≡ (ranks self.now).form (slot_of self.now left) (slot_of self.now right) };

    /// Whether the left item comes first where their form has this sign.
    fn leads(&self, sign: Sign, left: Self::Item, right: Self::Item) -> bool
        ensures { result ≡ (ranks self.now).leads sign (slot_of self.now left) (slot_of self.now right) };

    /// The slot of the left one of two neighbours, from their fact. It may be any number where no neighbours
    /// have the fact.
    fn left(&self, placed: &Placed) -> Option<u32>
        ensures { (i j : ℕ) → i < 2 ^ 15 → placed.now.part ≡ (ranks self.now).part i j → placed.now.fact.form ≡ (ranks self.now).form i j
            → result ≡ Some i };

    /// At each moment the items that name live numbers are in a strict total order, and the part and the
    /// form of two neighbours name them.
    ghost law: { (k : Self) → IsRanking (ranks k) };
}
