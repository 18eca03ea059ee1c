//! What a tournament compares.

ghost use Rattle.std.specs.Prelude.{◌≡◌, ◌≢◌, ℕ, true, false, not, List, Option, Some, None};
ghost use Rattle.kin_motion.specs.declared.fact.Fact.{Fact as FactOf};
ghost use Rattle.kin_motion.specs.Forms.{IsAskable};
ghost use Rattle.kin_motion.specs.Scene.{Scene, IsReal};
ghost use Rattle.kin_motion.specs.Tournaments.{Key, beats};
ghost use Rattle.kin_tourney.specs.Names.{AreLive};

use kin_motion::fact::Fact;
use kin_motion::form::Form;
use kin_num::Sign;

/// How two items are compared: by which form, and which of them wins at its sign. Item a beats
/// item b where the left one wins with a as the left one and b as the right one.
pub trait Keyed: Drop {
    type Item: Copy;

    /// The fact of two items, or none, in few bytes.
    type Brief: Copy;

    /// The numbers that an item names.
    ghost names: { Self.Item → List ℕ };

    /// How two items are compared.
    ghost key: { Self → Key Self.Item };

    /// The fact that is written in brief.
    ghost fact_of: { Self.Brief → Option FactOf };

    /// The form that is asked for two items.
    fn form(&self, left: &Self::Item, right: &Self::Item) -> Form
        ensures { result ≡ (key self.now).form left.now right.now };

    /// Whether the left item wins where their form has this sign.
    fn left_wins(&self, sign: Sign, left: &Self::Item, right: &Self::Item) -> bool
        ensures { result ≡ (key self.now).left_wins sign left.now right.now };

    /// No fact.
    fn no_fact() -> Self::Brief
        ensures { fact_of result ≡ None };

    /// The fact of two items where their form has this sign.
    fn brief(&self, sign: Sign, left: &Self::Item, right: &Self::Item) -> Self::Brief
        ensures { fact_of result ≡ Some (record { form = (key self.now).form left.now right.now; sign = sign }) };

    /// The fact in full.
    fn fact(brief: &Self::Brief) -> Option<Fact>
        ensures { result ≡ fact_of brief.now };

    /// Whether both are the same fact. Usually the sign differs.
    fn is_same(one: &Self::Brief, other: &Self::Brief) -> bool
        ensures same { result ≡ true → fact_of one.now ≡ fact_of other.now }
        ensures differ { result ≡ false → (f : FactOf) → fact_of one.now ≡ Some f → fact_of other.now ≢ Some f };

    /// The form names the items' numbers alone, and keeps the bounds.
    ghost askable: { (k : Self) (live : List ℕ) (x y : Self.Item) → AreLive live (names x) → AreLive live (names y) → IsAskable live ((key k).form x y) };

    /// In a real scene, of two different items that name live numbers exactly one beats the other.
    ghost total: { (k : Self) (s : Scene) (x y : Self.Item) → IsReal s → AreLive s.live (names x) → AreLive s.live (names y) → x ≢ y → beats s (key k) y x ≡ not (beats s (key k) x y) };

    /// In a real scene, over items that name live numbers, "beats" is transitive.
    ghost transitive: { (k : Self) (s : Scene) (x y z : Self.Item) → IsReal s → AreLive s.live (names x) → AreLive s.live (names y) → AreLive s.live (names z) →
        beats s (key k) x y ≡ true → beats s (key k) y z ≡ true → beats s (key k) x z ≡ true };
}
