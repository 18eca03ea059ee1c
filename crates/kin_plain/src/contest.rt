//! The best of some items.

ghost use Rattle.std.specs.Prelude.{◌≡◌, ℕ, List, IfSome};
ghost use Rattle.std.specs.List.{All};
ghost use Rattle.kin_motion.specs.Forms.{IsAskable};
ghost use Rattle.kin_motion.specs.Tournaments.{Key, beats, better_of, best_of};

use kin_motion::form::Form;
use kin_motion::signs::Signs;
use kin_num::Sign;
use kin_num::steps::Steps;
use std::sync::ledger::Ledger;

/// How two items are compared: by which form, and whether the left one wins at its sign.
pub trait Contest {
    type Item: Copy;

    /// How two items are compared.
    ghost key: { Self → Key Self.Item };

    /// The item may be compared where these numbers are live.
    ghost may: { Self → List ℕ → Self.Item → Type 0 };

    /// The form that is asked for two items.
    fn form(&self, left: &Self::Item, right: &Self::Item) -> Form
        ensures { result ≡ (key self.now).form left.now right.now };

    /// Whether the left item wins where their form has this sign.
    fn left_wins(&self, sign: Sign, left: &Self::Item, right: &Self::Item) -> bool
        ensures { result ≡ (key self.now).left_wins sign left.now right.now };

    /// The form of two items that may be compared may be asked.
    ghost askable: { (k : Self) (live : List ℕ) (x y : Self.Item) → may k live x → may k live y → IsAskable live ((key k).form x y) };
}

/// Whether one item beats another.
fn beats<K: Contest, O: Signs, L: Ledger>(
    contest: &K,
    now: &O,
    one: &K::Item,
    other: &K::Item,
    steps: &mut Steps<L>,
) -> bool
    requires one { K.may contest.now (O.scene now.now).live one.now }
    requires other { K.may contest.now (O.scene now.now).live other.now }
    ensures { result ≡ beats (O.scene now.now) (K.key contest.now) one.now other.now }
{
    let sign = now.sign(&contest.form(one, other), steps);
    contest.left_wins(sign, one, other)
}

/// The better one of an item and the best of others.
pub fn better_of<K: Contest, O: Signs, L: Ledger>(
    contest: &K,
    now: &O,
    one: K::Item,
    best: Option<K::Item>,
    steps: &mut Steps<L>,
) -> Option<K::Item>
    requires one { K.may contest.now (O.scene now.now).live one }
    requires best { IfSome best (K.may contest.now (O.scene now.now).live) }
    ensures value { result ≡ better_of (O.scene now.now) (K.key contest.now) one best }
    ensures may { IfSome result (K.may contest.now (O.scene now.now).live) }
{
    match best {
        None => Some(one),
        Some(other) => {
            if beats(contest, now, &one, &other, steps) {
                Some(one)
            } else {
                Some(other)
            }
        }
    }
}

/// The best of these items, or none where there is no item.
pub fn best_of<K: Contest, O: Signs, L: Ledger>(
    contest: &K,
    now: &O,
    items: &[K::Item],
    steps: &mut Steps<L>,
) -> Option<K::Item>
    requires { All (K.may contest.now (O.scene now.now).live) items.now }
    ensures { result ≡ best_of (O.scene now.now) (K.key contest.now) items.now }
{
    let mut best = None;
    let mut left = items.len();
    while left > 0 {
        left -= 1;
        best = better_of(contest, now, items[left], best, steps);
    }
    best
}
