//! Pairs of points.

ghost use Rattle.std.specs.Prelude.{◌≡◌, ◌++◌, option_map, IfOk, OnOk};
ghost use Rattle.std.specs.List.{All};
ghost use Rattle.kin_motion.specs.declared.form.Form.TheVariants.{Dist};
ghost use Rattle.kin_motion.specs.ClosestFacts.{near};
ghost use Rattle.kin_motion.specs.ClosestPairs.{is_less_pair, pair_in, pairs_of, pairs_with};

use crate::lists::put;
use kin_motion::form::Form;
use kin_num::memory::NoMemory;
use std::alloc::Global;
use std::marker::Model;

/// Two points in a slot, the lesser number first.
#[derive(Clone, Copy, Debug, PartialEq, Eq, Drop)]
pub struct Pair {
    i: u32,
    j: u32,
    slot: u32,
}

impl Model for Pair {
    ghost use Rattle.kin_motion.specs.ClosestPairs.{Near};

    ghost Value = { Near };

    ghost view = { λ p. record { i = p.i; j = p.j; slot = p.slot } };

    ghost inverse = { λ n. record { i = n.i; j = n.j; slot = n.slot } };
}

impl Pair {
    /// Two points in this order.
    fn new(slot: u32, i: u32, j: u32) -> Pair
        ensures { result ≡ record { i = i; j = j; slot = slot } }
    {
        Pair { i, j, slot }
    }

    /// A point and its candidate, the lesser number first.
    pub fn near(slot: u32, p: u32, c: u32) -> Pair
        ensures { result ≡ near slot p c }
    {
        Pair {
            i: p.min(c),
            j: p.max(c),
            slot,
        }
    }

    /// The two points.
    pub fn points(&self) -> (u32, u32)
        ensures { result ≡ (self.now.i, self.now.j) }
    {
        (self.i, self.j)
    }

    /// The form that compares the distances of two pairs.
    pub fn distance(&self, other: &Pair) -> Form
        ensures { result ≡ Dist self.now.i self.now.j other.now.i other.now.j }
    {
        Form::Dist {
            i: self.i,
            j: self.j,
            k: other.i,
            l: other.j,
        }
    }

    /// Its slot.
    pub fn slot(&self) -> u32
        ensures { result ≡ self.now.slot }
    {
        self.slot
    }

    /// Whether it is less by the first number, then by the second, then by the slot.
    pub fn is_less(&self, other: &Pair) -> bool
        ensures { result ≡ is_less_pair self.now other.now }
    {
        self.i < other.i
            || (self.i == other.i
                && (self.j < other.j || (self.j == other.j && self.slot < other.slot)))
    }
}

/// Puts the pairs of `i` with each of the numbers after it at the end.
fn put_pairs_with(i: u32, after: &[u32], pairs: &mut Vec<Pair>) -> Result<(), NoMemory>
    ensures { OnOk result (pairs.new.items ≡ pairs.old.items ++ pairs_with i after.now) }
{
    for j in after {
        put(pairs, Pair::new(0, i, *j))?;
    }
    Ok(())
}

/// All pairs of a rising list.
pub fn pairs_of(alloc: Global, list: &[u32]) -> Result<Vec<Pair>, NoMemory>
    ensures { IfOk result (λ pairs. pairs.items ≡ pairs_of list.now) }
{
    let mut pairs = Vec::new(alloc);
    for place in 0..list.len() {
        put_pairs_with(list[place], &list[place + 1..], &mut pairs)?;
    }
    Ok(pairs)
}

/// The two numbers of a pair.
pub fn pair_in(pair: Option<Pair>) -> Option<(u32, u32)>
    ensures { result ≡ pair_in pair }
{
    match pair {
        None => None,
        Some(pair) => Some(pair.points()),
    }
}
