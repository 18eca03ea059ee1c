//! Pairs of points.

ghost use Rattle.std.specs.Prelude.{◌≡◌, ◌<◌, ◌^◌, ◌↔◌, Some, IsTrue};
ghost use Rattle.kin_motion.specs.declared.form.Form.TheVariants.{Dist};
ghost use Rattle.kin_motion.specs.ClosestFacts.{near};
ghost use Rattle.kin_motion.specs.ClosestPairs.{is_less_pair};
ghost use Rattle.kin_pairs.specs.Briefs.{near_fact};

use crate::brief::DistanceBrief;
use kin_motion::form::Form;
use kin_num::Sign;
use std::marker::Model;

/// Two points in a slot, the lesser number first, in 6 bytes. They may be the same point.
#[derive(Clone, Copy, Debug, PartialEq, Eq)]
pub struct Pair {
    i: u16,
    j: u16,
    slot: u16,
}

const _: () = prove!(size_of::<Option<Pair>>() == 8);

impl Model for Pair {
    ghost use Rattle.kin_motion.specs.ClosestPairs.{Near};

    ghost Value = { Near };

    ghost view = { λ p. record { i = p.i; j = p.j; slot = p.slot } };

    ghost inverse = { λ n. record { i = n.i; j = n.j; slot = n.slot } };
}

impl Pair {
    /// The pair of two points, in either order.
    pub fn new(slot: u32, one: u32, other: u32) -> Pair
        requires slot { slot < 2 ^ 16 }
        requires one { one < 2 ^ 16 }
        requires other { other < 2 ^ 16 }
        ensures { result ≡ near slot one other }
    {
        let (i, j) = if one < other {
            (one, other)
        } else {
            (other, one)
        };
        Pair {
            i: i as u16,
            j: j as u16,
            slot: slot as u16,
        }
    }

    /// The two points.
    pub fn points(&self) -> (u32, u32)
        ensures { result ≡ (self.now.i, self.now.j) }
    {
        (self.i as u32, self.j as u32)
    }

    /// The slot.
    pub fn slot(&self) -> u32
        ensures { result ≡ self.now.slot }
    {
        self.slot as u32
    }

    /// Whether it is the same pair in the same slot.
    pub fn is(&self, other: &Pair) -> bool
        ensures { IsTrue result ↔ (self.now ≡ other.now) }
    {
        self.i == other.i && self.j == other.j && self.slot == other.slot
    }

    /// The form that compares two pairs: + where this one is closer.
    pub(crate) fn form_with(&self, other: &Pair) -> Form
        ensures { result ≡ Dist self.now.i self.now.j other.now.i other.now.j }
    {
        let (i, j) = self.points();
        let (k, l) = other.points();
        Form::Dist { i, j, k, l }
    }

    /// The fact of this pair and another one where their form has this sign, in brief.
    #[inline(always)]
    pub(crate) fn against(&self, other: &Pair, sign: Sign) -> DistanceBrief
        ensures { near_fact result ≡ Some (record { form = Dist self.now.i self.now.j other.now.i other.now.j; sign = sign }) }
    {
        DistanceBrief {
            i: self.i,
            j: self.j,
            k: other.i,
            l: other.j,
            sign: Some(sign),
        }
    }

    /// Whether it is less than another pair by the first number, then by the second, then by the slot.
    pub fn is_less(&self, other: &Pair) -> bool
        ensures { result ≡ is_less_pair self.now other.now }
    {
        self.i < other.i
            || (self.i == other.i
                && (self.j < other.j || (self.j == other.j && self.slot < other.slot)))
    }
}
