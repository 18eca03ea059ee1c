//! Signs that count their own calls.

ghost use Rattle.std.specs.Prelude.{◌≡◌, ◌+◌};
ghost use Rattle.kin_num.specs.Canonical.{IsCanonical};

use kin_fail::Now;
use kin_motion::form::Form;
use kin_motion::motion::Motions;
use kin_motion::signs::Signs;
use kin_num::{Moment, Sign, Steps};
use std::cell::Cell;
use std::marker::{Brand, PhantomData};
use std::mem::size_of_val;
use std::sync::ledger::Ledger;

/// The ledger of the caller's counter. A counter is nothing at run time, but its ledger has a
/// size: that of `Brand`, at which a structure could open a counter of its own, is 0.
pub struct Callers<L: Ledger> {
    _mark: u64,
    _ledger: PhantomData<L>,
}

impl<L: Ledger> Ledger for Callers<L> {
    ghost name = { L.name };

    ghost parts = { L.parts };
}

/// How many bytes a value of a ledger's type would take.
fn room_of<L: Ledger>() -> usize {
    let none: Option<L> = None;
    let room = size_of_val(&none);
    match none {
        None => room,
        Some(_ledger) => unreachable!(),
    }
}

/// How often a watch was asked.
#[derive(Drop)]
pub struct Tally {
    all: Cell<u64>,
    callers: Cell<u64>,
}

impl Tally {
    /// No calls.
    pub fn new() -> Tally {
        Tally {
            all: Cell::new(0),
            callers: Cell::new(0),
        }
    }

    /// How often it was asked since the last `take`.
    pub fn asked(&self) -> u64 {
        self.all.get()
    }

    /// How often it was asked since the last `take`, and how often with the caller's counter.
    pub fn take(&self) -> (u64, u64) {
        let asked = (self.all.get(), self.callers.get());
        self.all.set(0);
        self.callers.set(0);
        asked
    }

    fn note(&self, with_callers: bool) {
        self.all.set(self.all.get().wrapping_add(1));
        if with_callers {
            self.callers.set(self.callers.get().wrapping_add(1));
        }
    }
}

/// Motions at one moment, which count how often they are asked.
#[derive(Drop)]
pub struct Watch<'a> {
    pub motions: &'a Motions,
    pub moment: &'a Moment,
    pub tally: &'a Tally,
}

impl Watch<'_> {
    /// The same signs, without a count.
    pub fn plain(&self) -> Now<'_>
        ensures motions { result.motions.now ≡ self.now.motions.now }
        ensures moment { result.moment.now ≡ self.now.moment.now }
        ensures canonical { IsCanonical self.now.moment.now.at }
    {
        let _ = self.moment.at.shape();
        Now {
            motions: self.motions,
            moment: self.moment,
        }
    }
}

impl Signs for Watch<'_> {
    ghost use Rattle.kin_motion.specs.Scene.{scene_at};

    ghost scene = { λ w. scene_at w.motions.now w.moment.now };

    fn sign<L: Ledger>(&self, form: &Form, steps: &mut Steps<L>) -> Sign {
        self.tally.note(room_of::<L>() > room_of::<Brand>());
        self.plain().sign(form, steps)
    }
}
