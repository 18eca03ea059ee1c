//! Entries of the table.

ghost use Rattle.std.specs.Prelude.{◌≡◌, ◌↔◌, Some, is_some, IsTrue};
ghost use Rattle.kin_fail.specs.Rank.{padded_rank};
ghost use Rattle.kin_cert.specs.Keys.{owned_key};
ghost use Rattle.kin_cert.specs.Layout.{entry_rank, held, fresh, timed, waiting, queued_at};

use crate::key::{Key, key_of};
use crate::plan::Plan;
use kin_fail::owned::Owned;
use kin_motion::fact::Placed;
use kin_motion::form::Form;
use kin_num::{Instant, Moment, Phase, Shape};
use std::marker::Model;
use std::snapshot::Snapshot;

/// A live fact as the table keeps it.
#[derive(Drop)]
pub(crate) struct Entry {
    owned: Owned,
    /// The moment of the first failure, for proofs alone: it takes no memory. Where the fact never fails it means
    /// nothing.
    at: Snapshot<Moment>,
    /// Whether the fact ever fails.
    is_mortal: bool,
    /// Whether the fact was given out as failing and waits to be dropped.
    is_waiting: bool,
}

impl Model for Entry {
    ghost use Rattle.kin_cert.specs.Entries.{Entry, first_failure};

    ghost Value = { Entry };

    ghost view = { λ e. record { owned = e.owned; fails = first_failure e.is_mortal e.at.value; is_waiting = e.is_waiting } };
}

impl Entry {
    /// A fact that never fails as yet.
    pub(crate) fn new(structure: u32, placed: &Placed) -> Entry
        ensures { result ≡ fresh (held structure placed.now) }
    {
        Entry {
            owned: Owned {
                structure,
                part: placed.part,
                fact: placed.fact,
            },
            at: Snapshot::of(&Moment {
                at: Instant::of(Shape::Ratio { n: 0, d: 1 }),
                phase: Phase::At,
            }),
            is_mortal: false,
            is_waiting: false,
        }
    }

    /// The fact with its owner.
    pub(crate) fn owned(&self) -> &Owned
        ensures { result.now ≡ self.now.owned }
    {
        &self.owned
    }

    /// Whether the fact is one of this owner and form.
    #[inline(always)]
    pub(crate) fn is_of(&self, structure: u32, part: u32, form: &Form) -> bool
        ensures { IsTrue result ↔ (entry_rank self.now ≡ padded_rank structure part form.now) }
    {
        self.owned.structure == structure
            && self.owned.part == part
            && are_same(&self.owned.fact.form, form)
    }

    /// The key of the fact.
    pub(crate) fn key(&self, plan: &Plan) -> Key
        ensures { result ≡ owned_key plan.now self.now.owned }
    {
        key_of(
            plan,
            self.owned.structure,
            self.owned.part,
            &self.owned.fact.form,
        )
    }

    /// Whether the queue has it.
    pub(crate) fn is_queued(&self) -> bool
        ensures { result ≡ is_some (queued_at (Some self.now)) }
    {
        self.is_mortal && !self.is_waiting
    }

    /// Replaces the fact by another one of its structure, which never fails as yet.
    pub(crate) fn replace_with(&mut self, placed: &Placed)
        ensures { self.new ≡ fresh (held self.old.owned.structure placed.now) }
    {
        self.owned.part = placed.part;
        self.owned.fact = placed.fact;
        self.renew();
    }

    /// Lets the fact count as a new one, which never fails as yet.
    pub(crate) fn renew(&mut self)
        ensures { self.new ≡ fresh self.old.owned }
    {
        self.is_mortal = false;
        self.is_waiting = false;
    }

    /// Notes when the fact fails first.
    pub(crate) fn set_failure(&mut self, at: &Moment)
        ensures { self.new ≡ timed self.old (Some at.now) }
    {
        self.at = Snapshot::of(at);
        self.is_mortal = true;
    }

    /// Lets the fact wait to be dropped.
    pub(crate) fn let_wait(&mut self)
        ensures { self.new ≡ waiting self.old }
    {
        self.is_waiting = true;
    }
}

// Whether it is one form. Lines are compared in line.
#[inline(always)]
fn are_same(x: &Form, y: &Form) -> bool
    ensures { IsTrue result ↔ (x.now ≡ y.now) }
{
    match (*x, *y) {
        (
            Form::Line { dx, dy, off, i, j },
            Form::Line {
                dx: dx2,
                dy: dy2,
                off: off2,
                i: i2,
                j: j2,
            },
        ) => dx == dx2 && dy == dy2 && off == off2 && i == i2 && j == j2,
        _ => is_one_form(x, y),
    }
}

// The same for forms of any kind, out of line.
#[inline(never)]
fn is_one_form(x: &Form, y: &Form) -> bool
    ensures { IsTrue result ↔ (x.now ≡ y.now) }
{
    x.is(*y)
}

/// An id that a fact has left, and whether the queue still has it.
#[derive(Clone, Copy)]
pub(crate) struct Vacancy {
    pub(crate) id: usize,
    pub(crate) is_queued: bool,
}
