//! The roll of the live facts: an entry by id, and the id of each owner's form.

ghost use Rattle.std.specs.Prelude.{◌≡◌, ◌≤◌, length, ◌+◌, [], Some, None, is_some, count_by, OnOk, OnErr, IfOk, IfSome, IfNone, IsSome, slice_set};
ghost use Rattle.kin_cert.specs.Entries.{Entry as Kept};
ghost use Rattle.kin_fail.specs.Rank.{padded_rank, owned_rank};
ghost use Rattle.kin_cert.specs.Layout.{entry_at, fresh, waiting, timed, held, HasSlot, NoneTwice, IsFoundAt, IsThere, IsNotFound, IsVacancyOf, IsTakenOver};
ghost use Rattle.kin_cert.specs.Names.{form_in, IsFreed};

use crate::bucket::Label;
use crate::entry::{Entry, Vacancy};
use crate::holder::holder_in;
use crate::holders::Holders;
use crate::index::{enrol, id_of, may_follow, strike};
use crate::key::have_one_key;
use crate::plan::Plan;
use indexmap::IndexMap;
use kin_fail::owned::Owned;
use kin_fail::rank::Rank;
use kin_motion::fact::Placed;
use kin_motion::form::Form;
use kin_num::{Moment, NoMemory, Sign};
use slab::Slab;
use std::alloc::Global;
use std::marker::Model;

/// The live facts by id, of which no owner has a form twice.
#[derive(Drop)]
pub(crate) struct Roll {
    /// The live facts by id.
    entries: Slab<Entry>,
    /// Where facts have their seats.
    plan: Plan,
    /// The keys that facts have had, each with the id of one live fact there, if it has any but those among the others.
    holders: Holders,
    /// The ids of all other live facts, by owner and form.
    others: IndexMap<Rank, usize>,
}

impl Model for Roll {
    ghost use Rattle.std.specs.Prelude.{List, Option};
    ghost use Rattle.kin_cert.specs.Entries.{Entry as Kept};

    ghost Value = { List (Option Kept) };

    ghost use Rattle.kin_cert.specs.Rolls.{IsRoll};
    ghost use Rattle.kin_cert.specs.Holders.{holder_of};

    ghost view = { λ r. r.entries.slots };

    ghost invariant = { λ r. IsRoll r.plan r.entries.slots (holder_of r.holders) r.others };
}

impl Roll {
    /// A roll without facts, and without seats.
    pub(crate) fn new(alloc: Global) -> Roll
        ensures { result ≡ [] }
    {
        Roll {
            entries: Slab::new(alloc),
            plan: Plan::new(alloc, 0),
            holders: Holders::new(alloc),
            others: IndexMap::new(alloc),
        }
    }

    /// A roll without facts, with the seats of the plan, and room for so many facts in all.
    pub(crate) fn with_room(alloc: Global, facts: usize, plan: Plan) -> Result<Roll, NoMemory>
        ensures { IfOk result (λ r. r ≡ []) }
    {
        let holders = Holders::with_room(alloc, plan.count(), facts)?;
        Ok(Roll {
            entries: Slab::with_capacity(alloc, facts)?,
            plan,
            holders,
            others: IndexMap::new(alloc),
        })
    }

    /// How many facts are live.
    pub(crate) fn len(&self) -> usize
        ensures count { result ≡ count_by is_some self.now }
        ensures once { NoneTwice self.now }
    {
        self.entries.len()
    }

    /// The sign of the live fact of an owner's form, if there is one.
    pub(crate) fn sign_of(&self, structure: u32, part: u32, form: Form) -> Option<Sign>
        ensures some { IfSome result (λ sign. IsFoundAt self.now (padded_rank structure part form) (λ e. e.owned.fact.sign ≡ sign)) }
        ensures none { IfNone result (IsNotFound self.now (padded_rank structure part form)) }
    {
        let id = id_of(
            &self.entries,
            &self.plan,
            &self.holders,
            &self.others,
            structure,
            part,
            &form,
        )?;
        let entry = self.entries.get(id)?;
        Some(entry.owned().fact.sign)
    }

    /// Puts in a fact that never fails as yet. No fact of its owner has its form.
    pub(crate) fn put_in(&mut self, structure: u32, placed: &Placed) -> Result<usize, NoMemory>
        requires free { IsNotFound self.old (owned_rank (held structure placed.now)) }
        ensures vacant { IfOk result (λ id. entry_at self.old id ≡ None) }
        ensures slot { IfOk result (λ id. HasSlot self.old self.new id (Some (fresh (held structure placed.now)))) }
        ensures count { OnOk result (count_by is_some self.new ≡ count_by is_some self.old + 1) }
        ensures err { OnErr result (self.new ≡ self.old) }
    {
        self.entries.reserve(1)?;
        let id = self.entries.vacant_key();
        enrol(
            &self.entries,
            &self.plan,
            &mut self.holders,
            &mut self.others,
            structure,
            placed,
            id,
        )?;
        self.entries.insert_reserved(Entry::new(structure, placed));
        Ok(id)
    }

    /// Takes out the fact of an owner's form, which is there.
    pub(crate) fn take_out(&mut self, structure: u32, part: u32, form: &Form) -> Vacancy
        requires there { IsThere self.old (padded_rank structure part form.now) }
        ensures vacancy { IsVacancyOf self.old (padded_rank structure part form.now) result }
        ensures slots { self.new ≡ slice_set self.old result.id None }
        ensures count { count_by is_some self.new + 1 ≡ count_by is_some self.old }
        ensures once { NoneTwice self.old }
    {
        let id = strike(
            &self.entries,
            &self.plan,
            &mut self.holders,
            &mut self.others,
            structure,
            part,
            form,
        );
        let entry = self.entries.remove(id);
        Vacancy {
            id,
            is_queued: entry.is_queued(),
        }
    }

    /// Replaces a live fact by one of the same key, where the key is known by the old one and no other fact has the owner
    /// and the form of the new one. The new one never fails as yet. Otherwise nothing changes. It is inlined, for lines on
    /// their own.
    #[inline(always)]
    pub(crate) fn take_over(
        &mut self,
        structure: u32,
        old: &Placed,
        new: &Placed,
    ) -> Option<Vacancy>
        requires there { IsThere self.old (owned_rank (held structure old.now)) }
        ensures taken { IfSome result (λ vacancy. IsTakenOver self.old (owned_rank (held structure old.now)) (held structure new.now) vacancy self.new) }
        ensures none { IfNone result (self.new ≡ self.old) }
    {
        let label = Label::of(old);
        if !have_one_key(&self.plan, structure, label, Label::of(new)) {
            return None;
        }
        let word = self.holders.find_word(&self.plan, structure, label);
        let holder = holder_in(word)?;
        if !may_follow(&self.entries, &self.others, holder, structure, old, new) {
            return None;
        }
        let Some(entry) = self.entries.get_mut(holder.id) else {
            unreachable!()
        };
        let is_queued = entry.is_queued();
        entry.replace_with(new);
        Some(Vacancy {
            id: holder.id,
            is_queued,
        })
    }

    /// Whether a dropped fact and a born one of a structure are known by one key.
    pub(crate) fn have_one_key(&self, structure: u32, old: &Placed, new: &Placed) -> bool {
        have_one_key(&self.plan, structure, Label::of(old), Label::of(new))
    }

    /// Notes when a live fact fails first.
    pub(crate) fn set_failure(&mut self, id: usize, at: &Moment)
        requires { IsSome (entry_at self.old id) }
        ensures { (e : Kept) → entry_at self.old id ≡ Some e → self.new ≡ slice_set self.old id (Some (timed e (Some at.now))) }
    {
        let Some(entry) = self.entries.get_mut(id) else {
            unreachable!()
        };
        entry.set_failure(at);
    }

    /// Lets a live fact count as a new one, which never fails as yet. Answers it with what it leaves.
    pub(crate) fn free(&mut self, id: usize) -> (Owned, Vacancy)
        requires { IsSome (entry_at self.old id) }
        ensures { IsFreed self.old id result.0 result.1 self.new }
    {
        let Some(entry) = self.entries.get_mut(id) else {
            unreachable!()
        };
        let is_queued = entry.is_queued();
        entry.renew();
        (*entry.owned(), Vacancy { id, is_queued })
    }

    /// From this id on there is no fact.
    pub(crate) fn room(&self) -> usize
        ensures { length self.now ≤ result }
    {
        self.entries.capacity()
    }

    /// The form of an id's fact, if there is one.
    pub(crate) fn form_of(&self, id: usize) -> Option<Form>
        ensures { result ≡ form_in (entry_at self.now id) }
    {
        match self.entries.get(id) {
            Some(entry) => Some(entry.owned().fact.form),
            None => None,
        }
    }

    /// Lets a live fact wait to be dropped.
    pub(crate) fn let_wait(&mut self, id: usize) -> Owned
        requires { IsSome (entry_at self.old id) }
        ensures waits { (e : Kept) × (entry_at self.old id ≡ Some e) × (e.owned ≡ result) × (self.new ≡ slice_set self.old id (Some (waiting e))) }
        ensures once { NoneTwice self.old }
    {
        let Some(entry) = self.entries.get_mut(id) else {
            unreachable!()
        };
        entry.let_wait();
        *entry.owned()
    }
}
