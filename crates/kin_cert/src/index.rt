//! The indices of a roll: how the id of an owner's form is found.

ghost use Rattle.std.specs.Prelude.{◌≡◌, ◌⊎◌, Some, None, OnOk, OnErr, IfSome, IfNone, IsTrue, ◌↔◌};
ghost use Rattle.indexmap.specs.IndexMap.{get as look_up};
ghost use Rattle.kin_cert.specs.Entries.{Entry as Kept};
ghost use Rattle.kin_fail.specs.Rank.{padded_rank, is_rank, owned_rank};
ghost use Rattle.kin_cert.specs.Keys.{owned_key};
ghost use Rattle.kin_cert.specs.Holders.{holder_of};
ghost use Rattle.kin_cert.specs.Layout.{entry_at, held, HasRank, IsThere};
ghost use Rattle.kin_cert.specs.Rolls.{IsRoll, IsIdOf, HasNoId, IsStruck, MayFollow, IsEnrolled, IsSameIndex};

use crate::entry::Entry;
use crate::holder::Holder;
use crate::holders::Holders;
use crate::key::{Key, key_of};
use crate::plan::Plan;
use indexmap::IndexMap;
use kin_fail::rank::{Rank, rank};
use kin_motion::fact::Placed;
use kin_motion::form::Form;
use kin_num::NoMemory;
use slab::Slab;

/// Whether an id has a fact of this owner and form.
#[inline(always)]
pub(crate) fn has_fact(
    entries: &Slab<Entry>,
    id: usize,
    structure: u32,
    part: u32,
    form: &Form,
) -> bool
    ensures { IsTrue result ↔ HasRank entries.now.slots id (padded_rank structure part form.now) }
{
    match entries.get(id) {
        Some(entry) => entry.is_of(structure, part, form),
        None => false,
    }
}

/// The id of an owner's form, if there is one.
pub(crate) fn id_of(
    entries: &Slab<Entry>,
    plan: &Plan,
    holders: &Holders,
    others: &IndexMap<Rank, usize>,
    structure: u32,
    part: u32,
    form: &Form,
) -> Option<usize>
    ensures some { IfSome result (λ id. IsIdOf plan.now entries.now.slots (holder_of holders.now) others.now structure part form.now id) }
    ensures none { IfNone result (HasNoId plan.now entries.now.slots (holder_of holders.now) others.now structure part form.now) }
{
    let holder = holders.look_up(&key_of(plan, structure, part, form))?;
    if has_fact(entries, holder.id, structure, part, form) {
        return Some(holder.id);
    }
    if holder.is_shared {
        others.get(&rank(structure, part, *form)).copied()
    } else {
        None
    }
}

/// Strikes a live form of an owner out of the indices, and answers its id. A key that isn't shared has no other fact, so no
/// form is compared there.
pub(crate) fn strike(
    entries: &Slab<Entry>,
    plan: &Plan,
    holders: &mut Holders,
    others: &mut IndexMap<Rank, usize>,
    structure: u32,
    part: u32,
    form: &Form,
) -> usize
    requires roll { IsRoll plan.now entries.now.slots (holder_of holders.old) others.old }
    requires there { IsThere entries.now.slots (padded_rank structure part form.now) }
    ensures { IsStruck plan.now entries.now.slots (holder_of holders.old) others.old structure part form.now result (holder_of holders.new) others.new }
{
    let key = key_of(plan, structure, part, form);
    let Some(holder) = holders.find(&key) else {
        unreachable!()
    };
    if !holder.is_shared {
        holders.leave(&key, entries.len());
        return holder.id;
    }
    if has_fact(entries, holder.id, structure, part, form) {
        return holder.id;
    }
    let Some(id) = others.swap_remove(&rank(structure, part, *form)) else {
        unreachable!()
    };
    id
}

/// Whether a new fact may take the key of an old one, which is live: the holder of the key has the old one, and the new
/// one isn't among the others. Where the key isn't shared, both are so, and no form is compared.
#[inline(always)]
pub(crate) fn may_follow(
    entries: &Slab<Entry>,
    others: &IndexMap<Rank, usize>,
    holder: Holder,
    structure: u32,
    old: &Placed,
    new: &Placed,
) -> bool
    ensures { IsTrue result → MayFollow entries.now.slots others.now holder (held structure old.now) (held structure new.now) }
{
    !holder.is_shared || may_follow_shared(entries, others, holder.id, structure, old, new)
}

// The same where the key is shared, out of line.
#[inline(never)]
fn may_follow_shared(
    entries: &Slab<Entry>,
    others: &IndexMap<Rank, usize>,
    id: usize,
    structure: u32,
    old: &Placed,
    new: &Placed,
) -> bool
    ensures { IsTrue result → HasRank entries.now.slots id (owned_rank (held structure old.now)) × ((owned_rank (held structure new.now) ≡ owned_rank (held structure old.now)) ⊎ (look_up is_rank others.now (owned_rank (held structure new.now)) ≡ None)) }
{
    has_fact(entries, id, structure, old.part, &old.fact.form)
        && is_none_of(others, structure, old, new)
}

// Whether the new fact has the owner and form of the old one, or isn't among the others.
fn is_none_of(others: &IndexMap<Rank, usize>, structure: u32, old: &Placed, new: &Placed) -> bool
    ensures { IsTrue result → (owned_rank (held structure new.now) ≡ owned_rank (held structure old.now)) ⊎ (look_up is_rank others.now (owned_rank (held structure new.now)) ≡ None) }
{
    if new.part == old.part && new.fact.form.is(old.fact.form) {
        return true;
    }
    !others.contains_key(&rank(structure, new.part, new.fact.form))
}

/// Notes the id of a fact of an owner that has no fact of its form.
pub(crate) fn enrol(
    entries: &Slab<Entry>,
    plan: &Plan,
    holders: &mut Holders,
    others: &mut IndexMap<Rank, usize>,
    structure: u32,
    placed: &Placed,
    id: usize,
) -> Result<(), NoMemory>
    ensures ok { OnOk result (IsEnrolled plan.now entries.now.slots (holder_of holders.old) others.old (owned_key plan.now (held structure placed.now)) (owned_rank (held structure placed.now)) id (holder_of holders.new) others.new) }
    ensures err { OnErr result (IsSameIndex (holder_of holders.old) others.old (holder_of holders.new) others.new) }
{
    let key = key_of(plan, structure, placed.part, &placed.fact.form);
    let Some(holder) = holders.find(&key) else {
        let newcomer = Holder {
            id,
            is_shared: false,
        };
        return holders.set(&key, newcomer);
    };
    if !is_held(entries, plan, holder.id, &key) {
        let successor = Holder {
            id,
            is_shared: holder.is_shared,
        };
        return holders.set(&key, successor);
    }
    let rank = rank(structure, placed.part, placed.fact.form);
    let Ok(_) = others.insert(rank, id) else {
        return Err(NoMemory);
    };
    // The key stays known by the fact by which it was.
    holders.share(&key, holder);
    Ok(())
}

// Whether an id has a fact of this key.
fn is_held(entries: &Slab<Entry>, plan: &Plan, id: usize, key: &Key) -> bool
    ensures { IsTrue result ↔ ((e : Kept) × (entry_at entries.now.slots id ≡ Some e) × (owned_key plan.now e.owned ≡ key.now)) }
{
    match entries.get(id) {
        Some(entry) => entry.key(plan).is(key),
        None => false,
    }
}
