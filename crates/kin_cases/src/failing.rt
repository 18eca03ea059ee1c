//! Which live facts fail at a moment, and which are live after a report.

ghost use Rattle.std.specs.Prelude.{◌≡◌, ◌↔◌, Bool, List, [], ◌∷◌, ◌++◌, cond, Contains, IsTrue, IsFalse, IfOk, OnOk};
ghost use Rattle.kin_motion.specs.declared.fact.Placed.{Placed as Put};
ghost use Rattle.kin_motion.specs.Kinetics.{HasChanged, ListsFailing};
ghost use Rattle.kin_motion.specs.Scene.{Holds, IsReal, scene_at};
ghost use Rattle.kin_motion.specs.Sets.{AreDistinct, ListsExactly};

use crate::ask::Sight;
use crate::fault::Fault;
use crate::spares::Spares;
use crate::watch::Watch;
use kin_motion::fact::{Delta, Placed};
use kin_motion::signs::Signs;
use std::alloc::Global;

/// Whether a fact isn't spared and doesn't hold now.
fn fails<S: Spares, O: Signs>(fact: &Placed, now: &Sight<'_, O>, spares: &S) -> Result<bool, Fault>
    ensures { IfOk result (λ b. IsTrue b ↔ (IsFalse (S.is_spared spares.now fact.now) × ¬ (Holds (O.scene now.now.signs.now) fact.now.fact))) }
{
    if spares.spares(fact) {
        return Ok(false);
    }
    let sign = now.sign(&fact.fact.form)?;
    Ok(sign != fact.fact.sign)
}

fn push_if(facts: &mut Vec<Placed>, fact: Placed, is_wanted: bool) -> Result<(), Fault>
    ensures { OnOk result (facts.new.items ≡ cond is_wanted (facts.old.items ++ fact ∷ []) facts.old.items) }
{
    if is_wanted {
        facts.push(fact).map_err(|_| Fault::NoMemory)?;
    }
    Ok(())
}

/// Those of the facts that aren't spared and don't hold now.
pub fn failing<S: Spares, O: Signs>(
    alloc: Global,
    facts: &[Placed],
    now: &Sight<'_, O>,
    spares: &S,
) -> Result<Vec<Placed>, Fault>
    requires { AreDistinct facts.now }
    ensures { IfOk result (λ v. ListsExactly v.items (λ p. Contains facts.now p × (IsFalse (S.is_spared spares.now p) × ¬ (Holds (O.scene now.now.signs.now) p.fact)))) }
{
    let mut failed = Vec::new(alloc);
    for fact in facts {
        let picked = fails(fact, now, spares)?;
        push_if(&mut failed, *fact, picked)?;
    }
    Ok(failed)
}

/// The facts to hand to a structure at the moment of a watch.
pub fn failing_at<S: Spares>(
    alloc: Global,
    facts: &[Placed],
    now: &Watch<'_>,
    spares: &S,
) -> Result<Vec<Placed>, Fault>
    requires { AreDistinct facts.now }
    ensures real { IfOk result (λ _. IsReal (scene_at now.now.motions.now now.now.moment.now)) }
    ensures failing { IfOk result (λ v. (live : List Put) (spared : Put → Bool) → ListsExactly facts.now (Contains live) → ((p : Put) → S.is_spared spares.now p ≡ spared p) → ListsFailing live spared (scene_at now.now.motions.now now.now.moment.now) v.items) }
{
    let plain = now.plain();
    let sight = Sight::at(&plain);
    let failed = failing(alloc, facts, &sight, spares)?;
    Ok(failed)
}

/// Whether a list has the fact.
pub fn is_among(fact: &Placed, facts: &[Placed]) -> bool
    ensures { IsTrue result ↔ Contains facts.now fact.now }
{
    facts.iter().any(|other| other.is(*fact))
}

/// The facts without the dropped ones.
fn without(alloc: Global, facts: &[Placed], dropped: &[Placed]) -> Result<Vec<Placed>, Fault>
    requires { AreDistinct facts.now }
    ensures { IfOk result (λ v. ListsExactly v.items (λ p. Contains facts.now p × ¬ (Contains dropped.now p))) }
{
    let mut kept = Vec::new(alloc);
    for fact in facts {
        let stays = !is_among(fact, dropped);
        push_if(&mut kept, *fact, stays)?;
    }
    Ok(kept)
}

/// The facts after a report that began empty.
pub fn after(alloc: Global, facts: &[Placed], report: &Delta) -> Result<Vec<Placed>, Fault>
    requires { AreDistinct facts.now }
    ensures { IfOk result (λ v. (old new : List Put) → ListsExactly facts.now (Contains old) → HasChanged old new (record { dropped = []; born = [] }) report.now → ListsExactly v.items (Contains new)) }
{
    let mut after = without(alloc, facts, &report.dropped)?;
    after.extend_from_slice(&report.born)?;
    Ok(after)
}
