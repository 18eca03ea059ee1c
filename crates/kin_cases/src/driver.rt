//! A structure with its live facts.

ghost use Rattle.std.specs.Prelude.{◌≡◌, [], IfOk};
ghost use Rattle.kin_motion.specs.declared.fact.Placed.{Placed as Put};
ghost use Rattle.kin_motion.specs.Scene.{scene_at};
ghost use Rattle.kin_motion.specs.Sets.{AreDistinct};

use crate::failing::{after, failing_at};
use crate::fault::Fault;
use crate::spares::Spares;
use crate::watch::Watch;
use kin_motion::fact::{Delta, Placed};
use kin_motion::kinetic::Kinetic;
use kin_motion::steady::Steady;
use kin_num::Steps;
use std::alloc::Global;
use std::marker::Model;
use std::sync::ledger::Ledger;

/// A structure with the list of its live facts, which is kept by its reports alone. A contract sees
/// it as its structure.
#[derive(Drop)]
pub struct Driver<K: Kinetic + Drop> {
    pub(crate) alloc: Global,
    pub(crate) structure: K,
    pub(crate) facts: Vec<Placed>,
    /// What the last call reported.
    pub(crate) report: Delta,
}

impl<K: Kinetic + Drop> Model for Driver<K> {
    ghost use Rattle.std.specs.Prelude.{Contains};
    ghost use Rattle.kin_motion.specs.Sets.{ListsExactly};

    ghost Value = { K };

    ghost view = { λ d. d.structure };

    ghost invariant = { λ d. ListsExactly d.facts.items (Contains (K.facts d.structure)) };
}

impl<K: Kinetic + Drop> Driver<K> {
    /// A structure without facts.
    pub fn new(alloc: Global, structure: K) -> Driver<K>
        requires { K.facts structure ≡ [] }
        ensures { result ≡ structure }
    {
        Driver {
            alloc,
            structure,
            facts: Vec::new(alloc),
            report: Delta::new(alloc),
        }
    }

    /// The structure.
    pub fn structure(&self) -> &K
        ensures { result.now ≡ self.now }
    {
        &self.structure
    }

    /// Its live facts, in any order.
    pub fn facts(&self) -> &[Placed]
        ensures { AreDistinct result.now }
    {
        &self.facts
    }

    /// What the last call reported.
    pub fn report(&self) -> &Delta {
        &self.report
    }
}

impl<K: Steady> Driver<K> {
    /// Settles the structure at a moment, by the facts that fail there.
    pub fn settle<S: Spares, L: Ledger>(
        self,
        now: &Watch<'_>,
        spares: &S,
        steps: &mut Steps<L>,
    ) -> Result<Driver<K>, Fault>
        requires ready { K.ready self (scene_at now.now.motions.now now.now.moment.now) }
        requires spares { (p : Put) → S.is_spared spares.now p ≡ K.is_spared self p }
        ensures rest { IfOk result (λ k. K.at_rest k) }
        ensures settled { IfOk result (λ k. K.settled k (scene_at now.now.motions.now now.now.moment.now)) }
        ensures stays { IfOk result (λ k. K.stays self k) }
    {
        let Driver {
            alloc,
            mut structure,
            facts,
            report: _,
        } = self;
        let failed = failing_at(alloc, &facts, now, spares)?;
        let mut out = Delta::new(alloc);
        structure.settle_steadily(now, &failed, &mut out, steps)?;
        let facts = after(alloc, &facts, &out)?;
        Ok(Driver {
            alloc,
            structure,
            facts,
            report: out,
        })
    }
}
