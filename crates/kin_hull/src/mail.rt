//! The failed facts of the trees of a hull, and what the trees report.

ghost use Rattle.std.specs.Prelude.{◌≡◌, ◌<◌, ◌≤◌, ◌^◌, ◌+◌, ◌*◌, length, filter, map, Contains, OnOk};
ghost use Rattle.kin_motion.specs.declared.fact.Placed.{Placed as Put};
ghost use Rattle.kin_motion.specs.Kinetics.{ListsFailing, HasChanged};
ghost use Rattle.kin_motion.specs.Scene.{IsReal};
ghost use Rattle.kin_env.specs.Trees.{ChainsKeepOrder, IsEnvelopeAtRest, IsReadyEnvelope, IsSettledEnvelope, names_leaving};
ghost use Rattle.kin_hull.specs.Sides.{is_of, outward, inward, items_of};

use crate::side::Side;
use crate::sorting::{Failed, put_outward};
use kin_env::EnvTree;
use kin_motion::fact::{Delta, Placed};
use kin_motion::kinetic::Kinetic;
use kin_motion::signs::Signs;
use kin_num::memory::NoMemory;
use kin_num::steps::Steps;
use std::alloc::Global;
use std::sync::ledger::Ledger;

/// The failed facts of both trees.
#[derive(Drop)]
pub(crate) struct Mail {
    failed: Failed,
}

impl Mail {
    /// No failed facts.
    pub(crate) fn new(alloc: Global) -> Mail {
        Mail {
            failed: Failed::new(alloc),
        }
    }

    /// Sorts failed facts of the hull by tree.
    pub(crate) fn sort(&mut self, facts: &[Placed]) -> Result<(), NoMemory>
        ensures upper { OnOk result (self.new.failed.upper.items ≡ map (inward Side.Upper) (filter (is_of Side.Upper) facts.now)) }
        ensures lower { OnOk result (self.new.failed.lower.items ≡ map (inward Side.Lower) (filter (is_of Side.Lower) facts.now)) }
    {
        self.failed.sort(facts)
    }

    /// Settles one of the trees in its scene, and turns what it reports into facts of the hull.
    pub(crate) fn settle<O: Signs, L: Ledger>(
        &mut self,
        side: Side,
        tree: &mut EnvTree,
        now: &O,
        out: &mut Delta,
        steps: &mut Steps<L>,
    ) -> Result<(), NoMemory>
        requires real { IsReal (O.scene now.now) }
        requires ready { IsReadyEnvelope tree.old (O.scene now.now) }
        requires failing { ListsFailing tree.old.facts (names_leaving tree.old) (O.scene now.now) (items_of side self.old.failed.upper.items self.old.failed.lower.items) }
        requires small { tree.old.size ≤ 12 }
        requires low { (p : Put) → Contains tree.old.facts p → p.part < 2 ^ 16 }
        ensures rest { OnOk result (IsEnvelopeAtRest tree.new) }
        ensures settled { OnOk result (IsSettledEnvelope tree.new (O.scene now.now)) }
        ensures delta { OnOk result (HasChanged (map (outward side) tree.old.facts) (map (outward side) tree.new.facts) out.old out.new) }
        ensures tests { OnOk result (ChainsKeepOrder tree.old tree.new → steps.new + (5 * length out.old.born + length out.old.dropped) ≤ steps.old + (5 * length out.new.born + length out.new.dropped)) }
        ensures same { OnOk result (tree.new ≡ record tree.old { chains = tree.new.chains; facts = tree.new.facts }) }
        ensures others { self.new.failed ≡ self.old.failed }
    {
        let (dropped, born) = (out.dropped.len(), out.born.len());
        tree.settle(now, self.failed.of(side), out, steps)?;
        put_outward(side, &mut out.dropped, dropped);
        put_outward(side, &mut out.born, born);
        Ok(())
    }
}
