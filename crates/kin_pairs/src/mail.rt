//! The failed facts of a tournament whose facts come after others.

ghost use Rattle.std.specs.Prelude.{◌≡◌, ◌+◌, ◌*◌, ◌≤◌, ◌<◌, ◌^◌, OnOk, filter, length, map, Contains};
ghost use Rattle.kin_motion.specs.declared.fact.Placed.{Placed as Put};
ghost use Rattle.kin_motion.specs.Kinetics.{HasChanged};
ghost use Rattle.kin_motion.specs.Parts.{moved_by};
ghost use Rattle.kin_motion.specs.Scene.{IsReal};
ghost use Rattle.kin_tourney.specs.Tournament.{IsAtRest, IsReady, IsSettled, mark_count, CoversAskable};
ghost use Rattle.kin_pairs.specs.Sorting.{is_before, IsSortedMail};

use crate::sorting::{move_from, sort_out};
use kin_motion::fact::{Delta, Placed};
use kin_motion::kinetic::Kinetic;
use kin_motion::signs::Signs;
use kin_num::memory::NoMemory;
use kin_num::steps::Steps;
use kin_tourney::{Keyed, Tourney};
use std::alloc::Global;
use std::marker::Model;
use std::sync::ledger::Ledger;

/// The failed facts of the tournament in its own parts, and where there are some, the others, which are in
/// the parts before. The memory is kept from settle to settle.
#[derive(Drop)]
pub struct Mail {
    others: Vec<Placed>,
    pairs: Vec<Placed>,
}

impl Model for Mail {
    ghost use Rattle.kin_pairs.specs.Sorting.{Letters};

    ghost Value = { Letters };

    ghost view = { λ m. record { others = m.others.items; pairs = m.pairs.items } };
}

impl Mail {
    pub fn new(alloc: Global) -> Mail {
        Mail {
            others: Vec::new(alloc),
            pairs: Vec::new(alloc),
        }
    }

    /// Sorts failed facts. Those of the tournament come after so many parts.
    pub fn sort(&mut self, parts: u32, failed: &[Placed]) -> Result<(), NoMemory>
        ensures { OnOk result (IsSortedMail parts failed.now self.new) }
    {
        sort_out(parts, failed, &mut self.others, &mut self.pairs)
    }

    /// The facts of the parts before, of those that were sorted last.
    pub fn others<'a>(&'a self, parts: u32, failed: &'a [Placed]) -> &'a [Placed]
        requires { IsSortedMail parts failed.now self.now }
        ensures { result.now ≡ filter (is_before parts) failed.now }
    {
        if self.pairs.is_empty() {
            failed
        } else {
            &self.others
        }
    }

    /// Settles the tournament, and reports its facts so many parts further on.
    pub fn settle_pairs<K: Keyed, O: Signs, L: Ledger>(
        &mut self,
        parts: u32,
        pairs: &mut Tourney<K>,
        now: &O,
        out: &mut Delta,
        steps: &mut Steps<L>,
    ) -> Result<(), NoMemory>
        requires few { parts ≤ 2 ^ 15 }
        requires real { IsReal (O.scene now.now) }
        requires ready { IsReady K.names pairs.old (O.scene now.now) }
        requires failing { CoversAskable pairs.old.facts (O.scene now.now) self.old.pairs }
        requires small { pairs.old.size ≤ 15 }
        requires low { (p : Put) → Contains pairs.old.facts p → p.part < 2 ^ 15 }
        ensures rest { OnOk result (IsAtRest pairs.new) }
        ensures settled { OnOk result (IsSettled K.names (K.key pairs.new.key) pairs.new (O.scene now.now)) }
        ensures delta { OnOk result (HasChanged (map (moved_by parts) pairs.old.facts) (map (moved_by parts) pairs.new.facts) out.old out.new) }
        ensures same { OnOk result (pairs.new ≡ record pairs.old { marked = pairs.new.marked; winners = pairs.new.winners; facts = pairs.new.facts }) }
        ensures room { OnOk result (length pairs.new.marked ≡ length pairs.old.marked) }
        ensures cost { OnOk result (steps.new ≤ steps.old + pairs.old.size * (mark_count pairs.old.marked + length self.old.pairs)) }
    {
        let dropped = out.dropped.len();
        let born = out.born.len();
        pairs.settle_told(now, &self.pairs, out, steps)?;
        move_from(parts, &mut out.dropped, dropped);
        move_from(parts, &mut out.born, born);
        Ok(())
    }
}
