//! An envelope tree, with the motions that it follows.

ghost use Rattle.std.specs.Prelude.{◌≡◌, ◌≤◌, ◌<◌, ◌^◌, [], ◌∷◌, ◌++◌, true, false, slice_set, IsTrue, OnOk};
ghost use Rattle.kin_env.specs.Walks.{slot_in};

use crate::ask::is_live;
use crate::chains::has_number;
use crate::driver::Driver;
use crate::fault::Fault;
use crate::spares::SparesNamed;
use crate::watch::{Tally, Watch};
use kin_env::EnvTree;
use kin_fail::Now;
use kin_motion::{Delta, Motion, Motions, Placed};
use kin_num::{Moment, Steps};
use std::alloc::Global;
use std::marker::Model;
use std::sync::ledger::Ledger;

impl Driver<EnvTree> {
    fn set(&mut self, slot: u32)
        requires whole { IsTrue self.old.whole }
        requires within { slot < 2 ^ self.old.size }
        requires new { slot_in self.old.slots slot ≡ false }
        ensures { self.new ≡ record self.old { slots = slice_set self.old.slots slot true } }
    {
        self.structure.set(slot);
    }

    fn clear(&mut self, slot: u32)
        requires whole { IsTrue self.old.whole }
        requires within { slot < 2 ^ self.old.size }
        requires member { slot_in self.old.slots slot ≡ true }
        ensures { self.new ≡ record self.old { slots = slice_set self.old.slots slot false } }
    {
        self.structure.clear(slot);
    }
}

fn note(numbers: &mut Vec<u32>, no: u32) -> Result<(), Fault>
    ensures { OnOk result (numbers.new.items ≡ numbers.old.items ++ no ∷ []) }
{
    numbers.push(no).map_err(|_| Fault::NoMemory)?;
    Ok(())
}

/// The upper chain of the live points, by a tree. Points may enter and leave between two moments at
/// which it is settled, each once.
#[derive(Drop)]
pub struct Envelope {
    alloc: Global,
    size: u32,
    motions: Motions,
    tree: Driver<EnvTree>,
    /// The numbers that have left since the last settle, and those that have entered.
    gone: Vec<u32>,
    fresh: Vec<u32>,
    /// The chain as it was settled last.
    top: Vec<u32>,
}

impl Model for Envelope {
    ghost use Rattle.kin_env.specs.Trees.{Envelope as Seen};
    ghost use Rattle.kin_cases.specs.Envelopes.{IsFollowed};

    ghost Value = { Seen };

    ghost view = { λ e. e.tree };

    ghost invariant = { λ e. IsFollowed e.size e.motions e.tree e.gone.items e.fresh.items };
}

impl Envelope {
    /// No points, and room for the numbers below `2^size`.
    pub fn new(alloc: Global, size: u32) -> Result<Envelope, Fault>
        requires low { 1 ≤ size }
        requires high { size ≤ 12 }
    {
        let motions = Motions::new(alloc, size)?;
        let tree = Driver::new(alloc, EnvTree::new(alloc, size)?);
        Ok(Envelope {
            alloc,
            size,
            motions,
            tree,
            gone: Vec::new(alloc),
            fresh: Vec::new(alloc),
            top: Vec::new(alloc),
        })
    }

    /// Marks a new point as entering. It hasn't left since the last settle.
    pub fn enter(mut self, no: u32, motion: Motion) -> Result<Envelope, Fault> {
        if no >= 1 << self.size || self.motions.get(no).is_some() || has_number(&self.gone, no) {
            return Err(Fault::NotNew);
        }
        note(&mut self.fresh, no)?;
        self.motions.set(no, motion);
        self.tree.set(no);
        Ok(self)
    }

    /// Marks a point as leaving. It hasn't entered since the last settle.
    pub fn leave(mut self, no: u32) -> Result<Envelope, Fault> {
        if no >= 1 << self.size || !is_live(&self.motions, no) || has_number(&self.fresh, no) {
            return Err(Fault::NotLive);
        }
        note(&mut self.gone, no)?;
        self.motions.clear(no);
        self.tree.clear(no);
        Ok(self)
    }

    /// Settles the tree at a moment.
    pub fn settle<L: Ledger>(
        self,
        moment: &Moment,
        tally: &Tally,
        steps: &mut Steps<L>,
    ) -> Result<Envelope, Fault> {
        let Envelope {
            alloc,
            size,
            motions,
            tree,
            gone,
            fresh: _,
            top: _,
        } = self;
        let now = Watch {
            motions: &motions,
            moment,
            tally,
        };
        let spares = SparesNamed { gone: &gone };
        let tree = tree.settle(&now, &spares, steps)?;
        let top = Vec::from_slice(alloc, tree.structure.top())?;
        Ok(Envelope {
            alloc,
            size,
            motions,
            tree,
            gone: Vec::new(alloc),
            fresh: Vec::new(alloc),
            top,
        })
    }

    /// The chain of the last settle.
    pub fn top(&self) -> &[u32] {
        &self.top
    }

    /// The live facts, in any order.
    pub fn facts(&self) -> &[Placed] {
        self.tree.facts()
    }

    /// What the last settle reported.
    pub fn report(&self) -> &Delta {
        self.tree.report()
    }

    /// The motions at a moment.
    pub fn at<'a>(&'a self, moment: &'a Moment) -> Now<'a> {
        Now {
            motions: &self.motions,
            moment,
        }
    }

    /// The size of the tree.
    pub fn size(&self) -> u32
        ensures small { result ≤ 12 }
    {
        self.size
    }
}
