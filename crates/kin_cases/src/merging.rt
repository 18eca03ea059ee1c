//! A merge of two chains.

ghost use Rattle.std.specs.Prelude.{◌≡◌, ◌<◌, IsTrue, IfOk, OnOk};
ghost use Rattle.std.specs.List.{All};
ghost use Rattle.kin_motion.specs.Scene.{IsReal};
ghost use Rattle.kin_motion.specs.Sets.{AreDistinct};
ghost use Rattle.kin_cases.specs.Merges.{IsTellable, MayBeTold};

use crate::ask::{Sight, are_live};
use crate::driver::Driver;
use crate::failing::after;
use crate::fault::Fault;
use crate::telling::{Edited, Telling};
use kin_motion::signs::Signs;
use kin_motion::{Delta, Placed};
use kin_num::Steps;
use kin_overlay::{ChainEdit, Overlay, Work};
use std::alloc::Global;
use std::marker::Model;
use std::sync::ledger::Ledger;

/// Whether the number is less than every number of a list.
fn is_below(no: u32, list: &[u32]) -> bool
    ensures { IsTrue result → All (λ j. no < j) list.now }
{
    for other in list {
        if no >= *other {
            return false;
        }
    }
    true
}

/// Whether every number of one list is less than every number of another.
pub(crate) fn are_less(a: &[u32], b: &[u32]) -> bool
    ensures { IsTrue result → All (λ i. All (λ j. i < j) b.now) a.now }
{
    for no in a {
        if !is_below(*no, b) {
            return false;
        }
    }
    true
}

/// Whether a chain may be given.
fn is_tellable<O: Signs>(now: &Sight<'_, O>, chain: &[u32]) -> Result<bool, Fault>
    ensures { IfOk result (λ t. IsTrue t → IsTellable (O.scene now.now.signs.now) chain.now) }
{
    let is_chain = now.is_upper_chain(chain, chain)?;
    if chain.is_empty() || !are_live(now.motions, chain) {
        return Ok(false);
    }
    Ok(is_chain)
}

/// Tests that both may be given as the chains of a merge.
pub(crate) fn ask_chains<O: Signs>(now: &Sight<'_, O>, a: &[u32], b: &[u32]) -> Result<(), Fault>
    ensures { OnOk result (MayBeTold (O.scene now.now.signs.now) a.now b.now) }
{
    let is_a_tellable = is_tellable(now, a)?;
    let is_b_tellable = is_tellable(now, b)?;
    if !is_a_tellable || !is_b_tellable || !are_less(a, b) {
        return Err(Fault::NotReady);
    }
    Ok(())
}

/// A merge of two chains of points that have motions.
#[derive(Drop)]
pub struct Merging {
    pub(crate) alloc: Global,
    pub(crate) overlay: Driver<Overlay>,
    /// The given chains.
    pub(crate) a: Vec<u32>,
    pub(crate) b: Vec<u32>,
    /// Whether no half was told edits that put a number and dropped it before the last settle.
    pub(crate) is_apart: bool,
}

impl Model for Merging {
    ghost use Rattle.kin_overlay.specs.Overlays.{Merge};
    ghost use Rattle.kin_cases.specs.Merges.{IsRun};

    ghost Value = { Merge };

    ghost view = { λ m. m.overlay };

    ghost invariant = { λ m. IsRun m.a.items m.b.items m.overlay };
}

impl Merging {
    /// The merge of two chains at a moment.
    pub fn build<P: Signs, O: Signs, L: Ledger>(
        alloc: Global,
        a: &[u32],
        b: &[u32],
        part: u32,
        sight: &Sight<'_, P>,
        now: &O,
        steps: &mut Steps<L>,
    ) -> Result<Merging, Fault>
        requires real { IsReal (O.scene now.now) }
        requires same { P.scene sight.now.signs.now ≡ O.scene now.now }
    {
        ask_chains(sight, a, b)?;
        let mut report = Delta::new(alloc);
        let mut work = Work::new(alloc);
        let structure = Overlay::build(alloc, &mut work, a, b, part, now, &mut report, steps)?;
        let facts = after(alloc, &[], &report)?;
        let overlay = Driver {
            alloc,
            structure,
            facts,
            report,
        };
        let a = Vec::from_slice(alloc, a)?;
        let b = Vec::from_slice(alloc, b)?;
        Ok(Merging {
            alloc,
            overlay,
            a,
            b,
            is_apart: true,
        })
    }

    /// Begins to tell new chains.
    pub fn begin(self) -> Telling {
        let Merging {
            alloc,
            overlay,
            a,
            b,
            is_apart: _,
        } = self;
        Telling {
            alloc,
            overlay,
            a,
            b,
            gone: Vec::new(alloc),
            of_a: Edited::new(alloc),
            of_b: Edited::new(alloc),
        }
    }

    /// Ends the merge. What is left of its facts is given back.
    pub fn retire(self) -> Result<Vec<Placed>, Fault> {
        let Merging {
            alloc,
            overlay,
            a: _,
            b: _,
            is_apart: _,
        } = self;
        let Driver {
            alloc: _,
            structure,
            facts,
            report: _,
        } = overlay;
        let mut report = Delta::new(alloc);
        structure.retire(&mut report)?;
        after(alloc, &facts, &report)
    }

    /// The live facts, in any order.
    pub fn facts(&self) -> &[Placed]
        ensures { AreDistinct result.now }
    {
        self.overlay.facts()
    }

    /// What the last call reported.
    pub fn report(&self) -> &Delta {
        self.overlay.report()
    }

    /// Whether the edits of no half put a number and dropped it before the last settle.
    pub fn is_apart(&self) -> bool {
        self.is_apart
    }

    /// The merged chain.
    pub fn chain(&self) -> &[u32] {
        self.overlay.structure().chain()
    }

    /// The edits that led to it.
    pub fn edits(&self) -> &[ChainEdit] {
        self.overlay.structure().edits()
    }

    /// The given chains.
    pub fn told(&self) -> (&[u32], &[u32]) {
        (&self.a, &self.b)
    }
}
