//! A merge, or none, behind one pointer.

ghost use Rattle.std.specs.Prelude.{◌≡◌, ◌<◌, [], length, None, Some, OnOk, is_some, option_copied, IsSomeAnd};
ghost use Rattle.kin_motion.specs.Kinetics.{HasChanged};
ghost use Rattle.kin_motion.specs.Scene.{IsReal};
ghost use Rattle.kin_env.specs.Nodes.{chain_of, chain_with, facts_with};
ghost use Rattle.kin_env.specs.Joints.{Leads, IsMergeOf, IsMergeTold, IsSettledThere, HalvesKeepOrder, ArePaid};

use crate::node::{Node, mend};
use kin_motion::fact::{Delta, Placed};
use kin_motion::signs::Signs;
use kin_num::memory::NoMemory;
use kin_num::steps::Steps;
use kin_overlay::edit::ChainEdit;
use kin_overlay::overlay::Overlay;
use kin_overlay::work::Work;
use std::alloc::Global;
use std::marker::Model;
use std::sync::ledger::Ledger;

/// A merge, or none. At least half of a tree's nodes, the leaves, never have one: behind a pointer it
/// takes room only where there is one.
#[derive(Drop)]
pub struct Held {
    merge: Option<Box<Overlay>>,
}

impl Model for Held {
    ghost use Rattle.std.specs.Prelude.{Option, option_map};
    ghost use Rattle.kin_overlay.specs.Overlays.{Merge};

    ghost Value = { Option Merge };

    ghost view = { λ h. option_map (λ b. b.value) h.merge };
}

impl Held {
    /// No merge, which takes no memory.
    pub(crate) fn none() -> Held
        ensures { result ≡ None }
    {
        Held { merge: None }
    }

    /// Whether there is one.
    pub(crate) fn is_some(&self) -> bool
        ensures { result ≡ is_some self.now }
    {
        self.merge.is_some()
    }

    /// The merge, if there is one.
    pub(crate) fn get(&self) -> Option<&Overlay>
        ensures { option_copied result ≡ self.now }
    {
        match &self.merge {
            Some(merge) => Some(&**merge),
            None => None,
        }
    }

    /// Has this merge from now on, for which it takes memory.
    pub(crate) fn set(&mut self, alloc: Global, merge: Overlay) -> Result<(), NoMemory>
        ensures { OnOk result (self.new ≡ Some merge) }
    {
        let boxed = Box::new(alloc, merge).map_err(|_| NoMemory)?;
        self.merge = Some(boxed);
        Ok(())
    }

    /// Takes the merge out, if there is one.
    pub(crate) fn take(&mut self) -> Option<Overlay>
        ensures merge { result ≡ self.old }
        ensures none { self.new ≡ None }
    {
        match self.merge.take() {
            Some(merge) => Some(Box::into_inner(merge)),
            None => None,
        }
    }

    /// Repairs the merge of a node of this part, whose halves both hold points. `failed` and `edits`
    /// are those of the node.
    pub(crate) fn mend<O: Signs, L: Ledger>(
        &mut self,
        work: &mut Work,
        part: u32,
        left: &Node,
        right: &Node,
        failed: &mut Vec<Placed>,
        edits: &mut Vec<ChainEdit>,
        now: &O,
        out: &mut Delta,
        steps: &mut Steps<L>,
    ) -> Result<(), NoMemory>
        requires real { IsReal (O.scene now.now) }
        requires left_some { 0 < length (chain_of left.now) }
        requires right_some { 0 < length (chain_of right.now) }
        requires told { IsSomeAnd self.old (λ m. IsMergeTold part (O.scene now.now) m failed.old.items left.now right.now) }
        ensures of { OnOk result (IsSomeAnd self.new (λ m. IsMergeOf part m (chain_of left.now) (chain_of right.now))) }
        ensures settled { OnOk result (IsSettledThere (O.scene now.now) self.new) }
        ensures leads { OnOk result (Leads edits.new.items (chain_with self.old []) (chain_with self.new [])) }
        ensures failed { OnOk result (failed.new.items ≡ []) }
        ensures changed { OnOk result (HasChanged (facts_with self.old) (facts_with self.new) out.old out.new) }
        ensures tests { OnOk result (HalvesKeepOrder self.old (chain_of left.now) (chain_of right.now) → ArePaid out.old out.new steps.old steps.new) }
    {
        let Some(merge) = &mut self.merge else {
            unreachable!()
        };
        let merge = &mut **merge;
        mend(
            merge, work, part, left, right, failed, edits, now, out, steps,
        )
    }
}
