//! One node of the tree: the merge of its halves, or the chain of the half that isn't empty.

ghost use Rattle.std.specs.Prelude.{◌≡◌, ◌≢◌, ◌<◌, not, [], ◌∷◌, ◌++◌, length, filter, Some, None, OnOk, IsTrue};
ghost use Rattle.kin_motion.specs.Kinetics.{HasChanged};
ghost use Rattle.kin_motion.specs.Scene.{IsReal};
ghost use Rattle.kin_overlay.specs.Diffs.{KeepOrder};
ghost use Rattle.kin_overlay.specs.Overlays.{names_gone, IsAtRest, IsSettled};
ghost use Rattle.kin_env.specs.Nodes.{chain_of, facts_with};
ghost use Rattle.kin_env.specs.Joints.{Leads, IsMergeOf, IsJoint, IsSettledThere, AreHalves, IsMergeTold, IsTold, IsVisited, IsRestingWith, HalvesKeepOrder, ArePaid};

use crate::held::Held;
use kin_motion::fact::{Delta, Placed};
use kin_motion::signs::Signs;
use kin_num::memory::NoMemory;
use kin_num::steps::Steps;
use kin_overlay::diff::diff;
use kin_overlay::edit::ChainEdit;
use kin_overlay::half::Half;
use kin_overlay::overlay::Overlay;
use kin_overlay::work::Work;
use smallvec::SmallVec;
use std::alloc::Global;
use std::mem::swap;
use std::sync::ledger::Ledger;

/// A node of the tree. A leaf passes on its own number, or nothing.
#[derive(Drop)]
pub struct Node {
    /// The merge of both halves, where neither is empty.
    pub merge: Held,
    /// Where there is no merge, the chain that is passed on.
    pub passed: SmallVec<u32, 4>,
    /// How the chain has changed, until the node above has taken it in.
    pub edits: Vec<ChainEdit>,
    /// The facts of the merge that have failed, until the node is visited.
    pub failed: Vec<Placed>,
}

impl Node {
    /// A node without points.
    pub fn new(alloc: Global) -> Node
        ensures merge { result.merge ≡ None }
        ensures passed { result.passed.items ≡ [] }
        ensures edits { result.edits.items ≡ [] }
        ensures failed { result.failed.items ≡ [] }
    {
        Node {
            merge: Held::none(),
            passed: SmallVec::new(alloc),
            edits: Vec::new(alloc),
            failed: Vec::new(alloc),
        }
    }

    /// The upper chain of the points under the node.
    pub fn chain(&self) -> &[u32]
        requires rest { IsRestingWith self.now.merge }
        ensures { result.now ≡ chain_of self.now }
    {
        match self.merge.get() {
            Some(merge) => merge.chain(),
            None => self.passed.as_slice(),
        }
    }

    /// Keeps a failed fact until the node is visited.
    pub fn keep_failed(&mut self, fact: Placed) -> Result<(), NoMemory>
        ensures merge { self.new.merge ≡ self.old.merge }
        ensures passed { self.new.passed.items ≡ self.old.passed.items }
        ensures edits { self.new.edits.items ≡ self.old.edits.items }
        ensures failed { OnOk result (self.new.failed.items ≡ self.old.failed.items ++ fact ∷ []) }
    {
        self.failed.push(fact).map_err(|_| NoMemory)?;
        Ok(())
    }

    /// Hands another chain on, where there is no merge. `work` is memory for it.
    #[inline(always)]
    pub fn hand_on(&mut self, work: &mut Work, alloc: Global, chain: &[u32]) -> Result<(), NoMemory>
        requires none { self.old.merge ≡ None }
        ensures merge { self.new.merge ≡ None }
        ensures passed { OnOk result (self.new.passed.items ≡ chain.now) }
        ensures leads { OnOk result (Leads self.new.edits.items self.old.passed.items self.new.passed.items) }
        ensures failed { self.new.failed.items ≡ self.old.failed.items }
    {
        work.lend(&mut self.edits);
        diff(alloc, self.passed.as_slice(), chain, &mut self.edits)?;
        self.passed.clear();
        self.passed.extend_from_slice(chain)?;
        Ok(())
    }

    /// True only if there is no merge, and this half held no point and holds none.
    #[inline(always)]
    pub fn goes_without(&self, half: &Node) -> bool
        requires rest { IsRestingWith half.now.merge }
        ensures none { IsTrue result → self.now.merge ≡ None }
        ensures quiet { IsTrue result → half.now.edits.items ≡ [] }
        ensures empty { IsTrue result → chain_of half.now ≡ [] }
    {
        !self.merge.is_some() && half.edits.is_empty() && half.chain().is_empty()
    }

    /// Goes on passing on the chain of a half, where there is no merge. The edits of the half lead there: they become
    /// those of the node.
    #[inline(always)]
    pub fn follow(&mut self, work: &mut Work, half: &mut Node) -> Result<(), NoMemory>
        requires rest { IsRestingWith half.old.merge }
        ensures merge { self.new.merge ≡ self.old.merge }
        ensures passed { OnOk result (self.new.passed.items ≡ chain_of half.old) }
        ensures edits { self.new.edits.items ≡ half.old.edits.items }
        ensures failed { self.new.failed.items ≡ self.old.failed.items }
        ensures half { half.new ≡ record half.old { edits = half.new.edits } }
        ensures taken { half.new.edits.items ≡ [] }
    {
        swap(&mut self.edits, &mut half.edits);
        work.take_back(&mut half.edits);
        self.passed.clear();
        self.passed.extend_from_slice(half.chain())?;
        Ok(())
    }

    /// Begins the merge, where both halves hold a point from now on.
    fn join<O: Signs, L: Ledger>(
        &mut self,
        work: &mut Work,
        alloc: Global,
        part: u32,
        a: &[u32],
        b: &[u32],
        now: &O,
        out: &mut Delta,
        steps: &mut Steps<L>,
    ) -> Result<(), NoMemory>
        requires real { IsReal (O.scene now.now) }
        requires none { self.old.merge ≡ None }
        requires a_some { 0 < length a.now }
        requires b_some { 0 < length b.now }
        requires halves { AreHalves (O.scene now.now) a.now b.now }
        ensures joint { OnOk result (IsJoint part self.new.merge self.new.passed.items a.now b.now) }
        ensures now { OnOk result (IsSettledThere (O.scene now.now) self.new.merge) }
        ensures leads { OnOk result (Leads self.new.edits.items self.old.passed.items (chain_of self.new)) }
        ensures failed { OnOk result (self.new.failed.items ≡ self.old.failed.items) }
        ensures changed { OnOk result (HasChanged [] (facts_with self.new.merge) out.old out.new) }
        ensures tests { OnOk result (ArePaid out.old out.new steps.old steps.new) }
    {
        let merge = Overlay::build(alloc, work, a, b, part, now, out, steps)?;
        self.begin(work, alloc, merge)
    }

    /// Has this merge from now on, in place of the chain that was passed on.
    fn begin(&mut self, work: &mut Work, alloc: Global, merge: Overlay) -> Result<(), NoMemory>
        requires rest { IsAtRest merge }
        ensures taken { OnOk result (self.new.merge ≡ Some merge) }
        ensures leads { OnOk result (Leads self.new.edits.items self.old.passed.items merge.chain) }
        ensures failed { OnOk result (self.new.failed.items ≡ self.old.failed.items) }
    {
        work.lend(&mut self.edits);
        let passed = self.passed.as_slice();
        diff(alloc, passed, merge.chain(), &mut self.edits)?;
        self.passed = SmallVec::new(alloc);
        self.merge.set(alloc, merge)
    }

    /// Ends the merge, where only one half holds points from now on, or neither does.
    fn end_merge(
        &mut self,
        work: &mut Work,
        alloc: Global,
        chain: &[u32],
        out: &mut Delta,
    ) -> Result<(), NoMemory>
        requires some { self.old.merge ≢ None }
        requires rest { IsRestingWith self.old.merge }
        ensures merge { OnOk result (self.new.merge ≡ None) }
        ensures passed { OnOk result (self.new.passed.items ≡ chain.now) }
        ensures leads { OnOk result (Leads self.new.edits.items (chain_of self.old) chain.now) }
        ensures failed { OnOk result (self.new.failed.items ≡ []) }
        ensures changed { OnOk result (HasChanged (facts_with self.old.merge) [] out.old out.new) }
    {
        let Some(merge) = self.merge.get() else {
            unreachable!()
        };
        work.lend(&mut self.edits);
        diff(alloc, merge.chain(), chain, &mut self.edits)?;
        self.passed.clear();
        self.passed.extend_from_slice(chain)?;
        self.failed.clear();
        self.retire(out)
    }

    /// Lets the merge go, if there is one. Its facts are reported as dropped.
    fn retire(&mut self, out: &mut Delta) -> Result<(), NoMemory>
        requires rest { IsRestingWith self.old.merge }
        ensures same { self.new ≡ record self.old { merge = None } }
        ensures changed { OnOk result (HasChanged (facts_with self.old.merge) [] out.old out.new) }
    {
        match self.merge.take() {
            Some(merge) => merge.retire(out),
            None => Ok(()),
        }
    }

    /// Passes a chain on from now on, where only one half holds points, or neither does.
    #[inline(always)]
    fn keep_one(
        &mut self,
        work: &mut Work,
        alloc: Global,
        chain: &[u32],
        out: &mut Delta,
    ) -> Result<(), NoMemory>
        requires rest { IsRestingWith self.old.merge }
        requires idle { self.old.merge ≡ None → self.old.failed.items ≡ [] }
        ensures merge { OnOk result (self.new.merge ≡ None) }
        ensures passed { OnOk result (self.new.passed.items ≡ chain.now) }
        ensures leads { OnOk result (Leads self.new.edits.items (chain_of self.old) chain.now) }
        ensures failed { OnOk result (self.new.failed.items ≡ []) }
        ensures changed { OnOk result (HasChanged (facts_with self.old.merge) [] out.old out.new) }
    {
        if self.merge.is_some() {
            return self.end_merge(work, alloc, chain, out);
        }
        self.hand_on(work, alloc, chain)
    }

    /// Takes in what has changed of the halves, and repairs what has failed. `work` is memory for it.
    pub fn visit<O: Signs, L: Ledger>(
        &mut self,
        work: &mut Work,
        alloc: Global,
        part: u32,
        left: &Node,
        right: &Node,
        now: &O,
        out: &mut Delta,
        steps: &mut Steps<L>,
    ) -> Result<(), NoMemory>
        requires real { IsReal (O.scene now.now) }
        requires left_rest { IsRestingWith left.now.merge }
        requires right_rest { IsRestingWith right.now.merge }
        requires told { IsTold part (O.scene now.now) self.old left.now right.now }
        ensures visited { OnOk result (IsVisited part (O.scene now.now) self.old self.new left.now right.now out.old out.new) }
        ensures tests { OnOk result (HalvesKeepOrder self.old.merge (chain_of left.now) (chain_of right.now) → ArePaid out.old out.new steps.old steps.new) }
    {
        let (a, b) = (left.chain(), right.chain());
        if a.is_empty() {
            return self.keep_one(work, alloc, b, out);
        }
        if b.is_empty() {
            return self.keep_one(work, alloc, a, out);
        }
        if self.merge.is_some() {
            let (failed, edits) = (&mut self.failed, &mut self.edits);
            return self
                .merge
                .mend(work, part, left, right, failed, edits, now, out, steps);
        }
        self.join(work, alloc, part, a, b, now, out, steps)
    }
}

/// Repairs a merge whose halves both hold points. `part` is its part. The merge makes its edits in the
/// memory of those of the node.
pub(crate) fn mend<O: Signs, L: Ledger>(
    merge: &mut Overlay,
    work: &mut Work,
    part: u32,
    left: &Node,
    right: &Node,
    failed: &mut Vec<Placed>,
    edits: &mut Vec<ChainEdit>,
    now: &O,
    out: &mut Delta,
    steps: &mut Steps<L>,
) -> Result<(), NoMemory>
    requires real { IsReal (O.scene now.now) }
    requires left_some { 0 < length (chain_of left.now) }
    requires right_some { 0 < length (chain_of right.now) }
    requires told { IsMergeTold part (O.scene now.now) merge.old failed.old.items left.now right.now }
    ensures of { OnOk result (IsMergeOf part merge.new (chain_of left.now) (chain_of right.now)) }
    ensures settled { OnOk result (IsSettled merge.new (O.scene now.now)) }
    ensures leads { OnOk result (Leads edits.new.items merge.old.chain merge.new.chain) }
    ensures failed { OnOk result (failed.new.items ≡ []) }
    ensures changed { OnOk result (HasChanged merge.old.facts merge.new.facts out.old out.new) }
    ensures tests { OnOk result (KeepOrder merge.old.a (chain_of left.now) → KeepOrder merge.old.b (chain_of right.now) → ArePaid out.old out.new steps.old steps.new) }
{
    work.lend(edits);
    merge.trade_memory(work);
    merge.edit(Half::A, &left.edits)?;
    merge.edit(Half::B, &right.edits)?;
    leave_out_spared(merge, failed);
    merge.swap_edits(edits);
    merge.repair(work, now, failed, out, steps)?;
    merge.swap_edits(edits);
    merge.trade_memory(work);
    work.reclaim(edits);
    failed.clear();
    Ok(())
}

/// Leaves out the facts that name a number that a waiting edit drops.
fn leave_out_spared(merge: &Overlay, failed: &mut Vec<Placed>)
    ensures { failed.new.items ≡ filter (λ p. not (names_gone merge.now p)) failed.old.items }
{
    failed.retain(|fact| !merge.spares(fact));
}
