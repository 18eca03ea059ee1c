//! The merge as its callers see it.

ghost use Rattle.std.specs.Prelude.{◌≡◌, ◌≢◌, ◌+◌, ◌*◌, ◌<◌, ◌≤◌, [], length, IfOk, IsOk, OnOk, OnErr};
ghost use Rattle.kin_motion.specs.Chains.{IsUpperChain};
ghost use Rattle.kin_motion.specs.Edits.{all_edited, AreFitting};
ghost use Rattle.kin_motion.specs.Kinetics.{ListsFailing, HasChanged};
ghost use Rattle.kin_motion.specs.Scene.{IsReal};
ghost use Rattle.kin_overlay.specs.declared.half.Half.TheVariants.{A, B};
ghost use Rattle.kin_overlay.specs.declared.stage.Stage.TheVariants.{Broken};
ghost use Rattle.kin_overlay.specs.Diffs.{KeepOrder, ArePutApart};
ghost use Rattle.kin_overlay.specs.Fingers.{AreLive, AreLess};
ghost use Rattle.kin_overlay.specs.Walks.{chain_read};
ghost use Rattle.kin_overlay.specs.Overlays.{told, told_chain, names_any, names_gone, ArePutsApart, IsUnedited, IsReady, IsAtRest, IsSettled, IsSameMerge, IsRepaired};

use crate::edit::{Chain, ChainEdit};
use crate::half::Half;
use crate::list::BreakpointList;
use crate::names::names_any;
use crate::notes::Pad;
use crate::reading::renew;
use crate::report::tell_missing;
use crate::shared::Shared;
use crate::sketch::Puts;
use crate::stage::Stage;
use crate::standing::Standing;
use crate::walk::merged_chain;
use crate::work::Work;
use kin_motion::fact::{Delta, Placed};
use kin_motion::kinetic::Kinetic;
use kin_motion::signs::Signs;
use kin_num::memory::NoMemory;
use kin_num::steps::Steps;
use std::alloc::Global;
use std::marker::Model;
use std::mem::swap;
use std::sync::ledger::Ledger;

/// The upper chain of the points of two given upper chains, every number of A less than every number
/// of B.
#[derive(Drop)]
pub struct Overlay {
    alloc: Global,
    /// The part of its facts.
    part: u32,
    /// The given chains.
    a: Chain,
    b: Chain,
    /// The breakpoints with what is remembered, as they were settled last.
    list: BreakpointList,
    /// The merged chain.
    chain: Chain,
    /// From the merged chain before the last `settle` to the present one, unless they were swapped.
    edits: Vec<ChainEdit>,
    /// Of the waiting edits.
    notes: Pad,
    stage: Stage,
}

/// A copy of a chain.
fn copied(alloc: Global, chain: &[u32]) -> Result<Chain, NoMemory>
    ensures { IfOk result (λ v. v.items ≡ chain.now) }
{
    Ok(Chain::from_slice(alloc, chain)?)
}

/// The chain that is read off a list. `points` is a buffer, whose content is lost.
fn read_chain(
    alloc: Global,
    list: &BreakpointList,
    points: &mut Vec<u32>,
) -> Result<Chain, NoMemory>
    ensures { IfOk result (λ v. v.items ≡ chain_read list.now) }
{
    merged_chain(list, points)?;
    copied(alloc, points)
}

impl Model for Overlay {
    ghost use Rattle.kin_overlay.specs.Overlays.{Merge};
    ghost use Rattle.kin_overlay.specs.Remembered.{facts_of, all_placed};
    ghost use Rattle.kin_overlay.specs.Sound.{IsSound, UnlessBroken};

    ghost Value = { Merge };

    ghost view = { λ o. record { part = o.part; a = o.a.items; b = o.b.items; facts = all_placed o.part (facts_of o.list); chain = o.chain.items; edits = o.edits.items; gone = o.notes.gone; put_a = o.notes.put_a; put_b = o.notes.put_b; drop_a = o.notes.drop_a; drop_b = o.notes.drop_b; stage = o.stage } };

    ghost invariant = { λ o. UnlessBroken o.stage (IsSound o.part o.list o.chain.items o.notes.put_a o.notes.put_b o.notes.drop_a o.notes.drop_b o.notes.gone o.a.items o.b.items) };
}

impl Overlay {
    /// The merge of two upper chains of live points, neither of them empty. Every number of the first
    /// is less than every number of the second. Its facts are in this part. On `Ok` all are reported
    /// as born, and at most five signs were asked for each. `work` is memory for it.
    pub fn build<O: Signs, L: Ledger>(
        alloc: Global,
        work: &mut Work,
        a: &[u32],
        b: &[u32],
        part: u32,
        now: &O,
        out: &mut Delta,
        steps: &mut Steps<L>,
    ) -> Result<Overlay, NoMemory>
        requires real { IsReal (O.scene now.now) }
        requires a_some { 0 < length a.now }
        requires b_some { 0 < length b.now }
        requires a_live { AreLive (O.scene now.now).live a.now }
        requires b_live { AreLive (O.scene now.now).live b.now }
        requires a_chain { IsUpperChain (O.scene now.now) a.now a.now }
        requires b_chain { IsUpperChain (O.scene now.now) b.now b.now }
        requires less { AreLess a.now b.now }
        ensures a { IfOk result (λ m. m.a ≡ a.now) }
        ensures b { IfOk result (λ m. m.b ≡ b.now) }
        ensures part { IfOk result (λ m. m.part ≡ part) }
        ensures rest { IfOk result IsAtRest }
        ensures settled { IfOk result (λ m. IsSettled m (O.scene now.now)) }
        ensures edits { IfOk result (λ m. m.edits ≡ []) }
        ensures gone { IfOk result (λ m. m.gone ≡ []) }
        ensures unedited { IfOk result IsUnedited }
        ensures born { IfOk result (λ m. HasChanged [] m.facts out.old out.new) }
        ensures tests { IsOk result → steps.new + 5 * length out.old.born ≤ steps.old + 5 * length out.new.born }
    {
        let room = a.len().saturating_add(b.len());
        // A chain has one breakpoint fewer than points. Where there is one more may come.
        let count = room.saturating_sub(2);
        let mut list = BreakpointList::with_room(alloc, count.saturating_mul(2))?;
        let none = BreakpointList::new(alloc);
        let standing = Standing {
            list: &none,
            failed: &[],
            gone: &[],
        };
        let puts = Puts { a: &[], b: &[] };
        list.merge(a, b, puts, &standing, &mut work.drawing, now, steps)?;
        tell_missing(&list, &none, Shared::none(), part, &mut out.born)?;
        let chain = read_chain(alloc, &list, &mut work.points)?;
        Ok(Overlay {
            alloc,
            part,
            a: copied(alloc, a)?,
            b: copied(alloc, b)?,
            list,
            chain,
            edits: Vec::new(alloc),
            notes: Pad::none(),
            stage: Stage::Rest,
        })
    }

    /// Takes the edits by which the chain of a half has changed. They have to fit it, and after them
    /// every number of A has to be less than every number of B. The next `settle` takes them into the
    /// merge. After want of memory the overlay can only be dropped.
    pub fn edit(&mut self, half: Half, edits: &[ChainEdit]) -> Result<(), NoMemory>
        requires whole { self.old.stage ≢ Broken }
        requires fit { AreFitting edits.now (told_chain half self.old) }
        requires less { AreLess (told half edits.now self.old).a (told half edits.now self.old).b }
        ensures told { OnOk result (self.new ≡ told half edits.now self.old) }
        ensures broken { OnErr result (self.new.stage ≡ Broken) }
    {
        match half {
            Half::A => self.edit_a(edits),
            Half::B => self.edit_b(edits),
        }
    }

    fn edit_a(&mut self, edits: &[ChainEdit]) -> Result<(), NoMemory>
        requires whole { self.old.stage ≢ Broken }
        requires fit { AreFitting edits.now self.old.a }
        requires less { AreLess (all_edited edits.now self.old.a) self.old.b }
        ensures told { OnOk result (self.new ≡ told A edits.now self.old) }
        ensures broken { OnErr result (self.new.stage ≡ Broken) }
    {
        self.stage = Stage::Broken;
        self.notes.edit_a(self.alloc, edits, &mut self.a)?;
        self.stage = Stage::Told;
        Ok(())
    }

    fn edit_b(&mut self, edits: &[ChainEdit]) -> Result<(), NoMemory>
        requires whole { self.old.stage ≢ Broken }
        requires fit { AreFitting edits.now self.old.b }
        requires less { AreLess self.old.a (all_edited edits.now self.old.b) }
        ensures told { OnOk result (self.new ≡ told B edits.now self.old) }
        ensures broken { OnErr result (self.new.stage ≡ Broken) }
    {
        self.stage = Stage::Broken;
        self.notes.edit_b(self.alloc, edits, &mut self.b)?;
        self.stage = Stage::Told;
        Ok(())
    }

    /// Takes the waiting edits into the merge and repairs what has failed, as `settle` does, in these
    /// buffers. After want of memory the overlay can only be dropped.
    pub fn repair<O: Signs, L: Ledger>(
        &mut self,
        work: &mut Work,
        now: &O,
        failed: &[Placed],
        out: &mut Delta,
        steps: &mut Steps<L>,
    ) -> Result<(), NoMemory>
        requires real { IsReal (O.scene now.now) }
        requires ready { IsReady self.old (O.scene now.now) }
        requires failing { ListsFailing self.old.facts (names_gone self.old) (O.scene now.now) failed.now }
        ensures repaired { OnOk result (IsRepaired (O.scene now.now) self.old self.new out.old out.new steps.old steps.new) }
        ensures broken { OnErr result (self.new.stage ≡ Broken) }
    {
        self.stage = Stage::Broken;
        let standing = Standing {
            list: &self.list,
            failed,
            gone: self.notes.gone(),
        };
        let puts = Puts {
            a: self.notes.put_a(),
            b: self.notes.put_b(),
        };
        let (made, drawing) = (&mut work.list, &mut work.drawing);
        let known = made.repair(
            self.a.as_slice(),
            self.b.as_slice(),
            puts,
            &standing,
            drawing,
            now,
            steps,
        )?;
        let shared = Shared::between(&self.list, &work.list, known);
        let (old, new) = (&self.list, &work.list);
        tell_missing(old, new, shared, self.part, &mut out.dropped)?;
        tell_missing(new, old, shared, self.part, &mut out.born)?;
        let same = shared.with_ends(old, new);
        let (chain, edits) = (&mut self.chain, &mut self.edits);
        renew(
            self.alloc,
            new,
            same,
            chain,
            edits,
            &mut work.points,
            &mut work.spare,
        )?;
        self.list.copy(&work.list)?;
        self.notes.clear();
        self.stage = Stage::Rest;
        Ok(())
    }

    /// Ends a merge at rest, and reports all its facts as dropped. After want of memory it is ended
    /// too, and some facts may not be reported.
    pub fn retire(self, out: &mut Delta) -> Result<(), NoMemory>
        requires rest { IsAtRest self }
        ensures dropped { OnOk result (HasChanged self.facts [] out.old out.new) }
    {
        let none = BreakpointList::new(self.alloc);
        let shared = Shared::none();
        tell_missing(&self.list, &none, shared, self.part, &mut out.dropped)?;
        Ok(())
    }

    /// The merged chain as it was settled last.
    pub fn chain(&self) -> &[u32]
        requires rest { IsAtRest self.now }
        ensures { result.now ≡ self.now.chain }
    {
        self.chain.as_slice()
    }

    /// The edits that lead from the chain before the last `settle` to the present one. After
    /// `swap_edits` they are what the caller gave.
    pub fn edits(&self) -> &[ChainEdit]
        requires rest { IsAtRest self.now }
        ensures { result.now ≡ self.now.edits }
    {
        &self.edits
    }

    /// Swaps these edits with a list of the caller, so that nothing is copied.
    pub fn swap_edits(&mut self, edits: &mut Vec<ChainEdit>)
        ensures merge { self.new ≡ record self.old { edits = edits.old.items } }
        ensures edits { edits.new.items ≡ self.old.edits }
    {
        swap(&mut self.edits, edits);
    }

    /// Exchanges the memory in which it notes edits with that of these buffers, unless an edit waits. So
    /// merges that are repaired one after another share it: each exchanges before its edits, and again
    /// after its repair.
    pub fn trade_memory(&mut self, work: &mut Work)
        ensures { self.new ≡ self.old }
    {
        if self.notes.are_blank() {
            work.notes.clear();
            swap(&mut self.notes, &mut work.notes);
        }
    }

    /// Whether a fact names a number that a waiting edit drops.
    pub fn spares(&self, fact: &Placed) -> bool
        ensures { result ≡ names_gone self.now fact.now }
    {
        names_any(&fact.fact.form, self.notes.gone())
    }
}

impl Kinetic for Overlay {
    ghost use Rattle.kin_overlay.specs.Overlays.{names_gone, IsReady, IsAtRest, IsSettled, AreChains};
    ghost use Rattle.kin_overlay.specs.OverlayLaws.{determined_lem};

    ghost facts = { λ m. m.facts };

    ghost is_spared = { names_gone };

    ghost ready = { IsReady };

    ghost at_rest = { IsAtRest };

    ghost settled = { IsSettled };

    ghost grounded = { AreChains };

    ghost determined = { determined_lem };

    fn settle<O: Signs, L: Ledger>(
        &mut self,
        now: &O,
        failed: &[Placed],
        out: &mut Delta,
        steps: &mut Steps<L>,
    ) -> Result<(), NoMemory>
        requires real { IsReal (O.scene now.now) }
        requires ready { IsReady self.old (O.scene now.now) }
        requires failing { ListsFailing self.old.facts (names_gone self.old) (O.scene now.now) failed.now }
        ensures rest { OnOk result (IsAtRest self.new) }
        ensures settled { OnOk result (IsSettled self.new (O.scene now.now)) }
        ensures delta { OnOk result (HasChanged self.old.facts self.new.facts out.old out.new) }

        // The edits lead from the old chain to the new one.
        ensures lead { OnOk result (all_edited self.new.edits self.old.chain ≡ self.new.chain) }
        ensures fit { OnOk result (AreFitting self.new.edits self.old.chain) }
        ensures apart { OnOk result (KeepOrder self.old.chain self.new.chain → ArePutApart self.new.edits self.old.chain) }

        // What is unchanged; no edit waits any more.
        ensures same { OnOk result (IsSameMerge self.old self.new) }
        ensures gone { OnOk result (self.new.gone ≡ []) }
        ensures unedited { OnOk result (IsUnedited self.new) }

        // Where the waiting edits of each half put no number that they drop, at most five signs are
        // asked for each fact that is born and at most one for each that is dropped.
        ensures tests { OnOk result (ArePutsApart self.old → steps.new + (5 * length out.old.born + length out.old.dropped) ≤ steps.old + (5 * length out.new.born + length out.new.dropped)) }

        // After want of memory it can only be dropped.
        ensures broken { OnErr result (self.new.stage ≡ Broken) }
    {
        let mut work = Work::new(self.alloc);
        self.repair(&mut work, now, failed, out, steps)
    }
}
