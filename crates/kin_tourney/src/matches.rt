//! Matches are played again.

ghost use Rattle.std.specs.Prelude.{◌≡◌, ◌≢◌, ℕ, ◌+◌, ◌*◌, ◌/◌, ◌^◌, ◌<◌, ◌≤◌, true, false, length, slice_set, IfOk, OnOk, Some, None};
ghost use Rattle.kin_algebra.specs.declared.sign.Sign.{Sign as Signum};
ghost use Rattle.kin_motion.specs.declared.fact.Fact.{Fact as Told};
ghost use Rattle.kin_motion.specs.Forms.{IsAskable};
ghost use Rattle.kin_motion.specs.Scene.{Scene};
ghost use Rattle.kin_motion.specs.Kinetics.{HasChanged};
ghost use Rattle.kin_tourney.specs.Names.{AreLive, HoldLive};
ghost use Rattle.kin_tourney.specs.Standings.{IsTree, match_at, match_of, fact_in, doubt_in, doubt_count, placed_facts};
ghost use Rattle.kin_tourney.specs.Tournament.{mark_in};
ghost use Rattle.kin_tourney.specs.Repairs.{IsMatchSign, IsRightOnce, asked_for, needs_play, IsReplayed, IsRenewed, IsReported, IsCleared, IsDone, IsDoubtful, HasClimbed};

use crate::descent::{first_doubt, next_doubt, pass_up};
use crate::doubt::Doubt;
use crate::entry::Entry;
use crate::keyed::Keyed;
use crate::tree::Tree;
use kin_motion::fact::{Delta, Fact};
use kin_motion::signs::Signs;
use kin_num::Sign;
use kin_num::memory::NoMemory;
use kin_num::steps::Steps;
use std::sync::ledger::Ledger;

impl<K: Keyed> Tree<K> {
    /// Plays the match of two entries, the halves of a node, by the sign of their form where it is known, and reports
    /// its fact. The winner's slot is the result.
    fn meet<O: Signs, L: Ledger>(
        &mut self,
        node: usize,
        left: Entry<K::Item>,
        right: Entry<K::Item>,
        known: Option<Sign>,
        key: &K,
        now: &O,
        out: &mut Delta,
        steps: &mut Steps<L>,
    ) -> Result<Option<u32>, NoMemory>
        requires node { node < length self.old.facts }
        requires small { length self.old.facts ≤ 2 ^ 15 }
        requires left { AreLive (O.scene now.now).live (K.names left.item) }
        requires right { AreLive (O.scene now.now).live (K.names right.item) }
        requires known { (s : Signum) → known ≡ Some s → (O.scene now.now).sign ((K.key key.now).form left.item right.item) ≡ s }
        ensures same { self.new ≡ record self.old { facts = self.new.facts } }
        ensures room { length self.new.facts ≡ length self.old.facts }
        ensures value { IfOk result (λ best. (best, fact_in self.new.facts node) ≡ match_of (K.key key.now) (O.scene now.now).sign (Some left) (Some right)) }
        ensures facts { OnOk result (self.new.facts ≡ slice_set self.old.facts node (fact_in self.new.facts node)) }
        ensures reported { OnOk result (IsReported node (fact_in self.old.facts node) (fact_in self.new.facts node) out.old out.new) }
        ensures cost { steps.new ≤ steps.old + asked_for known }
    {
        let form = key.form(&left.item, &right.item);
        let sign = match known {
            Some(sign) => sign,
            None => now.sign(&form, steps),
        };
        let brief = key.brief(sign, &left.item, &right.item);
        self.facts.tell(node, brief, Fact { form, sign }, out)?;
        if key.left_wins(sign, &left.item, &right.item) {
            Ok(Some(left.slot))
        } else {
            Ok(Some(right.slot))
        }
    }

    /// Plays the match of the two halves of a node, by the sign of their form where it is known, and reports its fact.
    /// The winner's slot is the result.
    #[inline(always)]
    fn play<O: Signs, L: Ledger>(
        &mut self,
        node: usize,
        known: Option<Sign>,
        key: &K,
        now: &O,
        out: &mut Delta,
        steps: &mut Steps<L>,
    ) -> Result<Option<u32>, NoMemory>
        requires tree { IsTree self.old }
        requires node { node < length self.old.items }
        requires live { HoldLive K.names (O.scene now.now).live self.old.items }
        requires known { (s : Signum) → known ≡ Some s → IsMatchSign (K.key key.now) (O.scene now.now).sign self.old node s }
        ensures same { self.new ≡ record self.old { facts = self.new.facts } }
        ensures room { length self.new.facts ≡ length self.old.facts }
        ensures value { IfOk result (λ best. (best, fact_in self.new.facts node) ≡ match_at (K.key key.now) (O.scene now.now).sign self.old node) }
        ensures facts { OnOk result (self.new.facts ≡ slice_set self.old.facts node (fact_in self.new.facts node)) }
        ensures reported { OnOk result (IsReported node (fact_in self.old.facts node) (fact_in self.new.facts node) out.old out.new) }
        ensures cost { steps.new ≤ steps.old + asked_for known }
    {
        // One half after the other, so that an empty one returns at once.
        match self.entry(2 * node) {
            Some(left) => match self.entry(2 * node + 1) {
                Some(right) => self.meet(node, left, right, known, key, now, out, steps),
                None => {
                    self.facts.untell(node, out)?;
                    Ok(Some(left.slot))
                }
            },
            None => {
                let right = self.entry(2 * node + 1);
                self.facts.untell(node, out)?;
                match right {
                    Some(right) => Ok(Some(right.slot)),
                    None => Ok(None),
                }
            }
        }
    }

    /// Plays the match of a node again, by the sign of its form where it is known. Where its winner
    /// changes, the node above has to be played again too.
    #[inline(always)]
    fn replay<O: Signs, L: Ledger>(
        &mut self,
        node: usize,
        known: Option<Sign>,
        key: &K,
        now: &O,
        out: &mut Delta,
        steps: &mut Steps<L>,
    ) -> Result<(), NoMemory>
        requires tree { IsTree self.old }
        requires root { 0 < node }
        requires inner { node < length self.old.items }
        requires doubted { doubt_in self.old.doubts node ≢ Doubt.Clear }
        requires live { HoldLive K.names (O.scene now.now).live self.old.items }
        requires known { (s : Signum) → known ≡ Some s → IsMatchSign (K.key key.now) (O.scene now.now).sign self.old node s }
        ensures tree { IsTree self.new }
        ensures replayed { OnOk result (IsReplayed (K.key key.now) (O.scene now.now).sign node self.old self.new out.old out.new) }
        ensures cost { OnOk result (steps.new ≤ steps.old + asked_for known) }
    {
        let best = self.play(node, known, key, now, out, steps)?;
        if best != self.best.get(node) {
            self.best.set(node, best);
            self.doubts[node / 2] = Doubt::Here;
        }
        Ok(())
    }

    /// The sign of the form of a node's fact, where the fact doesn't hold.
    fn failed_sign<O: Signs, L: Ledger>(
        &self,
        node: usize,
        now: &O,
        steps: &mut Steps<L>,
    ) -> Option<Sign>
        requires node { node < length self.now.facts }
        requires askable { (f : Told) → fact_in self.now.facts node ≡ Some f → IsAskable (O.scene now.now).live f.form }
        ensures held { result ≡ None → (f : Told) → fact_in self.now.facts node ≡ Some f → (O.scene now.now).sign f.form ≡ f.sign }
        ensures failed { (s : Signum) → result ≡ Some s → (f : Told) × (fact_in self.now.facts node ≡ Some f) × ((O.scene now.now).sign f.form ≡ s) }
        ensures cost { steps.new ≤ steps.old + 1 }
    {
        let Some(fact) = self.facts.get(node) else {
            return None;
        };
        let sign = now.sign(&fact.form, steps);
        if sign == fact.sign { None } else { Some(sign) }
    }

    /// Plays the match of a node in doubt again where it has to be: where the node is in doubt itself,
    /// or where all are asked for and its fact doesn't hold.
    fn renew<O: Signs, L: Ledger>(
        &mut self,
        node: usize,
        all: bool,
        key: &K,
        now: &O,
        out: &mut Delta,
        steps: &mut Steps<L>,
    ) -> Result<(), NoMemory>
        requires tree { IsTree self.old }
        requires root { 0 < node }
        requires inner { node < length self.old.items }
        requires doubted { doubt_in self.old.doubts node ≢ Doubt.Clear }
        requires consistent { needs_play false (doubt_in self.old.doubts node) ≡ false → IsRightOnce (K.key key.now) self.old node }
        requires live { HoldLive K.names (O.scene now.now).live self.old.items }
        ensures tree { IsTree self.new }
        ensures renewed { OnOk result (IsRenewed all (K.key key.now) (O.scene now.now).sign node self.old self.new out.old out.new) }
        ensures cost { OnOk result (steps.new ≤ steps.old + 1) }
    {
        if self.is_here(node) {
            return self.replay(node, None, key, now, out, steps);
        }
        if !all {
            return Ok(());
        }
        let Some(sign) = self.failed_sign(node, now, steps) else {
            return Ok(());
        };
        self.replay(node, Some(sign), key, now, out, steps)
    }

    /// Clears a node whose halves are clear, and unmarks the slots right below it.
    fn settle_node(&mut self, node: usize)
        requires tree { IsTree self.old }
        requires root { 0 < node }
        requires inner { node < length self.old.items }
        requires halves { (v : ℕ) → 0 < v → v / 2 ≡ node → doubt_in self.old.doubts v ≡ Doubt.Clear }
        ensures tree { IsTree self.new }
        ensures cleared { IsCleared node self.old self.new }
    {
        unmark_below(&mut self.marked, node);
        self.doubts[node] = Doubt::Clear;
    }

    /// Unless all are asked for, clears the nodes above one that is clear as far as only the way leads
    /// through them. Answers the last one.
    #[inline(always)]
    fn climb(&mut self, all: bool, node: usize) -> usize
        requires tree { IsTree self.old }
        requires done { IsDone self.old.doubts node }
        ensures same { self.new ≡ record self.old { doubts = self.new.doubts } }
        ensures climbed { (count : ℕ) × (all ≡ true → count ≡ 0) × HasClimbed count self.old.doubts node self.new.doubts result }
    {
        if all {
            return node;
        }
        pass_up(&mut self.doubts, node)
    }

    /// `repair`, where nodes are in doubt.
    #[inline(always)]
    fn repair_doubts<O: Signs, L: Ledger>(
        &mut self,
        all: bool,
        key: &K,
        now: &O,
        out: &mut Delta,
        steps: &mut Steps<L>,
    ) -> Result<(), NoMemory>
        requires doubtful { IsDoubtful all (K.key key.now) (O.scene now.now).sign self.old }
        requires some { 1 ≤ self.old.size }
        requires live { HoldLive K.names (O.scene now.now).live self.old.items }
        ensures tree { IsTree self.new }
        ensures same_size { OnOk result (self.new.size ≡ self.old.size) }
        ensures same_items { OnOk result (self.new.items ≡ self.old.items) }
        ensures known { OnOk result (IsDoubtful all (K.key key.now) (O.scene now.now).sign self.new) }
        ensures clear { OnOk result ((v : ℕ) → 0 < v → doubt_in self.new.doubts v ≡ Doubt.Clear) }
        ensures delta { OnOk result (HasChanged (placed_facts self.old) (placed_facts self.new) out.old out.new) }
        ensures cost { OnOk result (steps.new + 1 ≤ steps.old + doubt_count self.old.doubts) }
    {
        let mut node = first_doubt(&self.doubts, self.latest);
        while node > 0 {
            self.renew(node, all, key, now, out, steps)?;
            self.settle_node(node);
            node = self.climb(all, node);
            node = next_doubt(&self.doubts, node);
        }
        Ok(())
    }

    /// Plays the matches again that are in doubt themselves, and with `all` those in doubt whose facts
    /// don't hold, the halves of a node before the node. The doubts lead the way, and only nodes in doubt are visited.
    pub fn repair<O: Signs, L: Ledger>(
        &mut self,
        all: bool,
        key: &K,
        now: &O,
        out: &mut Delta,
        steps: &mut Steps<L>,
    ) -> Result<(), NoMemory>
        requires doubtful { IsDoubtful all (K.key key.now) (O.scene now.now).sign self.old }
        requires some { 1 ≤ self.old.size }
        requires live { HoldLive K.names (O.scene now.now).live self.old.items }
        ensures tree { IsTree self.new }
        ensures same_size { OnOk result (self.new.size ≡ self.old.size) }
        ensures same_items { OnOk result (self.new.items ≡ self.old.items) }
        ensures known { OnOk result (IsDoubtful all (K.key key.now) (O.scene now.now).sign self.new) }
        ensures clear { OnOk result ((v : ℕ) → 0 < v → doubt_in self.new.doubts v ≡ Doubt.Clear) }
        ensures delta { OnOk result (HasChanged (placed_facts self.old) (placed_facts self.new) out.old out.new) }
        ensures cost { OnOk result (steps.new + 1 ≤ steps.old + doubt_count self.old.doubts) }
    {
        if self.is_untouched() {
            return Ok(());
        }
        self.repair_doubts(all, key, now, out, steps)
    }
}

/// Unmarks the slots right below a node.
fn unmark_below(marked: &mut Vec<bool>, node: usize)
    requires inner { node < length marked.old.items }
    requires even { length marked.old.items ≢ 2 * node + 1 }
    requires small { length marked.old.items ≤ 2 ^ 15 }
    ensures room { length marked.new.items ≡ length marked.old.items }
    ensures unmarked { (i : ℕ) → (length marked.old.items + i) / 2 ≡ node → mark_in marked.new.items i ≡ false }
    ensures kept { (i : ℕ) → (length marked.old.items + i) / 2 ≢ node → mark_in marked.new.items i ≡ mark_in marked.old.items i }
{
    let left = 2 * node;
    if left >= marked.len() {
        let slot = left - marked.len();
        marked[slot] = false;
        marked[slot + 1] = false;
    }
}
