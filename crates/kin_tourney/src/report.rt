//! The facts of the nodes, and what is reported of them.

ghost use Rattle.std.specs.Prelude.{◌≡◌, ◌<◌, ◌≤◌, ◌^◌, Some, None, length, replicate, slice_set, IfOk, OnOk};
ghost use Rattle.kin_tourney.specs.Repairs.{IsReported};
ghost use Rattle.kin_tourney.specs.Standings.{fact_in};

use crate::keyed::Keyed;
use kin_motion::fact::{Delta, Fact, Placed};
use kin_num::memory::NoMemory;
use std::alloc::Global;
use std::marker::Model;

/// The fact of each node, or none, in few bytes each.
#[derive(Drop)]
pub struct Facts<K: Keyed> {
    briefs: Vec<K::Brief>,
}

impl<K: Keyed> Model for Facts<K> {
    ghost use Rattle.std.specs.Prelude.{List, Option, map};
    ghost use Rattle.kin_motion.specs.declared.fact.Fact.{Fact as FactOf};

    ghost Value = { List (Option FactOf) };

    ghost view = { λ f. map K.fact_of f.briefs.items };
}

impl<K: Keyed> Facts<K> {
    /// So many nodes, none of which has a fact.
    pub fn new(alloc: Global, count: usize) -> Result<Facts<K>, NoMemory>
        ensures { IfOk result (λ f. f ≡ replicate count None) }
    {
        let mut briefs = Vec::with_capacity(alloc, count)?;
        for node in 0..count {
            let _ = node;
            briefs.push(K::no_fact()).map_err(|_| NoMemory)?;
        }
        Ok(Facts { briefs })
    }

    /// The fact of a node.
    #[inline(always)]
    pub fn get(&self, node: usize) -> Option<Fact>
        requires { node < length self.now }
        ensures { result ≡ fact_in self.now node }
    {
        K::fact(&self.briefs[node])
    }

    #[inline(always)]
    fn set(&mut self, node: usize, brief: K::Brief)
        requires { node < length self.old }
        ensures { self.new ≡ slice_set self.old node (K.fact_of brief) }
    {
        self.briefs[node] = brief;
    }

    /// Writes the fact of a node, and reports it where it is another one than before.
    #[inline(always)]
    pub fn tell(
        &mut self,
        node: usize,
        brief: K::Brief,
        fact: Fact,
        out: &mut Delta,
    ) -> Result<(), NoMemory>
        requires node { node < length self.old }
        requires small { length self.old ≤ 2 ^ 15 }
        requires brief { K.fact_of brief ≡ Some fact }
        ensures room { length self.new ≡ length self.old }
        ensures facts { OnOk result (self.new ≡ slice_set self.old node (Some fact)) }
        ensures reported { OnOk result (IsReported node (fact_in self.old node) (Some fact) out.old out.new) }
    {
        if K::is_same(&self.briefs[node], &brief) {
            return Ok(());
        }
        let part = node as u32;
        // Room is reserved first, so that what is reported is written straight to its place.
        if let Some(old) = self.get(node) {
            out.dropped.reserve(1)?;
            out.dropped.push_reserved(Placed { part, fact: old });
        }
        out.born.reserve(1)?;
        out.born.push_reserved(Placed { part, fact });
        self.set(node, brief);
        Ok(())
    }

    /// Takes the fact of a node away, if it has one, and reports that.
    pub fn untell(&mut self, node: usize, out: &mut Delta) -> Result<(), NoMemory>
        requires node { node < length self.old }
        requires small { length self.old ≤ 2 ^ 15 }
        ensures room { length self.new ≡ length self.old }
        ensures facts { OnOk result (self.new ≡ slice_set self.old node None) }
        ensures reported { OnOk result (IsReported node (fact_in self.old node) None out.old out.new) }
    {
        if let Some(fact) = self.get(node) {
            let part = node as u32;
            out.report_dropped(Placed { part, fact })?;
            self.set(node, K::no_fact());
        }
        Ok(())
    }
}
