//! A small table with all its facts at hand.

ghost use Rattle.std.specs.Prelude.{◌≡◌, ◌<◌, ◌^◌, [], unsigned_abs, Contains, IsTrue, OnOk, IfOk};
ghost use Rattle.std.specs.List.{All};
ghost use Rattle.kin_motion.specs.Course.{live_of};
ghost use Rattle.kin_motion.specs.Forms.{IsAskable};
ghost use Rattle.kin_motion.specs.Numbers.{IsIn};
ghost use Rattle.kin_motion.specs.Scene.{scene_at, Holds};
ghost use Rattle.kin_cert.specs.Applied.{IsOf};
ghost use Rattle.kin_cert.specs.Facts.{LiveFact};
ghost use Rattle.kin_cert_cases.specs.Listed.{AreListed};

use crate::moments::moment;
use kin_cert::{Plan, Table};
use kin_fail::{Now, Owned};
use kin_motion::fact::{Delta, Fact, Placed};
use kin_motion::form::Form;
use kin_motion::motion::Motions;
use kin_motion::signs::Signs;
use kin_num::{Moment, NoMemory, Phase, Steps};
use std::alloc::Global;
use std::sync::ledger::{Blank, Ledger};

fn is_live(motions: &Motions, number: u32) -> bool
    ensures { IsTrue result → IsIn number (live_of motions.now) }
{
    motions.get(number).is_some()
}

/// Whether it is a form of these tests, which may be asked for.
fn is_askable(form: &Form, motions: &Motions) -> bool
    ensures { IsTrue result → IsAskable (live_of motions.now) form.now }
{
    match *form {
        Form::Line {
            dx: 1,
            dy: 0,
            off: 0,
            i,
            j,
        } => is_live(motions, i) && is_live(motions, j),
        Form::Dist { i, j, k, l } => {
            is_live(motions, i) && is_live(motions, j) && is_live(motions, k) && is_live(motions, l)
        }
        _ => false,
    }
}

/// Whether the fact may be asked for, and holds now.
fn holds<L: Ledger>(fact: &Fact, motions: &Motions, now: &Moment, steps: &mut Steps<L>) -> bool
    ensures askable { IsTrue result → IsAskable (live_of motions.now) fact.now.form }
    ensures hold { IsTrue result → Holds (scene_at motions.now now.now) fact.now }
{
    if !is_askable(&fact.form, motions) {
        return false;
    }
    let sign = Now {
        motions,
        moment: now,
    }
    .sign(&fact.form, steps);
    sign == fact.sign
}

/// Whether each of these facts may be asked for and holds now.
fn all_hold<L: Ledger>(
    facts: &[Placed],
    motions: &Motions,
    now: &Moment,
    steps: &mut Steps<L>,
) -> bool
    ensures askable { IsTrue result → All (λ p. IsAskable (live_of motions.now) p.fact.form) facts.now }
    ensures hold { IsTrue result → All (λ p. Holds (scene_at motions.now now.now) p.fact) facts.now }
{
    for placed in facts {
        if !holds(&placed.fact, motions, now, steps) {
            return false;
        }
    }
    true
}

/// Bears one fact and also lists it.
fn bear_listed<L: Ledger>(
    alloc: Global,
    table: &mut Table,
    facts: &mut Vec<Placed>,
    placed: Placed,
    motions: &Motions,
    now: &Moment,
    steps: &mut Steps<L>,
) -> Result<(), NoMemory>
    requires free { (l : LiveFact) → Contains table.old.live l → ¬ (IsOf 0 placed l) }
    requires askable { IsAskable (live_of motions.now) placed.fact.form }
    requires holds { Holds (scene_at motions.now now.now) placed.fact }
    requires listed { AreListed table.old.live facts.old.items }
    ensures { OnOk result (AreListed table.new.live facts.new.items) }
{
    facts.reserve(1)?;
    facts.push_reserved(placed);
    let mut delta = Delta::new(alloc);
    delta.report_born(placed)?;
    table.apply(0, &delta, motions, now, steps)?;
    Ok(())
}

/// The seats of a table.
#[derive(Clone, Copy, Debug)]
pub enum Seats {
    /// The table has no plan.
    None,
    /// It has seats in so many lists of the numbers below `2^size`, and in so many nodes.
    Planned { size: u32, lists: u32, nodes: u32 },
    /// It has seats in so many lists of two parts of the numbers below `2^size`.
    Pairs { size: u32, lists: u32 },
    /// It has seats in so many rows of merges of the numbers below `2^size`.
    Merges { size: u32, rows: u32 },
}

// A table without facts, with these seats.
fn table_with(alloc: Global, seats: Seats) -> Result<Table, NoMemory>
    ensures { IfOk result (λ t. t.live ≡ []) }
{
    match seats {
        Seats::None => Ok(Table::new(alloc)),
        Seats::Planned { size, lists, nodes } => {
            let mut plan = Plan::new(alloc, size);
            plan.add(lists, nodes)?;
            Table::with_room(alloc, 4, plan)
        }
        Seats::Pairs { size, lists } => {
            let mut plan = Plan::new(alloc, size);
            plan.add_pairs(lists)?;
            Table::with_room(alloc, 4, plan)
        }
        Seats::Merges { size, rows } => {
            let mut plan = Plan::new(alloc, size);
            plan.add_merges(rows)?;
            Table::with_room(alloc, 4, plan)
        }
    }
}

/// A small table with its facts, and a counter.
#[derive(Drop)]
pub struct Trial<L: Ledger> {
    alloc: Global,
    pub table: Table,
    /// All facts of the table.
    pub facts: Vec<Placed>,
    steps: Steps<L>,
}

impl<L: Ledger> Trial<L> {
    /// A trial without facts, of a table with these seats.
    pub fn begin(alloc: Global, seats: Seats, blank: Blank) -> Result<Trial<L>, NoMemory>
        requires name { blank.name ≡ L.name }
        requires parts { blank.parts ≡ L.parts }
        requires some { 0 < L.parts }
        ensures { IfOk result (λ t. AreListed t.table.live t.facts.items) }
    {
        Ok(Trial {
            alloc,
            table: table_with(alloc, seats)?,
            facts: Vec::new(alloc),
            steps: Steps::<L>::open(blank),
        })
    }

    /// Whether there is a live fact of this form.
    pub fn has(&self, form: &Form) -> bool {
        self.table.sign_of(0, 0, form).is_some()
    }

    /// Bears the fact that the form has its sign at this second, if the form may be asked for and no
    /// fact has it.
    pub fn bear(&mut self, form: Form, motions: &Motions, second: i64) -> Result<(), NoMemory>
        requires whole { unsigned_abs second < 2 ^ 31 }
        requires listed { AreListed self.old.table.live self.old.facts.items }
        ensures { OnOk result (AreListed self.new.table.live self.new.facts.items) }
    {
        if !is_askable(&form, motions) || self.table.sign_of(0, 0, &form).is_some() {
            return Ok(());
        }
        let now = moment(second, Phase::At);
        let sign = Now {
            motions,
            moment: &now,
        }
        .sign(&form, &mut self.steps);
        let placed = Placed {
            part: 0,
            fact: Fact { form, sign },
        };
        bear_listed(
            self.alloc,
            &mut self.table,
            &mut self.facts,
            placed,
            motions,
            &now,
            &mut self.steps,
        )
    }

    /// Makes anew what names the number, if all facts hold at this second.
    pub fn turn(&mut self, number: u32, motions: &Motions, second: i64) -> Result<(), NoMemory>
        requires whole { unsigned_abs second < 2 ^ 31 }
        requires listed { AreListed self.old.table.live self.old.facts.items }
        ensures { OnOk result (AreListed self.new.table.live self.new.facts.items) }
    {
        let now = moment(second, Phase::At);
        if !all_hold(&self.facts, motions, &now, &mut self.steps) {
            return Ok(());
        }
        self.table.remake(number, motions, &now, &mut self.steps)?;
        Ok(())
    }

    /// Gives out the facts that fail next.
    pub fn take(&mut self) -> Result<Vec<Owned>, NoMemory>
        requires listed { AreListed self.old.table.live self.old.facts.items }
    {
        let Some(_) = self.table.failing() else {
            return Ok(Vec::new(self.alloc));
        };
        self.table.take_failing(&mut self.steps)
    }

    /// Whether the next failure is at this second, and so many failure moments were made.
    pub fn is_next(&self, second: i64, made: u64) -> bool
        requires whole { unsigned_abs second < 2 ^ 31 }
        requires listed { AreListed self.now.table.live self.now.facts.items }
    {
        self.table.made() == made && self.table.failing() == Some(moment(second, Phase::At))
    }

    /// How many facts there are.
    pub fn live(&self) -> usize {
        self.table.live()
    }
}

pub fn line(i: u32, j: u32) -> Form {
    Form::Line {
        dx: 1,
        dy: 0,
        off: 0,
        i,
        j,
    }
}
