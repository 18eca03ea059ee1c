//! A merge that goes from moment to moment, and is compared with its definition at each.

ghost use Rattle.std.specs.Prelude.{◌≡◌};
ghost use Rattle.kin_motion.specs.Scene.{IsReal};

use kin_cases::ask::Sight;
use kin_cases::definition::{are_few, are_same, are_short, facts_of_merge, is_difference};
use kin_cases::fault::Fault;
use kin_cases::merging::Merging;
use kin_cases::telling::Telling;
use kin_cases::watch::{Tally, Watch};
use kin_cases::written::motions;
use kin_fail::Now;
use kin_motion::fact::Placed;
use kin_motion::signs::Signs;
use kin_motion::{Mirror, Motions};
use kin_num::{Moment, Steps};
use kin_overlay::Half;
use std::alloc::Global;
use std::sync::ledger::Ledger;

/// The part of the merge's facts.
const PART: u32 = 6;

/// Two sets of numbers, all of the first less than all of the second.
#[derive(Drop)]
pub struct Halves {
    pub left: Vec<u32>,
    pub right: Vec<u32>,
}

impl Halves {
    /// The numbers below `end`, cut at `split`.
    pub fn new(alloc: Global, split: u32, end: u32) -> Result<Halves, Fault> {
        let mut left = Vec::new(alloc);
        let mut right = Vec::new(alloc);
        for no in 0..end {
            let half = if no < split { &mut left } else { &mut right };
            half.push(no).map_err(|_| Fault::NoMemory)?;
        }
        Ok(Halves { left, right })
    }
}

/// The upper chains of both halves.
#[derive(Drop)]
struct Chains {
    a: Vec<u32>,
    b: Vec<u32>,
}

impl Chains {
    fn of<P: Signs>(alloc: Global, halves: &Halves, sight: &Sight<'_, P>) -> Result<Chains, Fault> {
        let a = sight.upper_chain(alloc, &halves.left)?;
        let b = sight.upper_chain(alloc, &halves.right)?;
        Ok(Chains { a, b })
    }
}

/// The chain and the facts of a merge at a moment.
#[derive(Drop)]
struct State {
    chain: Vec<u32>,
    facts: Vec<Placed>,
}

impl State {
    fn of(alloc: Global, merging: &Merging) -> Result<State, Fault> {
        Ok(State {
            chain: Vec::from_slice(alloc, merging.chain())?,
            facts: Vec::from_slice(alloc, merging.facts())?,
        })
    }

    /// What is before a merge is built: no facts, and so that it has no edits, its own chain.
    fn before_all(alloc: Global, merging: &Merging) -> Result<State, Fault> {
        Ok(State {
            chain: Vec::from_slice(alloc, merging.chain())?,
            facts: Vec::new(alloc),
        })
    }

    /// What the definition says of a merge of these chains.
    fn defined<P: Signs>(
        alloc: Global,
        chains: &Chains,
        sight: &Sight<'_, P>,
    ) -> Result<State, Fault> {
        let mut both = Vec::from_slice(alloc, &chains.a)?;
        both.extend_from_slice(&chains.b)?;
        Ok(State {
            chain: sight.upper_chain(alloc, &both)?,
            facts: facts_of_merge(alloc, sight, PART, &chains.a, &chains.b)?,
        })
    }

    fn is_of(&self, merging: &Merging) -> bool {
        self.chain.as_slice() == merging.chain() && are_same(&self.facts, merging.facts())
    }
}

/// What was there before a merge was settled.
#[derive(Drop)]
struct Before {
    state: State,
    /// How often a sign had been asked.
    asked: u64,
}

/// The merge, if it is that of the definition, exactly what changed was reported, short edits lead from
/// the chain before, and few signs were asked.
fn tested<P: Signs>(
    stage: &Stage,
    merging: Merging,
    before: &Before,
    chains: &Chains,
    sight: &Sight<'_, P>,
) -> Result<Merging, Fault> {
    let asked = stage.tally.asked().wrapping_sub(before.asked);
    let is_cheap = !merging.is_apart() || are_few(asked, merging.report());
    let old = &before.state;
    let is_short = are_short(stage.alloc, merging.edits(), &old.chain, merging.chain())?;
    let is_told = is_difference(merging.report(), &old.facts, merging.facts());
    let defined = State::defined(stage.alloc, chains, sight)?;
    if defined.is_of(&merging) && is_told && is_short && is_cheap {
        Ok(merging)
    } else {
        Err(Fault::Differs)
    }
}

/// Tells both halves these chains.
fn told(telling: Telling, a: &[u32], b: &[u32]) -> Result<Telling, Fault> {
    telling.tell(Half::A, a)?.tell(Half::B, b)
}

/// Builds the merge, or goes on with it, by a detour if there is one: lists that the halves are told
/// before their chains.
fn visit<P: Signs, O: Signs, L: Ledger>(
    stage: &Stage,
    merging: Option<Merging>,
    detour: Option<&Halves>,
    sight: &Sight<'_, P>,
    now: &O,
    steps: &mut Steps<L>,
) -> Result<Merging, Fault>
    requires real { IsReal (O.scene now.now) }
    requires same { P.scene sight.now.signs.now ≡ O.scene now.now }
{
    let alloc = stage.alloc;
    let asked = stage.tally.asked();
    let chains = Chains::of(alloc, &stage.halves, sight)?;
    let (a, b) = (chains.a.as_slice(), chains.b.as_slice());
    if let Some(merging) = merging {
        let state = State::of(alloc, &merging)?;
        let mut telling = merging.begin();
        if let Some(detour) = detour {
            telling = told(telling, &detour.left, &detour.right)?;
        }
        let merging = told(telling, a, b)?.settle(sight, now, steps)?;
        return tested(stage, merging, &Before { state, asked }, &chains, sight);
    }
    let merging = Merging::build(alloc, a, b, PART, sight, now, steps)?;
    let state = State::before_all(alloc, &merging)?;
    tested(stage, merging, &Before { state, asked }, &chains, sight)
}

/// Which chains are merged.
#[derive(Clone, Copy)]
pub enum Side {
    Upper,
    Lower,
}

/// Points that move, in two halves.
#[derive(Drop)]
pub struct Stage {
    pub alloc: Global,
    pub motions: Motions,
    pub halves: Halves,
    /// How often a sign was asked.
    pub tally: Tally,
}

impl Stage {
    /// The numbers below `end`, cut at `split`.
    pub fn new(alloc: Global, motions: Motions, split: u32, end: u32) -> Result<Stage, Fault> {
        Ok(Stage {
            alloc,
            motions,
            halves: Halves::new(alloc, split, end)?,
            tally: Tally::new(),
        })
    }

    /// The points that are written, cut at `split`.
    pub fn written(alloc: Global, points: &str, split: u32) -> Result<Stage, Fault> {
        let (motions, end) = motions(alloc, points)?;
        Stage::new(alloc, motions, split, end)
    }

    /// The merge of the upper chains at a moment, by a detour if there is one.
    pub fn upper_by<'a, L: Ledger>(
        &'a self,
        merging: Option<Merging>,
        detour: Option<&Halves>,
        moment: &'a Moment,
        steps: &mut Steps<L>,
    ) -> Result<Merging, Fault> {
        let watch = self.watch(moment);
        let now = watch.plain();
        let sight = Sight::at(&now);
        visit(self, merging, detour, &sight, &watch, steps)
    }

    /// The merge of the upper chains at a moment.
    pub fn upper<'a, L: Ledger>(
        &'a self,
        merging: Option<Merging>,
        moment: &'a Moment,
        steps: &mut Steps<L>,
    ) -> Result<Merging, Fault> {
        self.upper_by(merging, None, moment, steps)
    }

    /// The merge of the lower chains at a moment.
    pub fn lower<'a, L: Ledger>(
        &'a self,
        merging: Option<Merging>,
        moment: &'a Moment,
        steps: &mut Steps<L>,
    ) -> Result<Merging, Fault> {
        let watch = self.watch(moment);
        let now = watch.plain();
        let mirror = Mirror { inner: &now };
        let sight = Sight {
            signs: &mirror,
            motions: now.motions,
        };
        let reflected = Mirror { inner: &watch };
        visit(self, merging, None, &sight, &reflected, steps)
    }

    /// The merge of the chains of one side at a moment.
    pub fn go<'a, L: Ledger>(
        &'a self,
        side: Side,
        merging: Option<Merging>,
        moment: &'a Moment,
        steps: &mut Steps<L>,
    ) -> Result<Merging, Fault> {
        match side {
            Side::Upper => self.upper(merging, moment, steps),
            Side::Lower => self.lower(merging, moment, steps),
        }
    }

    /// The signs at a moment, which are counted.
    pub fn watch<'a>(&'a self, moment: &'a Moment) -> Watch<'a>
        ensures motions { result.motions.now ≡ self.now.motions }
        ensures moment { result.moment.now ≡ moment.now }
    {
        Watch {
            motions: &self.motions,
            moment,
            tally: &self.tally,
        }
    }
}
