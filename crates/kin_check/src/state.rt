//! How far a replay is.

ghost use Rattle.std.specs.Prelude.{◌≡◌, ◌<◌, ◌≤◌, ◌^◌, None, Some, MatchOption, IfOk, OnOk, length, option_map, replicate, slice_set};
ghost use Rattle.kin_motion.specs.Plans.{Plan as Planned, motions_in_force};
ghost use Rattle.kin_legs.specs.Joined.{with_leg};
ghost use Rattle.kin_legs.specs.Paths.{ArePaths, lasting, plan_of};
ghost use Rattle.kin_script.specs.States.{start};
ghost use Rattle.kin_check.specs.Beginnings.{IsSoonest, all_legs};

use crate::plan::{Leg, Plan};
use kin_motion::{Keep, Motion, Motions};
use kin_num::memory::NoMemory;
use kin_num::{Instant, Moment, Phase, Shape};
use kin_plain::lists::put;
use kin_plain::numbers::numbers_below;
use std::alloc::Global;
use std::marker::Model;

/// What is kept, the plans of all points, and the moment now.
#[derive(Drop)]
pub struct State {
    alloc: Global,
    size: u32,
    keeps: Vec<Keep>,
    journal: bool,
    plans: Vec<Option<Plan>>,
    moment: Moment,
}

impl Model for State {
    ghost use Rattle.kin_script.specs.States.{State};

    ghost Value = { State };

    ghost view = { λ s. record { size = s.size; keeps = s.keeps.items; journal = s.journal; plans = s.plans.items; moment = s.moment } };
}

/// No plan for each number below `2^size`.
fn no_plans(alloc: Global, size: u32) -> Result<Vec<Option<Plan>>, NoMemory>
    requires { size ≤ 12 }
    ensures { IfOk result (λ plans. plans.items ≡ replicate (2 ^ size) None) }
{
    let mut plans = Vec::new(alloc);
    for _no in 0..numbers_below(size) {
        put(&mut plans, None)?;
    }
    Ok(plans)
}

/// Puts a leg at the end of a plan, where there is one.
fn put_leg(slot: &mut Option<Plan>, leg: Leg) -> Result<(), NoMemory>
    ensures { OnOk result (slot.new ≡ option_map (λ (p : Planned). with_leg p leg) slot.old) }
{
    match slot {
        Some(plan) => plan.put(leg),
        None => Ok(()),
    }
}

impl State {
    /// No points yet, at the instant 0.
    pub fn start(alloc: Global, size: u32, keeps: &[Keep], journal: bool) -> Result<State, NoMemory>
        requires { size ≤ 12 }
        ensures { IfOk result (λ s. s ≡ start size keeps.now journal) }
    {
        let Ok(keeps) = Vec::from_slice(alloc, keeps) else {
            return Err(NoMemory);
        };
        let plans = no_plans(alloc, size)?;
        let moment = Moment {
            at: Instant::of(Shape::Ratio { n: 0, d: 1 }),
            phase: Phase::At,
        };
        Ok(State {
            alloc,
            size,
            keeps,
            journal,
            plans,
            moment,
        })
    }

    /// Points have numbers below `2^size`.
    pub fn size(&self) -> u32
        ensures { result ≡ self.now.size }
    {
        self.size
    }

    /// What is kept.
    pub fn keeps(&self) -> &[Keep]
        ensures { result.now ≡ self.now.keeps }
    {
        &self.keeps
    }

    /// Whether failures are printed as they are passed.
    pub fn journal(&self) -> bool
        ensures { result ≡ self.now.journal }
    {
        self.journal
    }

    /// The moment now.
    pub fn moment(&self) -> Moment
        ensures { result ≡ self.now.moment }
    {
        self.moment
    }

    /// The plan of a number, or `None` exactly where it isn't live.
    pub fn plan(&self, no: u32) -> Option<&Plan>
        ensures { MatchOption result (plan_of self.now.plans no ≡ None) (λ p. plan_of self.now.plans no ≡ Some p.now) }
    {
        if no as usize >= self.plans.len() {
            return None;
        }
        self.plans[no as usize].as_ref()
    }

    /// The motions in force at a moment.
    pub fn motions_at(&self, moment: &Moment) -> Result<Motions, NoMemory>
        requires low { 1 ≤ self.now.size }
        requires high { self.now.size ≤ 12 }
        requires slots { length self.now.plans ≡ 2 ^ self.now.size }
        requires paths { ArePaths self.now.plans }
        ensures { IfOk result (λ motions. motions ≡ motions_in_force self.now.plans moment.now) }
    {
        let mut motions = Motions::new(self.alloc, self.size)?;
        for no in 0..self.plans.len() {
            if let Some(plan) = &self.plans[no] {
                motions.set(no as u32, plan.motion_at(moment));
            }
        }
        Ok(motions)
    }

    /// The instant of the first leg that begins after a moment, or `None` exactly where none does.
    pub fn soonest(&self, moment: &Moment) -> Option<u32>
        requires { ArePaths self.now.plans }
        ensures { IsSoonest moment.now (all_legs self.now.plans) result }
    {
        let mut soonest = None;
        for plan in &self.plans {
            if let Some(plan) = plan {
                soonest = plan.soonest(moment, soonest);
            }
        }
        soonest
    }

    /// Time goes to a moment.
    pub fn go(&mut self, moment: Moment)
        ensures { self.new ≡ record self.old { moment = moment } }
    {
        self.moment = moment;
    }

    /// A number has this motion for ever.
    pub fn put(&mut self, no: u32, motion: Motion)
        requires { no < length self.old.plans }
        ensures { self.new ≡ record self.old { plans = slice_set self.old.plans no (Some (lasting motion)) } }
    {
        self.plans[no as usize] = Some(Plan::lasting(self.alloc, motion));
    }

    /// A number has no motion any more.
    pub fn clear(&mut self, no: u32)
        requires { no < length self.old.plans }
        ensures { self.new ≡ record self.old { plans = slice_set self.old.plans no None } }
    {
        self.plans[no as usize] = None;
    }

    /// A live number has one leg more.
    pub fn put_leg(&mut self, no: u32, leg: Leg) -> Result<(), NoMemory>
        requires { no < length self.old.plans }
        ensures { OnOk result ((plan : Planned) → plan_of self.old.plans no ≡ Some plan
            → self.new ≡ record self.old { plans = slice_set self.old.plans no (Some (with_leg plan leg)) }) }
    {
        put_leg(&mut self.plans[no as usize], leg)
    }
}
