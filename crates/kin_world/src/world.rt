//! The world: motions, planned legs, structures and the table of live facts together.

ghost use Rattle.std.specs.Prelude.{◌≡◌, ◌≤◌, ◌<◌, ◌^◌, ◌↔◌, ℕ, ℤ, true, false, Option, Some, None, slice_get, length, Contains, IsTrue, IsFalse, Err, IfOk, OnOk, OnErr, IfSome, IsNone, unsigned_abs};
ghost use Rattle.kin_algebra.specs.declared.sign.Sign.{Sign as Signum};
ghost use Rattle.kin_num.specs.Order.{IsEarlier};
ghost use Rattle.kin_motion.specs.declared.keep.Keep.TheVariants as keep;
ghost use Rattle.kin_motion.specs.Course.{Course, is_live, live_of, motion_limit, motion_of};
ghost use Rattle.kin_motion.specs.FactCounts.{most_live};
ghost use Rattle.kin_motion.specs.Plans.{Plan as Path};
ghost use Rattle.kin_motion.specs.Turning.{IsNotWhole, IsOutOfBounds, just_at};
ghost use Rattle.kin_legs.specs.Paths.{plan_of, whole};
ghost use Rattle.kin_legs.specs.Scheduling.{HasLegFrom, IsOver, FollowsTooFast};
ghost use Rattle.kin_turn.specs.declared.turned.TurnError.TheVariants.{NotWhole as Broken, OutOfBounds as Outside};
ghost use Rattle.kin_world.specs.declared.planning.LegError.TheVariants.{Past as Late, Planned as AlreadyPlanned, OutOfBounds as TooFar};
ghost use Rattle.kin_world.specs.Costs.{IsRepairCost, IsReplacementCost, IsTurnCost};
ghost use Rattle.kin_world.specs.Worlds.{AreKeepable, IsWhole, CanTurn, CanPlan, HasInserted, HasRemoved, HasReplaced, HasTurned, HasPlanned, certificate, empty, world_plans};

use crate::places::{find, find_boxes};
use crate::planning::{LegError, following};
use crate::structure::Mark;
use crate::upkeep::Upkeep;
use kin_legs::{Leg, Legs};
use kin_motion::{Form, Keep, Motion};
use kin_num::{NoMemory, Sign, Steps};
use kin_turn::turned::{TurnError, turned};
use std::alloc::Global;
use std::marker::Model;
use std::sync::ledger::Ledger;

mod answers;
mod steps;

/// Moving points and the structures that are kept over them, at one moment.
///
/// A point has a motion, and legs: other motions that it takes up at planned whole instants. Time that goes on begins
/// the legs on its way.
///
/// Between two calls, while the world is whole, every structure is settled at the moment now, and the
/// table has exactly the live facts. After a changing call that answered want of memory the world
/// isn't whole, and only `is_whole`, `keep`, `keeps` and `keeps_boxes` may be asked.
///
/// Clause `cost` of a changing call bounds the steps of an `Ok` by the worlds before and after it and
/// the number of failures (`specs/Costs`). `leap` has none, and `leg` takes no steps.
#[derive(Drop)]
pub struct World {
    alloc: Global,
    upkeep: Upkeep,
    /// The legs after now.
    legs: Legs,
    whole: bool,
}

impl Model for World {
    ghost use Rattle.std.specs.Prelude.{IsTrue};
    ghost use Rattle.kin_world.specs.Worlds.{World as Meaning};
    ghost use Rattle.kin_world.specs.Crossing.{IsAtEase};
    ghost use Rattle.kin_world.specs.Upkeep.{meaning, stage_of};

    ghost Value = { Meaning };

    ghost view = { λ w. meaning (stage_of w.upkeep) w.legs.legs w.whole };

    ghost invariant = { λ w. IsTrue w.whole → IsAtEase (stage_of w.upkeep) w.legs };
}

impl World {
    /// No points yet, at the instant 0. The size is from 1 to 12. Of the keeps at most 16 are orders
    /// or extreme points, and at most one is of each other kind; each direction is small, boxes have
    /// a width and a height in 0..4096, and a farthest pair has a hull before it (`AreKeepable`).
    pub fn new(alloc: Global, size: u32, keeps: &[Keep]) -> Result<World, NoMemory>
        requires low { 1 ≤ size }
        requires high { size ≤ 12 }
        requires keepable { AreKeepable keeps.now }
        ensures empty { IfOk result (λ w. w ≡ empty size keeps.now) }
        ensures whole { IfOk result IsWhole }
    {
        Ok(World {
            alloc,
            upkeep: Upkeep::new(alloc, size, keeps)?,
            legs: Legs::new(alloc, size)?,
            whole: true,
        })
    }

    /// False exactly where a changing call has answered want of memory.
    pub fn is_whole(&self) -> bool
        ensures value { result ≡ self.now.whole }
        ensures whole { IsTrue result → IsWhole self.now }
    {
        self.whole
    }

    /// The motion of a number now, or `None` exactly where it isn't live.
    pub fn motion(&self, no: u32) -> Option<Motion>
        requires { IsTrue self.now.whole }
        ensures value { result ≡ motion_of self.now.motions no }
    {
        self.upkeep.motions.get(no)
    }

    /// Whether a number may be inserted: it is below `2^size`, and it isn't live.
    pub fn can_insert(&self, no: u32) -> bool
        requires { IsTrue self.now.whole }
        ensures value { IsTrue result ↔ ((no < 2 ^ self.now.size) × IsFalse (is_live self.now.motions no)) }
        ensures whole { IsWhole self.now }
    {
        no < 1 << self.upkeep.size && self.upkeep.motions.get(no).is_none()
    }

    /// Gives a number this motion, from the moment now on. The number is below `2^size` and isn't
    /// live. Each structure takes it in, and failure moments are computed only for facts that are
    /// new. After want of memory the world isn't whole.
    pub fn insert<L: Ledger>(
        &mut self,
        no: u32,
        m: Motion,
        steps: &mut Steps<L>,
    ) -> Result<(), NoMemory>
        requires whole { IsTrue self.old.whole }
        requires room { no < 2 ^ self.old.size }
        requires free { IsFalse (is_live self.old.motions no) }
        ensures inserted { OnOk result (HasInserted no m self.old self.new) }
        ensures broken { OnErr result (self.new.whole ≡ false) }
        ensures cost { OnOk result (IsRepairCost self.old self.new 0 steps.old steps.new) }
        ensures keeps { OnErr result (self.new.keeps ≡ self.old.keeps) }
    {
        self.whole = false;
        self.upkeep.motions.set(no, m);
        self.upkeep.carry_out_each(Mark::Enters(no), steps)?;
        self.whole = true;
        Ok(())
    }

    /// Takes a live number's motion and its legs away. Each structure lets it go, and failure moments are computed
    /// only for facts that are new. After want of memory the world isn't whole.
    pub fn remove<L: Ledger>(&mut self, no: u32, steps: &mut Steps<L>) -> Result<(), NoMemory>
        requires whole { IsTrue self.old.whole }
        requires live { IsTrue (is_live self.old.motions no) }
        ensures removed { OnOk result (HasRemoved no self.old self.new) }
        ensures broken { OnErr result (self.new.whole ≡ false) }
        ensures cost { OnOk result (IsRepairCost self.old self.new 0 steps.old steps.new) }
        ensures keeps { OnErr result (self.new.keeps ≡ self.old.keeps) }
    {
        self.whole = false;
        self.upkeep.motions.clear(no);
        self.legs.drop_of(no);
        self.upkeep.carry_out_each(Mark::Leaves(no), steps)?;
        self.whole = true;
        Ok(())
    }

    /// Gives a live number any motion, at any place: it leaves, and enters again at the same moment, without legs.
    /// After want of memory in either half the world isn't whole.
    pub fn replace<L: Ledger>(
        &mut self,
        no: u32,
        m: Motion,
        steps: &mut Steps<L>,
    ) -> Result<(), NoMemory>
        requires whole { IsTrue self.old.whole }
        requires live { IsTrue (is_live self.old.motions no) }
        ensures replaced { OnOk result (HasReplaced no m self.old self.new) }
        ensures broken { OnErr result (self.new.whole ≡ false) }
        ensures cost { OnOk result (IsReplacementCost no m self.old self.new steps.old steps.new) }
        ensures keeps { OnErr result (self.new.keeps ≡ self.old.keeps) }
    {
        self.remove(no, steps)?;
        self.insert(no, m, steps)
    }

    /// The motion with the velocity `(u, v)` by which a live number is at the same place now. Each of
    /// the two is in -8192..8192. Takes no memory.
    ///
    /// `NotWhole` comes exactly where the moment is just after an instant or a coordinate of the new
    /// place at time 0 isn't whole; `OutOfBounds` exactly where the moment is an instant, both are
    /// whole and one is outside -8192..8192.
    pub fn turned(&self, no: u32, u: i32, v: i32) -> Result<Motion, TurnError>
        requires whole { IsTrue self.now.whole }
        requires live { IsTrue (is_live self.now.motions no) }
        requires u { unsigned_abs u ≤ motion_limit }
        requires v { unsigned_abs v ≤ motion_limit }
        ensures turns { IfOk result (CanTurn no u v self.now) }
        ensures not_whole { (had : Course) → motion_of self.now.motions no ≡ Some had → (result ≡ Err Broken) ↔ IsNotWhole self.now.moment u v had }
        ensures outside { (had : Course) → motion_of self.now.motions no ≡ Some had → (result ≡ Err Outside) ↔ IsOutOfBounds self.now.moment u v had }
    {
        let Some(motion) = self.upkeep.motions.get(no) else {
            unreachable!()
        };
        turned(&motion, &self.upkeep.moment, u, v)
    }

    /// Gives a live number another velocity at the place where it is, which `turned` has to allow, and drops its legs. No
    /// sign changes now, so every live fact stays, and by the law `turns_keep_the_scene` every answer
    /// but that of a rectangle, of which no clause speaks. The failure moments of the facts that name
    /// the number are computed anew. After want of memory the world isn't whole.
    pub fn turn<L: Ledger>(
        &mut self,
        no: u32,
        u: i32,
        v: i32,
        steps: &mut Steps<L>,
    ) -> Result<(), NoMemory>
        requires whole { IsTrue self.old.whole }
        requires turnable { (motion : Course) × CanTurn no u v self.old motion }
        ensures turned { OnOk result (HasTurned no u v self.old self.new) }
        ensures broken { OnErr result (self.new.whole ≡ false) }
        ensures cost { OnOk result (IsTurnCost no self.old steps.old steps.new) }
        ensures keeps { OnErr result (self.new.keeps ≡ self.old.keeps) }
    {
        let Ok(motion) = self.turned(no, u, v) else {
            unreachable!()
        };
        self.whole = false;
        self.legs.drop_of(no);
        self.upkeep.take_up(no, motion, steps)?;
        self.whole = true;
        Ok(())
    }

    /// The motion with the velocity `(u, v)` that a live number may have from the whole instant `at` on, which is below
    /// 2^31: it has there the place of the last motion that is planned for the number. Each of `u` and `v` is in
    /// -8192..8192. Takes no memory.
    ///
    /// `Past` comes exactly where `at` isn't after now; else `Planned` exactly where the number has a leg at `at` or later;
    /// else `OutOfBounds` exactly where a coordinate of the new place at time 0 is outside -8192..8192.
    pub fn planned(&self, no: u32, at: u32, u: i32, v: i32) -> Result<Motion, LegError>
        requires whole { IsTrue self.now.whole }
        requires live { IsTrue (is_live self.now.motions no) }
        requires soon { at < 2 ^ 31 }
        requires u { unsigned_abs u ≤ motion_limit }
        requires v { unsigned_abs v ≤ motion_limit }
        ensures plans { IfOk result (CanPlan no at u v self.now) }
        ensures past { (result ≡ Err Late) ↔ IsOver self.now.moment at }
        ensures planned { (plan : Path) → plan_of (world_plans self.now) no ≡ Some plan → (result ≡ Err AlreadyPlanned) ↔ (IsEarlier self.now.moment (just_at (whole at)) × HasLegFrom plan at) }
        ensures outside { (plan : Path) → plan_of (world_plans self.now) no ≡ Some plan → (result ≡ Err TooFar) ↔ FollowsTooFast self.now.moment plan at u v }
    {
        let Some(motion) = self.upkeep.motions.get(no) else {
            unreachable!()
        };
        following(&motion, self.legs.last(no), &self.upkeep.moment, at, u, v)
    }

    /// Plans that a live number has the velocity `(u, v)` from the whole instant `at` on, which `planned` has to allow.
    /// No failure moment is computed. After want of memory the world isn't whole.
    pub fn leg(&mut self, no: u32, at: u32, u: i32, v: i32) -> Result<(), NoMemory>
        requires whole { IsTrue self.old.whole }
        requires soon { at < 2 ^ 31 }
        requires plannable { (motion : Course) × CanPlan no at u v self.old motion }
        ensures planned { OnOk result (HasPlanned no at u v self.old self.new) }
        ensures broken { OnErr result (self.new.whole ≡ false) }
        ensures keeps { OnErr result (self.new.keeps ≡ self.old.keeps) }
    {
        let Ok(m) = self.planned(no, at, u, v) else {
            unreachable!()
        };
        self.whole = false;
        self.legs.add(Leg { at, no, m })?;
        self.legs.recall_rising();
        self.whole = true;
        Ok(())
    }

    /// How many facts are live: at most `most_live`, the sum over the kept structures. Without live
    /// numbers there are none. With n of them each order and each extreme point has at most n - 1, a
    /// range twice, a farthest pair four and nearest neighbours eight times as many, boxes 4n - 2, a
    /// closest pair 16n, and a hull 4n times the size.
    pub fn live(&self) -> usize
        requires { IsTrue self.now.whole }
        ensures count { result ≡ length self.now.live }
        ensures few { result ≤ most_live self.now.size self.now.keeps (length (live_of self.now.motions)) }
        ensures whole { IsWhole self.now }
    {
        self.upkeep.table.live()
    }

    /// How many failure moments were computed since `new`, or 2^64 - 1 where there were more.
    pub fn made(&self) -> u64
        requires { IsTrue self.now.whole }
        ensures { result ≡ self.now.made }
    {
        self.upkeep.table.made()
    }

    /// What is kept with this number, or `None` where the number is too great.
    pub fn keep(&self, s: u32) -> Option<Keep>
        ensures { result ≡ slice_get self.now.keeps s }
    {
        self.upkeep.keeps.get(s as usize).copied()
    }

    /// Whether this is kept, along the same direction or over boxes of the same size if it has one.
    pub fn keeps(&self, keep: &Keep) -> bool
        ensures { IsTrue result ↔ ((k : ℕ) × (slice_get self.now.keeps k ≡ Some keep.now)) }
    {
        match find(keep, &self.upkeep.keeps) {
            Some(_) => true,
            None => false,
        }
    }

    /// Whether boxes are kept, whatever their width and height.
    pub fn keeps_boxes(&self) -> bool
        ensures { IsTrue result ↔ ((k : ℕ) × (w : ℤ) × (h : ℤ) × (slice_get self.now.keeps k ≡ Some (keep.Boxes w h))) }
    {
        match find_boxes(&self.upkeep.keeps) {
            Some(_) => true,
            None => false,
        }
    }

    /// The sign of the live fact of this form in this part of this structure, or `None` exactly where
    /// there is none.
    pub fn sign_of(&self, structure: u32, part: u32, form: &Form) -> Option<Sign>
        requires { IsTrue self.now.whole }
        ensures some { IfSome result (λ sign. Contains self.now.live (certificate structure part form.now sign)) }
        ensures none { IsNone result ↔ ((sign : Signum) → ¬ (Contains self.now.live (certificate structure part form.now sign))) }
    {
        self.upkeep.table.sign_of(structure, part, form)
    }
}
