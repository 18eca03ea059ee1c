//! All that a world is made of, in one piece, and its repair.

ghost use Rattle.std.specs.Prelude.{◌≡◌, ◌<◌, ◌≤◌, ◌+◌, ◌*◌, ◌^◌, true, [], length, count_by, All, IsTrue, OnOk, IfOk};
ghost use Rattle.kin_motion.specs.Journal.{Block as Listed, IsNextBlock};
ghost use Rattle.kin_motion.specs.Scene.{Scene};
ghost use Rattle.kin_cert.specs.Taken.{IsLeastFailure};
ghost use Rattle.kin_cert.specs.Cost.{TakesAtMost};
ghost use Rattle.kin_cert.specs.Remade.{names_number};
ghost use Rattle.kin_world.specs.Paid.{HasPaid, HavePaid, IsSeenBefore, IsRepaid};
ghost use Rattle.kin_world.specs.Structures.{AreLiveAfter, AreVacant};
ghost use Rattle.kin_world.specs.Worlds.{AreKeepable, empty};
ghost use Rattle.kin_world.specs.Upkeep.{stage_of, meaning, setting, sight, HasSameFrame, IsSound, IsUnderRepair, MayTakeUp, HasTakenUp, IsCarriedOut, AreWaiting, HasGoneOn, HasSettled, IsIdle, IsRepaired};

use crate::among::{carry_out_at, settle_at};
use crate::places::place_of;
use crate::structure::{Mark, Structure};
use kin_cert::{Mail, Plan, Table};
use kin_fail::failures::block_of;
use kin_fail::{Block, Now, Owned};
use kin_motion::{Delta, Keep, Motion, Motions};
use kin_num::{Instant, Moment, NoMemory, Phase, Shape, Steps};
use std::alloc::Global;
use std::mem::replace;
use std::sync::ledger::Ledger;

pub mod leap;

/// What is kept, the structures in the same order and the table of their live facts; the motions,
/// and the moment now.
#[derive(Drop)]
pub struct Upkeep {
    pub size: u32,
    pub keeps: Vec<Keep>,
    pub structures: Vec<Structure>,
    pub table: Table,
    pub motions: Motions,
    pub moment: Moment,
    /// What a structure reports. Reused.
    delta: Delta,
    /// The facts that fail at one moment, by structure. Reused.
    mail: Mail,
    /// The facts that fail at one moment. Reused.
    given: Vec<Owned>,
}

impl Upkeep {
    /// The structures of these keeps, without members, at the instant 0.
    pub fn new(alloc: Global, size: u32, keeps: &[Keep]) -> Result<Upkeep, NoMemory>
        requires low { 1 ≤ size }
        requires high { size ≤ 12 }
        requires keepable { AreKeepable keeps.now }
        ensures sound { IfOk result (λ u. IsSound (stage_of u)) }
        ensures empty { IfOk result (λ u. meaning (stage_of u) [] true ≡ empty size keeps.now) }
    {
        let motions = Motions::new(alloc, size)?;
        let moment = Moment {
            at: Instant::of(Shape::Ratio { n: 0, d: 1 }),
            phase: Phase::At,
        };
        let structures = vacant_structures(alloc, size, keeps)?;
        let room = room_for_facts(size, keeps);
        let plan = plan_of(alloc, size, keeps)?;
        let Ok(keeps) = Vec::from_slice(alloc, keeps) else {
            return Err(NoMemory);
        };
        Ok(Upkeep {
            size,
            keeps,
            structures,
            table: Table::with_room(alloc, room, plan)?,
            motions,
            moment,
            delta: Delta::new(alloc),
            mail: Mail::new(alloc),
            given: Vec::new(alloc),
        })
    }

    // Whether the structure `k` has nothing to repair: no fact of it has failed, nor, if it is a farthest pair, one of
    // the hull.
    fn is_idle(&self, k: u32) -> bool
        requires within { k < length self.now.structures.items }
        requires boxes { length self.now.structures.items ≤ length self.now.mail }
        requires repair { IsRepaired self.now.mail k (stage_of self.now) }
        ensures { IsTrue result → IsIdle k (stage_of self.now) self.now.mail }
    {
        if !self.mail.told(k).is_empty() {
            return false;
        }
        match self.structures[k as usize] {
            Structure::Diameter(_) => {
                let hull = place_of(&Keep::Hull, &self.keeps);
                self.mail.told(hull).is_empty()
            }
            _ => true,
        }
    }

    // Repairs the structure `k`, after those below it.
    fn repair<L: Ledger>(&mut self, k: u32, steps: &mut Steps<L>) -> Result<(), NoMemory>
        requires within { k < length self.old.structures.items }
        requires boxes { length self.old.structures.items ≤ length self.old.mail }
        requires repair { IsRepaired self.old.mail k (stage_of self.old) }
        ensures goes_on { OnOk result (HasGoneOn (IsRepaired self.old.mail) k (stage_of self.old) (stage_of self.new)) }
        ensures frame { HasSameFrame (stage_of self.old) (stage_of self.new) }
        ensures mail { self.new.mail ≡ self.old.mail }
        ensures cost { OnOk result (HasPaid (λ live. live ≡ (sight (stage_of self.old)).live) k (stage_of self.old) (stage_of self.new) steps.old steps.new) }
    {
        if self.is_idle(k) {
            return Ok(());
        }
        let failed = self.mail.told(k);
        let now = Now {
            motions: &self.motions,
            moment: &self.moment,
        };
        self.delta.clear();
        let place = k as usize;
        settle_at(
            &mut self.structures,
            place,
            &now,
            failed,
            &mut self.delta,
            steps,
        )?;
        self.table
            .tell(k, &self.delta, &self.motions, &self.moment, steps)
    }

    // Repairs each structure that has failed facts, and a farthest pair after its hull.
    fn repair_told<L: Ledger>(&mut self, steps: &mut Steps<L>) -> Result<(), NoMemory>
        requires repair { IsRepaired self.old.mail 0 (stage_of self.old) }
        requires boxes { length self.old.structures.items ≤ length self.old.mail }
        ensures settled { OnOk result (HasSettled self.old.table (stage_of self.new)) }
        ensures frame { HasSameFrame (stage_of self.old) (stage_of self.new) }
        ensures cost { OnOk result (HavePaid (λ live. live ≡ (sight (stage_of self.old)).live) (length self.old.keeps.items) (stage_of self.old) (stage_of self.new) steps.old steps.new) }
    {
        let count = self.structures.len();
        for k in 0..count {
            self.repair(k as u32, steps)?;
        }
        Ok(())
    }

    // Repairs each structure that owns one of the facts `taken`, which are in any order.
    fn repair_each<L: Ledger>(
        &mut self,
        taken: &[Owned],
        steps: &mut Steps<L>,
    ) -> Result<(), NoMemory>
        requires repair { (before : Scene) × IsUnderRepair 0 before (stage_of self.old) }
        requires waiting { AreWaiting self.old.table.live taken.now }
        ensures settled { OnOk result (HasSettled self.old.table (stage_of self.new)) }
        ensures frame { HasSameFrame (stage_of self.old) (stage_of self.new) }
        ensures cost { OnOk result (HavePaid (λ live. live ≡ (sight (stage_of self.old)).live) (length self.old.keeps.items) (stage_of self.old) (stage_of self.new) steps.old steps.new) }
    {
        self.mail.sort(self.structures.len(), taken)?;
        self.repair_told(steps)
    }

    /// Moves to the least failure moment, repairs all structures there, and answers what has failed.
    pub fn step<L: Ledger>(
        &mut self,
        alloc: Global,
        moment: &Moment,
        steps: &mut Steps<L>,
    ) -> Result<Block, NoMemory>
        requires sound { IsSound (stage_of self.old) }
        requires failing { IsLeastFailure self.old.table.live moment.now }
        ensures next { IfOk result (IsNextBlock (setting (stage_of self.old)) self.old.moment) }
        ensures moment { IfOk result (λ b. b.moment ≡ moment.now) }
        ensures settled { OnOk result (HasSettled self.old.table (stage_of self.new)) }
        ensures frame { HasSameFrame (record (stage_of self.old) { moment = moment.now }) (stage_of self.new) }
        ensures cost { IfOk result (λ b. (v : Scene) → IsSeenBefore v (stage_of self.old) → IsRepaid v (stage_of self.old) (stage_of self.new) (length b.failures) steps.old steps.new) }
    {
        self.moment = *moment;
        let taken = self.table.take_failing(steps)?;
        let now = Now {
            motions: &self.motions,
            moment,
        };
        let block = block_of(alloc, &taken, &now, steps)?;
        self.repair_each(&taken, steps)?;
        Ok(block)
    }

    /// Moves to the least failure moment and repairs all structures there. Lists no failures, but
    /// answers how many there were.
    pub fn pass<L: Ledger>(
        &mut self,
        moment: &Moment,
        steps: &mut Steps<L>,
    ) -> Result<usize, NoMemory>
        requires sound { IsSound (stage_of self.old) }
        requires failing { IsLeastFailure self.old.table.live moment.now }
        ensures next { IfOk result (λ count. (b : Listed) × IsNextBlock (setting (stage_of self.old)) self.old.moment b × (b.moment ≡ moment.now) × (length b.failures ≡ count)) }
        ensures settled { OnOk result (HasSettled self.old.table (stage_of self.new)) }
        ensures frame { HasSameFrame (record (stage_of self.old) { moment = moment.now }) (stage_of self.new) }
        ensures cost { IfOk result (λ count. (v : Scene) → IsSeenBefore v (stage_of self.old) → IsRepaid v (stage_of self.old) (stage_of self.new) count steps.old steps.new) }
    {
        self.moment = *moment;
        let structures = self.structures.len();
        let count = self
            .table
            .post_failing(moment, structures, &mut self.mail, steps)?;
        self.repair_told(steps)?;
        Ok(count)
    }

    /// Gives a live number another motion that is where the number is now. No sign changes now, so only the
    /// failure moments of the facts that name the number are computed anew.
    pub fn take_up<L: Ledger>(
        &mut self,
        no: u32,
        motion: Motion,
        steps: &mut Steps<L>,
    ) -> Result<(), NoMemory>
        requires sound { IsSound (stage_of self.old) }
        requires may { MayTakeUp no motion (stage_of self.old) }
        ensures taken_up { OnOk result (HasTakenUp no motion (stage_of self.old) (stage_of self.new)) }
        ensures keeps { self.new.keeps ≡ self.old.keeps }
        ensures cost { OnOk result (TakesAtMost (length self.old.table.live) (λ r. count_by (names_number no) self.old.table.live * (2 * r + 1)) steps.old steps.new) }
    {
        self.motions.set(no, motion);
        self.table.remake(no, &self.motions, &self.moment, steps)
    }

    /// Lets each structure take in a number that has become live, or let go one that isn't live any
    /// more.
    pub fn carry_out_each<L: Ledger>(
        &mut self,
        mark: Mark,
        steps: &mut Steps<L>,
    ) -> Result<(), NoMemory>
        requires marked { IsCarriedOut mark 0 (stage_of self.old) }
        ensures settled { OnOk result (HasSettled self.old.table (stage_of self.new)) }
        ensures frame { HasSameFrame (stage_of self.old) (stage_of self.new) }
        ensures cost { OnOk result (HavePaid (λ live. AreLiveAfter mark live (sight (stage_of self.old)).live) (length self.old.keeps.items) (stage_of self.old) (stage_of self.new) steps.old steps.new) }
    {
        for k in 0..self.structures.len() {
            self.carry_out_one(k as u32, mark, steps)?;
        }
        Ok(())
    }

    // Lets the structure `k` carry out the mark, after those below it.
    fn carry_out_one<L: Ledger>(
        &mut self,
        k: u32,
        mark: Mark,
        steps: &mut Steps<L>,
    ) -> Result<(), NoMemory>
        requires within { k < length self.old.structures.items }
        requires marked { IsCarriedOut mark k (stage_of self.old) }
        ensures goes_on { OnOk result (HasGoneOn (IsCarriedOut mark) k (stage_of self.old) (stage_of self.new)) }
        ensures frame { HasSameFrame (stage_of self.old) (stage_of self.new) }
        ensures cost { OnOk result (HasPaid (λ live. AreLiveAfter mark live (sight (stage_of self.old)).live) k (stage_of self.old) (stage_of self.new) steps.old steps.new) }
    {
        let now = Now {
            motions: &self.motions,
            moment: &self.moment,
        };
        self.delta.clear();
        let place = k as usize;
        carry_out_at(
            &mut self.structures,
            place,
            mark,
            &now,
            &mut self.delta,
            steps,
        )?;
        self.table
            .tell(k, &self.delta, &self.motions, &self.moment, steps)
    }
}

// The structures of these keeps, without members.
fn vacant_structures(alloc: Global, size: u32, keeps: &[Keep]) -> Result<Vec<Structure>, NoMemory>
    requires low { 1 ≤ size }
    requires high { size ≤ 12 }
    requires keepable { AreKeepable keeps.now }
    ensures count { IfOk result (λ v. length v.items ≡ length keeps.now) }
    ensures vacant { IfOk result (λ v. AreVacant size keeps.now v.items) }
{
    let mut structures = Vec::new(alloc);
    for keep in keeps {
        let structure = Structure::new(alloc, keep, size)?;
        structures.push(structure).map_err(|_| NoMemory)?;
    }
    Ok(structures)
}

// How many facts these keeps usually have over all numbers below `2^size`.
fn room_for_facts(size: u32, keeps: &[Keep]) -> usize
    requires { size ≤ 12 }
{
    let mut room: usize = 0;
    for keep in keeps {
        room = room.saturating_add(keep.facts_of_a_point() << size);
    }
    room
}

// The seats of the facts of these keeps.
fn plan_of(alloc: Global, size: u32, keeps: &[Keep]) -> Result<Plan, NoMemory>
    requires { size ≤ 12 }
{
    let mut plan = Plan::new(alloc, size);
    for keep in keeps {
        match keep {
            Keep::Hull => plan.add_merges(2 * size)?,
            // A fact's part says of which kind each of its two ends is. Those that differ in the right end's kind alone
            // share a list, so there is one for each axis and kind of the left end.
            Keep::Boxes { .. } => plan.add_pairs(4)?,
            _ => plan.add(lists_of(keep), nodes_of(keep, size))?,
        }
    }
    Ok(plan)
}

// How many lists of one part a keep has: orders, or the sweep of a farthest pair. Their facts are in its first parts, and
// each fact is known by its first number.
fn lists_of(keep: &Keep) -> u32 {
    match *keep {
        Keep::Order { .. } | Keep::Diameter => 1,
        Keep::Range => 2,
        Keep::Closest | Keep::Nearest => 8,
        Keep::Extreme { .. } | Keep::Hull | Keep::Boxes { .. } => 0,
    }
}

// How many numbers the nodes of its tournament have. Node v is the v-th part after those of the lists; none is node 0.
fn nodes_of(keep: &Keep, size: u32) -> u32
    requires { size ≤ 12 }
{
    match *keep {
        Keep::Extreme { .. } => 1 << size,
        Keep::Diameter => 2 << size,
        Keep::Closest => 8 << size,
        Keep::Order { .. } | Keep::Range | Keep::Nearest | Keep::Boxes { .. } | Keep::Hull => 0,
    }
}
