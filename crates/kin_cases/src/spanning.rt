//! A hull with its farthest pair, and the motions that both follow.

ghost use Rattle.std.specs.Prelude.{◌≡◌, ◌≤◌, ◌^◌, ℕ, length, Some, IsFalse, IfOk, OnOk};
ghost use Rattle.kin_motion.specs.Course.{live_of};
ghost use Rattle.kin_motion.specs.Numbers.{IsIn};
ghost use Rattle.kin_motion.specs.Scene.{scene_at};
ghost use Rattle.kin_diameter.specs.Diameter.{IsDiameterAtRest, IsReadyDiameter};

use crate::ask::is_live;
use crate::driver::Driver;
use crate::failing::{after, failing_at};
use crate::fault::Fault;
use crate::keeping::Keeping;
use crate::spares::SparesOne;
use crate::watch::{Tally, Watch};
use kin_diameter::KinDiameter;
use kin_hull::KinHull;
use kin_motion::keep::Keep;
use kin_motion::kinetic::Kinetic;
use kin_motion::{Delta, Motion, Motions, Placed};
use kin_num::{Moment, NoMemory, Steps};
use std::alloc::Global;
use std::marker::Model;
use std::sync::ledger::Ledger;

/// Gives a farthest pair both chains, and the number that leaves.
fn tell(
    pair: &mut KinDiameter,
    upper: &[u32],
    lower: &[u32],
    leaving: Option<u32>,
) -> Result<(), NoMemory>
    requires { IsDiameterAtRest pair.old }
    ensures { OnOk result (pair.new ≡ record pair.old { upper = upper.now; lower = lower.now; leaving = leaving }) }
{
    pair.chains(upper, lower)?;
    if let Some(no) = leaving {
        pair.remove(no);
    }
    Ok(())
}

impl Driver<KinDiameter> {
    /// Settles it by both chains of a moment. The number that leaves isn't live any more.
    fn follow<L: Ledger>(
        self,
        upper: &[u32],
        lower: &[u32],
        leaving: Option<u32>,
        now: &Watch<'_>,
        steps: &mut Steps<L>,
    ) -> Result<Driver<KinDiameter>, Fault>
        requires rest { IsDiameterAtRest self }
        requires ready { IsReadyDiameter (record self { upper = upper.now; lower = lower.now; leaving = leaving }) (scene_at now.now.motions.now now.now.moment.now) }
        ensures rest { IfOk result IsDiameterAtRest }
        ensures size { IfOk result (λ k. k.size ≡ self.size) }
    {
        let Driver {
            alloc,
            mut structure,
            facts,
            report: _,
        } = self;
        tell(&mut structure, upper, lower, leaving)?;
        let failed = failing_at(alloc, &facts, now, &SparesOne { no: leaving })?;
        let mut out = Delta::new(alloc);
        structure.settle(now, &failed, &mut out, steps)?;
        let facts = after(alloc, &facts, &out)?;
        Ok(Driver {
            alloc,
            structure,
            facts,
            report: out,
        })
    }
}

/// Whether a number that leaves is live.
fn stays(motions: &Motions, leaving: Option<u32>) -> bool
    ensures { IsFalse result → (i : ℕ) → leaving ≡ Some i → ¬ (IsIn i (live_of motions.now)) }
{
    match leaving {
        Some(no) => is_live(motions, no),
        None => false,
    }
}

/// Both chains of the live points, from left to right.
#[derive(Drop)]
pub struct Chains<'a> {
    pub size: u32,
    pub motions: &'a Motions,
    pub moment: &'a Moment,
    pub upper: &'a [u32],
    pub lower: &'a [u32],
    ghost small: { size ≤ 12 },
    ghost slots: { length motions.now ≡ 2 ^ size },
}

impl Keeping<KinHull> {
    /// The chains at the moment of the last call.
    pub fn chains(&self) -> Chains<'_> {
        Chains {
            size: self.size,
            motions: &self.motions,
            moment: &self.moment,
            upper: self.kept.structure.upper(),
            lower: self.kept.structure.lower(),
        }
    }

    /// Settles a farthest pair by the chains at the moment of the last call. The number that leaves isn't live any more.
    fn lead<L: Ledger>(
        &self,
        size: u32,
        pair: Driver<KinDiameter>,
        leaving: Option<u32>,
        tally: &Tally,
        steps: &mut Steps<L>,
    ) -> Result<Driver<KinDiameter>, Fault>
        requires rest { IsDiameterAtRest pair }
        requires sized { pair.size ≡ size }
        ensures rest { IfOk result IsDiameterAtRest }
        ensures sized { IfOk result (λ k. k.size ≡ size) }
    {
        if self.size != size || stays(&self.motions, leaving) {
            return Err(Fault::NotReady);
        }
        let now = Watch {
            motions: &self.motions,
            moment: &self.moment,
            tally,
        };
        let hull = self.kept.structure();
        pair.follow(hull.upper(), hull.lower(), leaving, &now, steps)
    }
}

/// The hull of all live points and their farthest pair, both settled at a moment. The signs that the hull asks aren't
/// counted.
#[derive(Drop)]
pub struct Spanning {
    size: u32,
    hull: Keeping<KinHull>,
    pair: Driver<KinDiameter>,
}

impl Model for Spanning {
    ghost use Rattle.std.specs.Prelude.{◌≡◌};
    ghost use Rattle.kin_diameter.specs.Diameter.{Diameter, IsDiameterAtRest};

    ghost Value = { Diameter };

    ghost view = { λ s. s.pair };

    ghost invariant = { λ s. IsDiameterAtRest s.pair × (s.pair.size ≡ s.size) };
}

impl Spanning {
    /// No points at a moment, and room for the numbers below `2^size`.
    pub fn new(alloc: Global, size: u32, moment: &Moment) -> Result<Spanning, Fault>
        requires low { 1 ≤ size }
        requires high { size ≤ 12 }
    {
        let hull = Keeping::new(alloc, &Keep::Hull, size, moment)?;
        let pair = Driver::new(alloc, KinDiameter::new(alloc, size)?);
        Ok(Spanning { size, hull, pair })
    }

    /// A hull that was settled, and its farthest pair, which follows it.
    fn settled<L: Ledger>(
        size: u32,
        hull: Keeping<KinHull>,
        pair: Driver<KinDiameter>,
        leaving: Option<u32>,
        tally: &Tally,
        steps: &mut Steps<L>,
    ) -> Result<Spanning, Fault>
        requires rest { IsDiameterAtRest pair }
        requires sized { pair.size ≡ size }
    {
        let pair = hull.lead(size, pair, leaving, tally, steps)?;
        Ok(Spanning { size, hull, pair })
    }

    /// A new point enters at the moment of the last call.
    pub fn enter<L: Ledger>(
        self,
        no: u32,
        motion: Motion,
        tally: &Tally,
        steps: &mut Steps<L>,
    ) -> Result<Spanning, Fault> {
        let Spanning { size, hull, pair } = self;
        let hull = hull.enter(no, motion, &Tally::new(), steps)?;
        Spanning::settled(size, hull, pair, None, tally, steps)
    }

    /// A point leaves at the moment of the last call.
    pub fn leave<L: Ledger>(
        self,
        no: u32,
        tally: &Tally,
        steps: &mut Steps<L>,
    ) -> Result<Spanning, Fault> {
        let Spanning { size, hull, pair } = self;
        let hull = hull.leave(no, &Tally::new(), steps)?;
        Spanning::settled(size, hull, pair, Some(no), tally, steps)
    }

    /// Goes on to a moment.
    pub fn go<L: Ledger>(
        self,
        moment: &Moment,
        tally: &Tally,
        steps: &mut Steps<L>,
    ) -> Result<Spanning, Fault> {
        let Spanning { size, hull, pair } = self;
        let hull = hull.go(moment, &Tally::new(), steps)?;
        Spanning::settled(size, hull, pair, None, tally, steps)
    }

    /// The farthest pair, if two points are at different places.
    pub fn farthest(&self) -> Option<(u32, u32)> {
        self.pair.structure.farthest()
    }

    /// The live facts of the farthest pair, in any order.
    pub fn facts(&self) -> &[Placed] {
        self.pair.facts()
    }

    /// The live facts of the hull, in any order.
    pub fn hull_facts(&self) -> &[Placed] {
        self.hull.facts()
    }

    /// Both chains, with the motions and the moment of the last call.
    pub fn chains(&self) -> Chains<'_> {
        self.hull.chains()
    }
}
