//! Candidates in octants, with the motions that they follow.

ghost use Rattle.std.specs.Prelude.{◌≡◌, ◌≤◌, ◌<◌, ◌^◌, true, false, IsTrue, IfOk};
ghost use Rattle.kin_motion.specs.Numbers.{is_in};
ghost use Rattle.kin_list.specs.declared.mark.Mark.TheVariants.{Rest, Enters, Leaves};
ghost use Rattle.kin_wedge.specs.Wedging.{members_of};

use crate::ask::is_live;
use crate::driver::Driver;
use crate::fault::Fault;
use crate::spares::SparesLeaving;
use crate::watch::{Tally, Watch};
use kin_fail::Now;
use kin_list::Mark;
use kin_motion::{Motion, Motions, Placed};
use kin_num::{Moment, Steps};
use kin_wedge::Wedges;
use std::alloc::Global;
use std::marker::Model;
use std::sync::ledger::Ledger;

impl Driver<Wedges> {
    /// Marks a number as entering.
    fn insert(self, no: u32) -> Result<Driver<Wedges>, Fault>
        requires rest { self.mark ≡ Rest }
        requires within { no < 2 ^ self.size }
        requires new { is_in no (members_of self) ≡ false }
        ensures { IfOk result (λ k. k ≡ record self { mark = Enters no }) }
    {
        let Driver {
            alloc,
            mut structure,
            facts,
            report,
        } = self;
        structure.insert(no)?;
        Ok(Driver {
            alloc,
            structure,
            facts,
            report,
        })
    }

    /// Marks a number as leaving.
    fn remove(&mut self, no: u32)
        requires rest { self.old.mark ≡ Rest }
        requires member { is_in no (members_of self.old) ≡ true }
        ensures { self.new ≡ record self.old { mark = Leaves no } }
    {
        self.structure.remove(no);
    }
}

fn is_rest(mark: Mark) -> bool
    ensures { IsTrue result → mark ≡ Rest }
{
    match mark {
        Mark::Rest => true,
        _ => false,
    }
}

/// The live points with their candidates.
#[derive(Drop)]
pub struct Octants {
    size: u32,
    motions: Motions,
    wedges: Driver<Wedges>,
    /// The number that has entered or left since the last settle.
    mark: Mark,
}

impl Model for Octants {
    ghost use Rattle.kin_wedge.specs.Wedging.{Wedging};
    ghost use Rattle.kin_cases.specs.Octants.{AreFollowed};

    ghost Value = { Wedging };

    ghost view = { λ o. o.wedges };

    ghost invariant = { λ o. AreFollowed o.size o.motions o.mark o.wedges };
}

impl Octants {
    /// No points, and room for the numbers below `2^size`.
    pub fn new(alloc: Global, size: u32) -> Result<Octants, Fault>
        requires low { 1 ≤ size }
        requires high { size ≤ 12 }
    {
        let motions = Motions::new(alloc, size)?;
        let wedges = Driver::new(alloc, Wedges::new(alloc, size)?);
        Ok(Octants {
            size,
            motions,
            wedges,
            mark: Mark::Rest,
        })
    }

    /// Marks a new point as entering, where no mark waits.
    pub fn enter(self, no: u32, motion: Motion) -> Result<Octants, Fault> {
        let Octants {
            size,
            mut motions,
            wedges,
            mark,
        } = self;
        if !is_rest(mark) || no >= 1 << size || motions.get(no).is_some() {
            return Err(Fault::NotNew);
        }
        motions.set(no, motion);
        let wedges = wedges.insert(no)?;
        Ok(Octants {
            size,
            motions,
            wedges,
            mark: Mark::Enters(no),
        })
    }

    /// Marks a point as leaving, where no mark waits.
    pub fn leave(mut self, no: u32) -> Result<Octants, Fault> {
        if !is_rest(self.mark) || no >= 1 << self.size || !is_live(&self.motions, no) {
            return Err(Fault::NotLive);
        }
        self.motions.clear(no);
        self.wedges.remove(no);
        self.mark = Mark::Leaves(no);
        Ok(self)
    }

    /// Goes on to a moment, and carries out the mark.
    pub fn go<L: Ledger>(
        self,
        moment: &Moment,
        tally: &Tally,
        steps: &mut Steps<L>,
    ) -> Result<Octants, Fault> {
        let Octants {
            size,
            motions,
            wedges,
            mark,
        } = self;
        let now = Watch {
            motions: &motions,
            moment,
            tally,
        };
        let wedges = wedges.settle(&now, &SparesLeaving { mark }, steps)?;
        Ok(Octants {
            size,
            motions,
            wedges,
            mark: Mark::Rest,
        })
    }

    /// The live facts, in any order.
    pub fn facts(&self) -> &[Placed] {
        self.wedges.facts()
    }

    /// The motions at a moment.
    pub fn at<'a>(&'a self, moment: &'a Moment) -> Now<'a> {
        Now {
            motions: &self.motions,
            moment,
        }
    }

    /// The candidate of an apex in an octant, where both are in range.
    pub fn candidate(&self, apex: u32, octant: u32) -> Option<u32> {
        if apex >= 1 << self.size || octant >= 8 {
            return None;
        }
        self.wedges.structure.candidate(apex, octant)
    }

    /// The slots whose candidate a number is, rising.
    pub fn hits(&self, no: u32) -> Result<Vec<u64>, Fault> {
        let mut slots = Vec::new(self.wedges.alloc);
        for octant in 0..8 {
            for apex in self.wedges.structure.hits(no, octant) {
                slots
                    .push(8 * u64::from(apex) + u64::from(octant))
                    .map_err(|_| Fault::NoMemory)?;
            }
        }
        slots.sort_unstable();
        Ok(slots)
    }

    /// The slots whose candidate has changed last.
    pub fn changed(&self) -> Result<Vec<u32>, Fault> {
        let mut slots = Vec::new(self.wedges.alloc);
        self.wedges.structure.list_changed(&mut slots)?;
        Ok(slots)
    }
}
