//! What structures that a world keeps answer, as numbers.

ghost use Rattle.std.specs.Prelude.{◌≡◌, ◌<◌};
ghost use Rattle.kin_motion.specs.Scene.{scene_at};
ghost use Rattle.kin_wedge.specs.Wedging.{IsSettledWedging};

use crate::ask::is_live;
use crate::fault::Fault;
use kin_boxes::KinBoxes;
use kin_closest::KinClosest;
use kin_fail::Now;
use kin_hull::KinHull;
use kin_list::KinList;
use kin_motion::Motions;
use kin_motion::keep::Rect;
use kin_motion::kept::Kept;
use kin_nearest::KinNearest;
use kin_num::{Moment, Steps};
use kin_range::KinRange;
use std::alloc::Global;
use std::marker::Brand;
use std::sync::ledger::{Blank, Ledger};

/// A structure whose answer is a list of numbers.
pub trait Answer: Kept {
    /// Its answer at the moment at which it is settled.
    fn answer(&self, alloc: Global, motions: &Motions, moment: &Moment) -> Result<Vec<u32>, Fault>
        requires rest { Self.at_rest self.now }
        requires settled { Self.settled self.now (scene_at motions.now moment.now) };
}

/// The points in their order.
impl Answer for KinList {
    fn answer(
        &self,
        alloc: Global,
        _motions: &Motions,
        _moment: &Moment,
    ) -> Result<Vec<u32>, Fault> {
        Ok(Vec::from_slice(alloc, self.items())?)
    }
}

/// The hull cycle.
impl Answer for KinHull {
    fn answer(
        &self,
        _alloc: Global,
        _motions: &Motions,
        _moment: &Moment,
    ) -> Result<Vec<u32>, Fault> {
        Ok(self.cycle()?)
    }
}

/// The points from 1 to 4 along x and from 0 to 2 along y.
impl Answer for KinRange {
    fn answer(
        &self,
        _alloc: Global,
        motions: &Motions,
        moment: &Moment,
    ) -> Result<Vec<u32>, Fault> {
        let rect = Rect {
            x1: 1,
            x2: 4,
            y1: 0,
            y2: 2,
        };
        Ok(self.inside(motions, moment, &rect)?)
    }
}

/// The two points of the closest pair, if there are two.
impl Answer for KinClosest {
    fn answer(
        &self,
        alloc: Global,
        _motions: &Motions,
        _moment: &Moment,
    ) -> Result<Vec<u32>, Fault> {
        match self.closest() {
            Some((i, j)) => Ok(Vec::from_slice(alloc, &[i, j])?),
            None => Ok(Vec::new(alloc)),
        }
    }
}

/// The two points of each pair whose boxes overlap, pair after pair.
impl Answer for KinBoxes {
    fn answer(
        &self,
        alloc: Global,
        _motions: &Motions,
        _moment: &Moment,
    ) -> Result<Vec<u32>, Fault> {
        let mut both = Vec::new(alloc);
        for (i, j) in self.overlaps()? {
            both.push(i).map_err(|_| Fault::NoMemory)?;
            both.push(j).map_err(|_| Fault::NoMemory)?;
        }
        Ok(both)
    }
}

/// The nearest other points, by a counter of its own.
fn nearest_by<L: Ledger>(
    nearest: &KinNearest,
    alloc: Global,
    now: &Now<'_>,
    blank: Blank,
) -> Result<Vec<u32>, Fault>
    requires settled { IsSettledWedging nearest.now (scene_at now.now.motions.now now.now.moment.now) }
    requires name { blank.name ≡ L.name }
    requires parts { blank.parts ≡ L.parts }
    requires some { 0 < L.parts }
{
    let mut steps = Steps::<L>::open(blank);
    let mut all = Vec::new(alloc);
    now.moment.at.recall_canonical();
    for no in 0..8 {
        if is_live(now.motions, no) {
            if let Some(other) = nearest.nearest(now, no, &mut steps) {
                all.push(other).map_err(|_| Fault::NoMemory)?;
            }
        }
    }
    Ok(all)
}

/// The nearest other point of each point below 8 that has one.
impl Answer for KinNearest {
    fn answer(&self, alloc: Global, motions: &Motions, moment: &Moment) -> Result<Vec<u32>, Fault> {
        let now = Now { motions, moment };
        nearest_by::<Brand>(self, alloc, &now, Blank::new(1))
    }
}
