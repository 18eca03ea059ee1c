//! Plans: the motion of a point, in pieces.

ghost use Rattle.std.specs.Prelude.{◌≡◌, ◌<◌, ◌^◌, ◌↔◌, ◌++◌, List, IsTrue, OnOk};
ghost use Rattle.std.specs.List.{All};
ghost use Rattle.kin_num.specs.Order.{IsEarlier};
ghost use Rattle.kin_motion.specs.Plans.{Leg as Piece, is_begun, motion_in_force};
ghost use Rattle.kin_motion.specs.Turning.{just_at};
ghost use Rattle.kin_legs.specs.Joined.{with_leg};
ghost use Rattle.kin_legs.specs.Paths.{IsFair, lasting, whole};
ghost use Rattle.kin_legs.specs.Scheduling.{HasLegFrom, last_motion};
ghost use Rattle.kin_check.specs.Beginnings.{IsSoonest};

use kin_instant::order::compare;
use kin_motion::Motion;
use kin_num::memory::NoMemory;
use kin_num::{Instant, Moment, Shape};
use std::alloc::Global;
use std::cmp::Ordering;
use std::marker::Model;

/// From a whole instant on, a motion.
#[derive(Clone, Copy, Debug, PartialEq, Eq, Drop)]
pub struct Leg {
    from: u32,
    motion: Motion,
}

impl Model for Leg {
    ghost use Rattle.kin_motion.specs.Plans.{Leg};

    ghost Value = { Leg };

    ghost view = { λ l. record { from = l.from; motion = l.motion } };

    ghost inverse = { λ l. record { from = l.from; motion = l.motion } };
}

/// A first motion, and then legs.
#[derive(Drop)]
pub struct Plan {
    first: Motion,
    legs: Vec<Leg>,
}

impl Model for Plan {
    ghost use Rattle.kin_motion.specs.Plans.{Plan};

    ghost Value = { Plan };

    ghost view = { λ p. record { first = p.first; legs = p.legs.items } };
}

/// A whole number as an instant.
pub fn whole(number: u32) -> Instant
    requires { number < 2 ^ 31 }
    ensures { result ≡ whole number }
{
    Instant::of(Shape::Ratio {
        n: i64::from(number),
        d: 1,
    })
}

/// Whether an instant comes after a moment.
pub fn is_after(instant: &Instant, moment: &Moment) -> bool
    ensures { IsTrue result ↔ IsEarlier moment.now (just_at instant.now) }
{
    compare(instant, &moment.at) == Ordering::Greater
}

impl Leg {
    /// From this whole instant on, this motion.
    pub fn new(from: u32, motion: Motion) -> Leg
        ensures { result ≡ record { from = from; motion = motion } }
    {
        Leg { from, motion }
    }

    /// Whether it has begun at a moment.
    fn is_begun(&self, moment: &Moment) -> bool
        requires { self.now.from < 2 ^ 31 }
        ensures { result ≡ is_begun self.now moment.now }
    {
        moment.at.recall_canonical();
        !is_after(&whole(self.from), moment)
    }
}

impl Plan {
    /// The motion for ever.
    pub fn lasting(alloc: Global, motion: Motion) -> Plan
        ensures { result ≡ lasting motion }
    {
        Plan {
            first: motion,
            legs: Vec::new(alloc),
        }
    }

    /// The motion at a moment: that of the last leg that has begun, or the first one.
    pub fn motion_at(&self, moment: &Moment) -> Motion
        requires { All IsFair self.now.legs }
        ensures { result ≡ motion_in_force moment.now self.now }
    {
        let mut motion = self.first;
        for leg in &self.legs {
            if leg.is_begun(moment) {
                motion = leg.motion;
            }
        }
        motion
    }

    /// The motion after all legs.
    pub fn last_motion(&self) -> Motion
        ensures { result ≡ last_motion self.now }
    {
        let mut motion = self.first;
        for leg in &self.legs {
            motion = leg.motion;
        }
        motion
    }

    /// Whether a leg begins at this instant or later.
    pub fn has_leg_from(&self, at: u32) -> bool
        ensures { IsTrue result ↔ HasLegFrom self.now at }
    {
        for leg in &self.legs {
            if at <= leg.from {
                return true;
            }
        }
        false
    }

    /// Puts a leg at the end.
    pub fn put(&mut self, leg: Leg) -> Result<(), NoMemory>
        ensures { OnOk result (self.new ≡ with_leg self.old leg) }
    {
        self.legs.push(leg).map_err(|_| NoMemory)
    }

    /// The instant of the first leg that begins after a moment, or of one that was found before, if that is sooner.
    pub fn soonest(&self, moment: &Moment, found: Option<u32>) -> Option<u32>
        requires { All IsFair self.now.legs }
        ensures { (passed : List Piece) → IsSoonest moment.now passed found → IsSoonest moment.now (passed ++ self.now.legs) result }
    {
        moment.at.recall_canonical();
        let mut soonest = found;
        for leg in &self.legs {
            if !leg.is_begun(moment) {
                soonest = Some(leg.from.min(soonest.unwrap_or(leg.from)));
            }
        }
        soonest
    }
}
