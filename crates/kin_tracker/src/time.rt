//! Calls that go on in time.

ghost use Rattle.std.specs.Prelude.{◌≡◌, ◌<◌, IsSome, IfOk, OnOk, IfErr};
ghost use Rattle.kin_num.specs.Grains.{moments_left};
ghost use Rattle.kin_tracker.specs.Times.{MayGo, IsRefusedGoing, IsRefusedStep, HasArrived, HasGoneOn, HasCome};
ghost use Rattle.kin_tracker.specs.Trackers.{IsHere, Leaves};
ghost use Rattle.kin_world.specs.Worlds.{HasStepped};

use crate::counted;
use crate::numbers::is_earlier;
use crate::refusal::Refusal;
use crate::tracker::Tracker;
use kin_num::Moment;
use kin_world::Block;
use std::marker::Brand;
use std::sync::ledger::Blank;

/// What comes next.
#[derive(Drop)]
pub enum Event {
    /// Live facts fail.
    Failures(Block),
    /// A leg begins at this moment, and no live fact fails up to it.
    Leg(Moment),
    /// Nothing, ever: no leg is still to come, and no live fact fails any more.
    Nothing,
}

impl Tracker {
    /// Goes to a moment that isn't before now. Legs on the way begin, and structures are repaired; nothing is listed.
    pub fn go_to(&mut self, moment: &Moment) -> Result<(), Refusal>
        ensures may { OnOk result (MayGo self.old moment.now) }
        ensures arrived { OnOk result (HasArrived moment.now self.old self.new) }
        ensures refused { IfErr result (IsRefusedGoing self.old moment.now) }
        ensures leaves { IfErr result (Leaves self.old self.new) }
    {
        if !self.world.is_whole() {
            return Err(Refusal::Lost);
        }
        if is_earlier(moment, self.world.now()) {
            return Err(Refusal::Past);
        }
        let Ok(()) = counted::go_to::<Brand>(&mut self.world, moment, Blank::new(1)) else {
            return Err(Refusal::NoMemory);
        };
        Ok(())
    }

    /// Goes to the first moment, not after the limit, at which live facts fail, and answers these; or goes to the limit, and
    /// answers `None`. Legs on the way begin. A loop over steps ends, since fewer moments are left after each block.
    pub fn step(&mut self, limit: &Moment) -> Result<Option<Block>, Refusal>
        ensures may { OnOk result (MayGo self.old limit.now) }
        ensures stepped { IfOk result (λ block. HasStepped limit.now block self.old self.new) }
        ensures fewer { IfOk result (λ block. IsSome block → moments_left self.new.moment < moments_left self.old.moment) }
        ensures refused { IfErr result (IsRefusedGoing self.old limit.now) }
        ensures leaves { IfErr result (Leaves self.old self.new) }
    {
        if !self.world.is_whole() {
            return Err(Refusal::Lost);
        }
        if is_earlier(limit, self.world.now()) {
            return Err(Refusal::Past);
        }
        let Ok(found) = counted::step::<Brand>(&mut self.world, limit, Blank::new(1)) else {
            return Err(Refusal::NoMemory);
        };
        Ok(found)
    }

    /// Goes to what comes next, the next failures or the beginning of the next leg, whichever is earlier. Where nothing comes
    /// any more it stays where it is. Fewer moments are left after each event.
    pub fn go_on(&mut self) -> Result<Event, Refusal>
        ensures may { OnOk result (IsHere self.old) }
        ensures gone { IfOk result (HasGoneOn self.old self.new) }
        ensures fewer { IfOk result (λ event. HasCome event → moments_left self.new.moment < moments_left self.old.moment) }
        ensures refused { IfErr result (IsRefusedStep self.old) }
        ensures leaves { IfErr result (Leaves self.old self.new) }
    {
        if !self.world.is_whole() {
            return Err(Refusal::Lost);
        }
        let Some(moment) = self.world.next() else {
            return Ok(Event::Nothing);
        };
        let Ok(found) = counted::step::<Brand>(&mut self.world, &moment, Blank::new(1)) else {
            return Err(Refusal::NoMemory);
        };
        let Some(block) = found else {
            return Ok(Event::Leg(moment));
        };
        Ok(Event::Failures(block))
    }
}
