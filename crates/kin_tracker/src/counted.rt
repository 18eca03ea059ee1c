//! Calls of a world that count steps, with a counter that is never read.

ghost use Rattle.std.specs.Prelude.{◌≡◌, ◌≤◌, ◌<◌, ◌^◌, IsTrue, IsFalse, IfOk, OnOk, OnErr, IsSome, MatchOption};
ghost use Rattle.kin_num.specs.Grains.{moments_left};
ghost use Rattle.kin_num.specs.Order.{IsEarlier};
ghost use Rattle.kin_motion.specs.Course.{Course, is_live};
ghost use Rattle.kin_motion.specs.Sizes.{step_limit};
ghost use Rattle.kin_fail.specs.Approach.{IsFirstWithin, StayApart};
ghost use Rattle.kin_tracker.specs.Times.{HasArrived};
ghost use Rattle.kin_tracker.specs.Trackers.{IsLost};
ghost use Rattle.kin_world.specs.Worlds.{IsWhole, CanTurn, HasInserted, HasRemoved, HasReplaced, HasTurned, HasStepped, IsBusyWithin};

use kin_motion::Motion;
use kin_num::{Moment, NoMemory, Steps};
use kin_world::{Block, World};
use std::sync::ledger::{Blank, Ledger};

/// Inserts a number.
pub(crate) fn insert<L: Ledger>(
    world: &mut World,
    no: u32,
    motion: Motion,
    blank: Blank,
) -> Result<(), NoMemory>
    requires name { blank.name ≡ L.name }
    requires parts { blank.parts ≡ L.parts }
    requires some { 0 < L.parts }
    requires whole { IsTrue world.old.whole }
    requires room { no < 2 ^ world.old.size }
    requires free { IsFalse (is_live world.old.motions no) }
    ensures inserted { OnOk result (HasInserted no motion world.old world.new) }
    ensures lost { OnErr result (IsLost world.new) }
{
    let mut steps = Steps::<L>::open(blank);
    world.insert(no, motion, &mut steps)
}

/// Removes a number.
pub(crate) fn remove<L: Ledger>(world: &mut World, no: u32, blank: Blank) -> Result<(), NoMemory>
    requires name { blank.name ≡ L.name }
    requires parts { blank.parts ≡ L.parts }
    requires some { 0 < L.parts }
    requires whole { IsTrue world.old.whole }
    requires live { IsTrue (is_live world.old.motions no) }
    ensures removed { OnOk result (HasRemoved no world.old world.new) }
    ensures lost { OnErr result (IsLost world.new) }
{
    let mut steps = Steps::<L>::open(blank);
    world.remove(no, &mut steps)
}

/// Gives a number another motion.
pub(crate) fn replace<L: Ledger>(
    world: &mut World,
    no: u32,
    motion: Motion,
    blank: Blank,
) -> Result<(), NoMemory>
    requires name { blank.name ≡ L.name }
    requires parts { blank.parts ≡ L.parts }
    requires some { 0 < L.parts }
    requires whole { IsTrue world.old.whole }
    requires live { IsTrue (is_live world.old.motions no) }
    ensures replaced { OnOk result (HasReplaced no motion world.old world.new) }
    ensures lost { OnErr result (IsLost world.new) }
{
    let mut steps = Steps::<L>::open(blank);
    world.replace(no, motion, &mut steps)
}

/// Gives a number another velocity where it is.
pub(crate) fn turn<L: Ledger>(
    world: &mut World,
    no: u32,
    u: i32,
    v: i32,
    blank: Blank,
) -> Result<(), NoMemory>
    requires name { blank.name ≡ L.name }
    requires parts { blank.parts ≡ L.parts }
    requires some { 0 < L.parts }
    requires whole { IsTrue world.old.whole }
    requires turnable { (motion : Course) × CanTurn no u v world.old motion }
    ensures turned { OnOk result (HasTurned no u v world.old world.new) }
    ensures lost { OnErr result (IsLost world.new) }
{
    let mut steps = Steps::<L>::open(blank);
    world.turn(no, u, v, &mut steps)
}

/// Goes to the next failures, or to the limit where there are none up to it.
pub(crate) fn step<L: Ledger>(
    world: &mut World,
    limit: &Moment,
    blank: Blank,
) -> Result<Option<Block>, NoMemory>
    requires name { blank.name ≡ L.name }
    requires parts { blank.parts ≡ L.parts }
    requires some { 0 < L.parts }
    requires whole { IsTrue world.old.whole }
    requires later { ¬ (IsEarlier limit.now world.old.moment) }
    ensures stepped { IfOk result (λ block. HasStepped limit.now block world.old world.new) }
    ensures fewer { IfOk result (λ block. IsSome block → moments_left world.new.moment < moments_left world.old.moment) }
    ensures lost { OnErr result (IsLost world.new) }
    ensures cause { OnErr result (IsBusyWithin limit.now world.old) }
{
    let mut steps = Steps::<L>::open(blank);
    world.step(limit, &mut steps)
}

/// Goes to a moment, past all failures on the way.
pub(crate) fn go_to<L: Ledger>(
    world: &mut World,
    moment: &Moment,
    blank: Blank,
) -> Result<(), NoMemory>
    requires name { blank.name ≡ L.name }
    requires parts { blank.parts ≡ L.parts }
    requires some { 0 < L.parts }
    requires whole { IsWhole world.old }
    requires later { ¬ (IsEarlier moment.now world.old.moment) }
    ensures arrived { OnOk result (HasArrived moment.now world.old world.new) }
    ensures lost { OnErr result (IsLost world.new) }
    ensures cause { OnErr result (IsBusyWithin moment.now world.old) }
{
    moment.at.recall_canonical();
    let mut steps = Steps::<L>::open(blank);
    while world.leap(moment, &mut steps)? {}
    Ok(())
}

/// When two points come within a distance.
pub(crate) fn first_within<L: Ledger>(
    one: &Motion,
    other: &Motion,
    distance: u32,
    now: &Moment,
    blank: Blank,
) -> Option<Moment>
    requires name { blank.name ≡ L.name }
    requires parts { blank.parts ≡ L.parts }
    requires some { 0 < L.parts }
    requires near { distance ≤ step_limit }
    ensures { MatchOption result (StayApart distance one.now other.now now.now) (IsFirstWithin distance one.now other.now now.now) }
{
    let mut steps = Steps::<L>::open(blank);
    kin_world::first_within(one, other, distance, now, &mut steps)
}
