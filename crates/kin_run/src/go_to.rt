//! The failures on the way to an instant, each block written before the next is computed; no clause
//! says so.

ghost use Rattle.std.specs.Prelude.{◌≤◌, OnOk, IsErrOf};
ghost use Rattle.kin_num.specs.Canonical.{IsCanonical};
ghost use Rattle.kin_num.specs.Order.{IsEarlier};
ghost use Rattle.kin_motion.specs.Journal.{IsJournal};
ghost use Rattle.kin_motion.specs.Turning.{just_at};
ghost use Rattle.kin_io.specs.Causes.{Rose};
ghost use Rattle.kin_script.specs.Alike.{IsAlike};
ghost use Rattle.kin_script.specs.States.{state_setting};
ghost use Rattle.kin_script.specs.Text.{IsPassedText};
ghost use Rattle.kin_status.specs.declared.stop.Stop.TheVariants.{Fault as FaultOf};
ghost use Rattle.kin_status.specs.Performed.{Puts};
ghost use Rattle.kin_status.specs.Tallies.{HasTallied};
ghost use Rattle.kin_status.specs.Written.{printer};
ghost use Rattle.kin_world.specs.Worlds.{IsWhole};
ghost use Rattle.kin_run.specs.Arrived.{HasArrived};
ghost use Rattle.kin_run.specs.States.{state_of};

use kin_io::sink::Sink;
use kin_num::{Instant, Moment, NoMemory, Phase, Steps};
use kin_status::journal::{count_of, put_if_on};
use kin_status::stop::Stop;
use kin_status::tally::{Tally, count_on};
use kin_status::write::flush_if_due;
use kin_world::world::World;
use std::sync::ledger::Ledger;

/// Passes all failures up to the limit, neither listed nor counted.
fn leap_to<L: Ledger>(
    world: &mut World,
    limit: &Moment,
    steps: &mut Steps<L>,
) -> Result<(), NoMemory>
    requires whole { IsWhole world.old }
    requires later { ¬ (IsEarlier limit.now world.old.moment) }
    ensures arrived { OnOk result (HasArrived limit.now world.old world.new) }
{
    while world.leap(limit, steps)? {}
    Ok(())
}

/// Passes all failures up to the asked instant, which isn't before now. Where the journal is on,
/// the sink is given each block before the next is computed. Otherwise no block is listed, and
/// where the counts aren't asked for either, the world leaps.
pub fn go_to<K: Sink, L: Ledger>(
    world: &mut World,
    journal: bool,
    asked: Instant,
    out: &mut Vec<u8>,
    sink: &mut K,
    steps: &mut Steps<L>,
    tally: &mut Option<Tally>,
) -> Result<(), Stop>
    requires whole { IsWhole world.old }
    requires canonical { IsCanonical asked }
    requires later { ¬ (IsEarlier (just_at asked) world.old.moment) }
    ensures text { Puts (IsPassedText journal (state_of journal world.old) asked) result (printer (K.held sink.old) out.old.items) (printer (K.held sink.new) out.new.items) }
    ensures moved { OnOk result (IsAlike (record (state_of journal world.old) { moment = just_at asked }) (state_of journal world.new)) }
    ensures tallied { OnOk result (HasTallied (IsJournal (state_setting (state_of journal world.old)) world.old.moment (just_at asked)) tally.old tally.new) }
    ensures whole { OnOk result (IsWhole world.new) }
    ensures later { K.faults sink.old ≤ K.faults sink.new }
    ensures cause { IsErrOf result FaultOf → Rose (K.faults sink.old) (K.faults sink.new) }
{
    let limit = Moment {
        at: asked,
        phase: Phase::At,
    };
    if !journal && tally.is_none() {
        leap_to(world, &limit, steps)?;
        return Ok(());
    }
    if !journal {
        while let Some(failures) = world.pass(&limit, steps)? {
            count_on(tally, failures);
        }
        return Ok(());
    }
    while let Some(block) = world.step(&limit, steps)? {
        count_on(tally, count_of(&block));
        put_if_on(out, journal, &block)?;
        flush_if_due(journal, out, sink)?;
    }
    Ok(())
}
