//! What comes next: live facts fail, or a leg begins.

ghost use Rattle.std.specs.Prelude.{OnOk};
ghost use Rattle.kin_script.specs.Alike.{IsAlike};
ghost use Rattle.kin_script.specs.Replay.{LeadsToNext};
ghost use Rattle.kin_script.specs.States.{State};
ghost use Rattle.kin_script.specs.Text.{IsNextText};
ghost use Rattle.kin_status.specs.Passed.{IsNextIfAny};
ghost use Rattle.kin_status.specs.Performed.{PutsLine};
ghost use Rattle.kin_status.specs.Tallies.{HasTallied};
ghost use Rattle.kin_world.specs.Worlds.{IsWhole};
ghost use Rattle.kin_run.specs.States.{state_of};

use kin_num::{NoMemory, Steps};
use kin_print::put_bytes;
use kin_status::journal::{count_of, put_now, put_passed};
use kin_status::tally::{Tally, count_on};
use kin_world::world::World;
use std::sync::ledger::Ledger;

/// Moves to the next failures or to the next beginning of a leg, whichever is earlier, and appends the failures where
/// the journal is on, and then the line with the moment. Where no leg is to come and nothing ever fails, appends the
/// line `none`. Counts the block, if there is one and counts are asked for.
pub fn put_next<L: Ledger>(
    world: &mut World,
    journal: bool,
    out: &mut Vec<u8>,
    steps: &mut Steps<L>,
    tally: &mut Option<Tally>,
) -> Result<(), NoMemory>
    requires whole { IsWhole world.old }
    ensures line { PutsLine (IsNextText (state_of journal world.old)) result out.old.items out.new.items }
    ensures leads { OnOk result ((t : State) × LeadsToNext (state_of journal world.old) t × IsAlike t (state_of journal world.new)) }
    ensures tallied { OnOk result (HasTallied (IsNextIfAny (state_of journal world.old)) tally.old tally.new) }
    ensures whole { OnOk result (IsWhole world.new) }
{
    let Some(moment) = world.next() else {
        return put_bytes(out, b"none\n");
    };
    match world.step(&moment, steps)? {
        Some(block) => {
            count_on(tally, count_of(&block));
            put_passed(out, journal, &block)
        }
        None => put_now(out, &moment),
    }
}
