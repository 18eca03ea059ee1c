//! The table takes over what a structure has changed.

ghost use Rattle.std.specs.Prelude.{◌≡◌, ◌+◌, ◌-◌, ◌^◌, length, min, OnOk};
ghost use Rattle.kin_motion.specs.Scene.{scene_at, IsReal};
ghost use Rattle.kin_cert.specs.Told.{MayTell, IsTold};
ghost use Rattle.kin_cert.specs.Cost.{TakesAtMost, change_cost};

use crate::table::Table;
use kin_motion::{Delta, Motions};
use kin_num::{Moment, NoMemory, Steps};
use std::sync::ledger::Ledger;

impl Table {
    /// Takes over what structure `k`, whose facts the table has, has dropped and born at the moment
    /// now. Its new facts hold there and may be asked for. Then the table has the structure's new facts,
    /// and those of the others as before. After want of memory it may not be used again.
    pub fn tell<L: Ledger>(
        &mut self,
        k: u32,
        delta: &Delta,
        motions: &Motions,
        now: &Moment,
        steps: &mut Steps<L>,
    ) -> Result<(), NoMemory>
        requires { MayTell k delta.now (scene_at motions.now now.now) self.old.live }
        ensures told { OnOk result (IsTold k delta.now (scene_at motions.now) now.now self.old.live self.new.live) }
        ensures made { OnOk result (self.new.made ≡ min (self.old.made + length delta.now.born) (2 ^ 64 - 1)) }
        ensures cost { OnOk result (TakesAtMost (length self.old.live + length delta.now.born) (change_cost k delta.now self.old.live) steps.old steps.new) }
    {
        self.apply(k, delta, motions, now, steps)
    }
}
