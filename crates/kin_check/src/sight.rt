//! What is seen at a moment.

ghost use Rattle.std.specs.Prelude.{◌≡◌, ◌+◌, IfOk};
ghost use Rattle.std.specs.List.{All};
ghost use Rattle.kin_motion.specs.Course.{live_of};
ghost use Rattle.kin_motion.specs.Forms.{IsAskable};
ghost use Rattle.kin_motion.specs.Live.{live_facts};
ghost use Rattle.kin_motion.specs.Plans.{motions_in_force, plans_scene};
ghost use Rattle.kin_motion.specs.Scene.{scene_at};
ghost use Rattle.kin_check.specs.Sound.{IsSound};

use crate::state::State;
use kin_fail::Now;
use kin_motion::form::Form;
use kin_motion::motion::Motions;
use kin_motion::signs::Signs;
use kin_num::memory::NoMemory;
use kin_num::{Moment, Sign, Steps};
use kin_plain::keeps::{Owned, live_facts};
use kin_plain::numbers::live_numbers;
use std::alloc::Global;
use std::sync::ledger::Ledger;

/// The motions in force at a moment, and the live numbers.
#[derive(Drop)]
pub struct Sight {
    pub motions: Motions,
    pub live: Vec<u32>,
    pub moment: Moment,
    ghost lists_live: { live.items ≡ live_of motions },
}

impl Signs for Sight {
    ghost use Rattle.kin_motion.specs.Scene.{scene_at};

    ghost scene = { λ s. scene_at s.motions s.moment };

    fn sign<L: Ledger>(&self, form: &Form, steps: &mut Steps<L>) -> Sign {
        let now = Now {
            motions: &self.motions,
            moment: &self.moment,
        };
        now.sign(form, steps)
    }
}

/// What is seen at a moment as the points follow their plans.
pub fn sight_at(alloc: Global, state: &State, moment: &Moment) -> Result<Sight, NoMemory>
    requires { IsSound state.now }
    ensures motions { IfOk result (λ s. s.motions ≡ motions_in_force state.now.plans moment.now) }
    ensures moment { IfOk result (λ s. s.moment ≡ moment.now) }
{
    let motions = state.motions_at(moment)?;
    let live = live_numbers(alloc, &motions, state.size())?;
    Ok(Sight {
        motions,
        live,
        moment: *moment,
    })
}

/// All facts that are live at a moment.
pub fn facts_at<L: Ledger>(
    alloc: Global,
    state: &State,
    moment: &Moment,
    steps: &mut Steps<L>,
) -> Result<Vec<Owned>, NoMemory>
    requires { IsSound state.now }
    ensures { IfOk result (λ facts. facts.items ≡ live_facts state.now.size state.now.keeps (plans_scene state.now.plans moment.now)) }
{
    let sight = sight_at(alloc, state, moment)?;
    live_facts(
        alloc,
        &sight,
        state.size(),
        &sight.live,
        state.keeps(),
        steps,
    )
}
