//! A merge that is told how its chains change.

ghost use Rattle.std.specs.Prelude.{◌≡◌, ◌≢◌, [], IfOk};
ghost use Rattle.kin_motion.specs.Scene.{IsReal};
ghost use Rattle.kin_overlay.specs.declared.stage.Stage.TheVariants.{Broken, Rest};
ghost use Rattle.kin_overlay.specs.Overlays.{told_chain, IsReady, IsSameMerge};
ghost use Rattle.kin_cases.specs.Merges.{AreApart, IsToldOf, other_chain};

use crate::ask::Sight;
use crate::driver::Driver;
use crate::failing::{after, failing};
use crate::fault::Fault;
use crate::merging::{Merging, are_less, ask_chains};
use crate::spares::SparesNamed;
use kin_motion::Delta;
use kin_motion::kinetic::Kinetic;
use kin_motion::signs::Signs;
use kin_num::Steps;
use kin_overlay::diff::diff;
use kin_overlay::edit::{Chain, edit_list};
use kin_overlay::{Half, Overlay};
use std::alloc::Global;
use std::marker::Model;
use std::sync::ledger::Ledger;

/// The numbers that the edits of a half have put and dropped.
#[derive(Drop)]
pub(crate) struct Edited {
    put: Vec<u32>,
    dropped: Vec<u32>,
}

impl Edited {
    pub(crate) fn new(alloc: Global) -> Edited {
        Edited {
            put: Vec::new(alloc),
            dropped: Vec::new(alloc),
        }
    }

    /// Whether no number was put and dropped.
    fn is_apart(&self) -> bool {
        !self.put.iter().any(|no| self.dropped.contains(no))
    }
}

impl Driver<Overlay> {
    /// Gives the new chain of a half, and notes the numbers that this puts and drops.
    fn tell(
        self,
        half: Half,
        old: &[u32],
        new: &[u32],
        gone: &mut Vec<u32>,
        edited: &mut Edited,
    ) -> Result<Driver<Overlay>, Fault>
        requires whole { self.stage ≢ Broken }
        requires old { told_chain half self ≡ old.now }
        requires apart { AreApart half new.now (other_chain half self) }
        requires gone { self.gone ≡ gone.old.items }
        ensures told { IfOk result (IsToldOf half self new.now) }
        ensures gone { IfOk result (λ m. m.gone ≡ gone.new.items) }
    {
        let Driver {
            alloc,
            mut structure,
            facts,
            report,
        } = self;
        let mut edits = Vec::new(alloc);
        diff(alloc, old, new, &mut edits)?;
        let mut chain = Chain::from_slice(alloc, old)?;
        let mut spare = Vec::new(alloc);
        let (put, dropped) = (&mut edited.put, &mut edited.dropped);
        edit_list(&edits, &mut chain, put, dropped, gone, &mut spare)?;
        structure.edit(half, &edits)?;
        Ok(Driver {
            alloc,
            structure,
            facts,
            report,
        })
    }

    /// Settles the merge at a moment, by the facts that fail there and name no dropped number.
    fn settle_merge<P: Signs, O: Signs, L: Ledger>(
        self,
        gone: &[u32],
        sight: &Sight<'_, P>,
        now: &O,
        steps: &mut Steps<L>,
    ) -> Result<Driver<Overlay>, Fault>
        requires real { IsReal (O.scene now.now) }
        requires same { P.scene sight.now.signs.now ≡ O.scene now.now }
        requires ready { IsReady self (O.scene now.now) }
        requires gone { self.gone ≡ gone.now }
        ensures rest { IfOk result (λ m. m.stage ≡ Rest) }
        ensures same { IfOk result (λ m. IsSameMerge self m) }
        ensures gone { IfOk result (λ m. m.gone ≡ []) }
    {
        let Driver {
            alloc,
            mut structure,
            facts,
            report: _,
        } = self;
        let failed = failing(alloc, &facts, sight, &SparesNamed { gone })?;
        let mut out = Delta::new(alloc);
        structure.settle(now, &failed, &mut out, steps)?;
        let facts = after(alloc, &facts, &out)?;
        Ok(Driver {
            alloc,
            structure,
            facts,
            report: out,
        })
    }
}

/// A merge that is told new chains before it settles.
#[derive(Drop)]
pub struct Telling {
    pub(crate) alloc: Global,
    pub(crate) overlay: Driver<Overlay>,
    /// The chains that it was told last.
    pub(crate) a: Vec<u32>,
    pub(crate) b: Vec<u32>,
    /// The numbers that edits have dropped.
    pub(crate) gone: Vec<u32>,
    pub(crate) of_a: Edited,
    pub(crate) of_b: Edited,
}

impl Model for Telling {
    ghost use Rattle.kin_overlay.specs.Overlays.{Merge};
    ghost use Rattle.kin_cases.specs.Merges.{IsTelling};

    ghost Value = { Merge };

    ghost view = { λ m. m.overlay };

    ghost invariant = { λ m. IsTelling m.a.items m.b.items m.gone.items m.overlay };
}

impl Telling {
    /// Gives a half a new chain. Where another one follows before the settle, it may be any list.
    pub fn tell(self, half: Half, chain: &[u32]) -> Result<Telling, Fault> {
        match half {
            Half::A => self.tell_a(chain),
            Half::B => self.tell_b(chain),
        }
    }

    fn tell_a(self, chain: &[u32]) -> Result<Telling, Fault> {
        let Telling {
            alloc,
            overlay,
            a,
            b,
            mut gone,
            mut of_a,
            of_b,
        } = self;
        if !are_less(chain, &b) {
            return Err(Fault::NotReady);
        }
        let overlay = overlay.tell(Half::A, &a, chain, &mut gone, &mut of_a)?;
        let a = Vec::from_slice(alloc, chain)?;
        Ok(Telling {
            alloc,
            overlay,
            a,
            b,
            gone,
            of_a,
            of_b,
        })
    }

    fn tell_b(self, chain: &[u32]) -> Result<Telling, Fault> {
        let Telling {
            alloc,
            overlay,
            a,
            b,
            mut gone,
            of_a,
            mut of_b,
        } = self;
        if !are_less(&a, chain) {
            return Err(Fault::NotReady);
        }
        let overlay = overlay.tell(Half::B, &b, chain, &mut gone, &mut of_b)?;
        let b = Vec::from_slice(alloc, chain)?;
        Ok(Telling {
            alloc,
            overlay,
            a,
            b,
            gone,
            of_a,
            of_b,
        })
    }

    /// Settles the merge at a moment at which the halves have the chains that were told last.
    pub fn settle<P: Signs, O: Signs, L: Ledger>(
        self,
        sight: &Sight<'_, P>,
        now: &O,
        steps: &mut Steps<L>,
    ) -> Result<Merging, Fault>
        requires real { IsReal (O.scene now.now) }
        requires same { P.scene sight.now.signs.now ≡ O.scene now.now }
    {
        let Telling {
            alloc,
            overlay,
            a,
            b,
            gone,
            of_a,
            of_b,
        } = self;
        ask_chains(sight, &a, &b)?;
        let overlay = overlay.settle_merge(&gone, sight, now, steps)?;
        let is_apart = of_a.is_apart() && of_b.is_apart();
        Ok(Merging {
            alloc,
            overlay,
            a,
            b,
            is_apart,
        })
    }
}
