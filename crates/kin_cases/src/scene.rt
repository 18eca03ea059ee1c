//! Scenes of a table, which are gone through from moment to moment.

ghost use Rattle.std.specs.Prelude.{◌≡◌, ◌<◌};

use crate::fault::Fault;
use crate::watch::Callers;
use kin_num::Steps;
use std::alloc::Global;
use std::marker::Brand;
use std::sync::ledger::{Blank, Ledger};

/// Points that move, with what is to be seen of them at some moments.
pub trait Scene: Copy {
    /// The points as they are written.
    fn points(self) -> &'static str;

    /// Goes through the moments, where all has to be as it is written. The answer is how many signs were asked, and
    /// how many of them with this counter.
    fn go<L: Ledger>(self, alloc: Global, steps: &mut Steps<L>) -> Result<(u64, u64), Fault>;
}

/// Goes through a scene, where signs have to be asked with the caller's counter alone.
fn goes_by<S: Scene, L: Ledger>(alloc: Global, scene: S, blank: Blank) -> Result<(), Fault>
    requires name { blank.name ≡ L.name }
    requires parts { blank.parts ≡ L.parts }
    requires some { 0 < L.parts }
{
    let mut steps = Steps::<Callers<L>>::open(blank);
    let (all, counted) = scene.go(alloc, &mut steps)?;
    if all > 0 && all == counted {
        Ok(())
    } else {
        Err(Fault::NotCounted)
    }
}

/// The same with a counter that is made here.
fn goes<S: Scene>(alloc: Global, scene: S) -> Result<(), Fault> {
    goes_by::<S, Brand>(alloc, scene, Blank::new(1))
}

/// The points of the first scene that goes otherwise, and why it stops, if there is one.
pub fn first_wrong<S: Scene>(alloc: Global, scenes: &[S]) -> Option<(&'static str, Fault)> {
    for scene in scenes {
        if let Err(fault) = goes(alloc, *scene) {
            return Some((scene.points(), fault));
        }
    }
    None
}
