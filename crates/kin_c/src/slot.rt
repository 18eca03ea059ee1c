//! A boxed tracker as a pointer that C may hold, or none.

ghost use Rattle.std.specs.Prelude.{◌≡◌, Option, Some, None, IsSome};
ghost use Rattle.std.specs.Coded.{coded_option};
ghost use Rattle.kin_tracker.specs.contracts.tracker.Tracker.{the_row};
ghost use Rattle.kin_world.specs.Worlds.{World as Meaning};
ghost use Rattle.kin_c.specs.Slots.{slot_owns};

use crate::loose::Loose;
use kin_tracker::Tracker;
use std::alloc::Global;
use std::marker::Model;

/// A tracker's box as its pointer, or none. C never reads or writes it.
#[repr(C)]
#[derive(Drop)]
pub struct Slot {
    at: *mut u8,
    alloc: Global,
    pub ghost value: { Option Meaning } by { coded_option the_row.coded },
}

impl Model for Slot {
    ghost also_owns = { λ s. slot_owns s.alloc s.at s.value };
}

impl Slot {
    /// No tracker.
    pub(crate) fn empty(alloc: Global) -> Slot
        ensures { result.value ≡ None }
    {
        Slot {
            at: std::ptr::null_mut(),
            alloc,
        }
    }

    /// This tracker.
    pub(crate) fn of(loose: Loose<Tracker, Global>) -> Slot
        ensures { result.value ≡ Some loose.value }
    {
        let Loose { at, alloc } = loose;
        Slot {
            at: at as *mut u8,
            alloc,
        }
    }

    /// The tracker that is there.
    pub(crate) fn into_loose(self) -> Loose<Tracker, Global>
        requires { IsSome self.value }
        ensures { self.value ≡ Some result.value }
    {
        let Slot { at, alloc } = self;
        Loose {
            at: at as *mut Tracker,
            alloc,
        }
    }
}
