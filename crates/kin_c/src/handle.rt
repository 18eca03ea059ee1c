//! What C holds of a world.

ghost use Rattle.std.specs.Prelude.{◌≡◌, Some, None, MatchOption, IsTrue, IsSome, ◌↔◌};

use crate::loose::Loose;
use crate::slot::Slot;
use kin_tracker::Tracker;
use std::alloc::Global;
use std::mem;

/// A world, or none. C starts it as zeros, and never reads or writes it.
#[repr(C)]
#[derive(Drop)]
pub struct KinWorld {
    made: bool,
    pub(crate) slot: Slot,
    ghost agrees: { IsTrue made ↔ IsSome slot.value },
}

impl KinWorld {
    /// Takes the tracker out. There is none from then on.
    pub(crate) fn take(&mut self, alloc: Global) -> Option<Box<Tracker>>
        ensures taken { MatchOption result (self.old.slot.value ≡ None) (λ b. self.old.slot.value ≡ Some b.value) }
        ensures none { self.new.slot.value ≡ None }
    {
        if !self.made {
            return None;
        }
        let none = KinWorld {
            made: false,
            slot: Slot::empty(alloc),
        };
        let had = mem::replace(self, none);
        Some(had.slot.into_loose().into_box())
    }

    /// Puts a tracker in the place of one that may be there, which is dropped.
    pub(crate) fn set(&mut self, alloc: Global, tracker: Box<Tracker>)
        ensures { self.new.slot.value ≡ Some tracker.value }
    {
        drop(self.take(alloc));
        self.put(tracker);
    }

    /// Puts a tracker where there is none.
    pub(crate) fn put(&mut self, tracker: Box<Tracker>)
        requires { self.old.slot.value ≡ None }
        ensures { self.new.slot.value ≡ Some tracker.value }
    {
        *self = KinWorld {
            made: true,
            slot: Slot::of(Loose::of(tracker)),
        };
    }
}
