//! The failed facts of each axis.

ghost use Rattle.std.specs.Prelude.{◌≡◌, [], map, filter, OnOk};
ghost use Rattle.kin_boxes.specs.Boxing.{is_along_x, is_along_y, moved_back};

use kin_motion::{Letters, Placed};
use kin_num::NoMemory;
use std::alloc::Global;

/// How many parts the facts of an axis have.
pub(crate) const PARTS: u32 = 4;

/// The failed facts of each axis, in the parts of its own list. The memory is kept from settle to settle.
#[derive(Drop)]
pub(crate) struct Mail {
    pub x: Letters,
    pub y: Letters,
}

impl Mail {
    /// No failed facts.
    pub fn new(alloc: Global) -> Mail {
        Mail {
            x: Letters::new(alloc),
            y: Letters::new(alloc),
        }
    }

    /// Gives each axis the failed facts of its parts.
    pub fn sort(&mut self, failed: &[Placed]) -> Result<(), NoMemory>
        ensures x { OnOk result (self.new.x ≡ filter is_along_x failed.now) }
        ensures y { OnOk result (self.new.y ≡ map moved_back (filter is_along_y failed.now)) }
    {
        self.x.clear();
        self.y.clear();
        for placed in failed {
            if placed.part < PARTS {
                self.x.add(placed.part, &placed.fact)?;
            } else {
                self.y.add(placed.part - PARTS, &placed.fact)?;
            }
        }
        Ok(())
    }
}
