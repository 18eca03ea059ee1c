//! Structures to be kept, as plain numbers.

ghost use Rattle.std.specs.Prelude.{◌≡◌, IfOk, IfErr};
ghost use Rattle.kin_c.specs.Keeps.{AreKeeps, IsUnreadOrNoMemory, keep_of};

use kin_motion::Keep;
use kin_tracker::Refusal;
use std::alloc::Global;

/// A structure that is to be kept: its kind, and its direction if it has one, or the width and the height of its boxes.
#[repr(C)]
#[derive(Clone, Copy)]
pub struct KinKeep {
    pub kind: u32,
    pub dx: i32,
    pub dy: i32,
}

impl KinKeep {
    /// The structure, if there is such a kind.
    fn read(&self) -> Option<Keep>
        ensures { result ≡ keep_of self.now }
    {
        let (dx, dy) = (self.dx, self.dy);
        match self.kind {
            0 => Some(Keep::Order { dx, dy }),
            1 => Some(Keep::Extreme { dx, dy }),
            2 => Some(Keep::Hull),
            3 => Some(Keep::Closest),
            4 => Some(Keep::Range),
            5 => Some(Keep::Nearest),
            6 => Some(Keep::Diameter),
            7 => Some(Keep::Boxes { w: dx, h: dy }),
            _ => None,
        }
    }
}

/// The structures that the numbers name.
pub(crate) fn read_keeps(alloc: Global, given: &[KinKeep]) -> Result<Vec<Keep>, Refusal>
    ensures read { IfOk result (λ keeps. AreKeeps given.now keeps.items) }
    ensures refused { IfErr result (IsUnreadOrNoMemory given.now) }
{
    let mut keeps = Vec::new(alloc);
    for place in 0..given.len() {
        let Some(keep) = given[place].read() else {
            return Err(Refusal::BadKeep(place));
        };
        let Ok(()) = keeps.push(keep) else {
            return Err(Refusal::NoMemory);
        };
    }
    Ok(keeps)
}
