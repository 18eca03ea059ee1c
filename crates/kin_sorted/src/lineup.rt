//! The members in a row, and the buffers of a repair.

ghost use Rattle.std.specs.Prelude.{◌≡◌, ◌≤◌, ◌^◌, [], None, length, replicate, IfOk};
ghost use Rattle.kin_algebra.specs.declared.sign.Sign.TheVariants.{Zero};

use crate::doubts::Doubts;
use crate::row::Row;
use std::alloc::{AllocError, Global};

/// The members in a row, and what a repair of their order needs.
#[derive(Drop)]
pub struct Lineup {
    pub row: Row,
    /// Items that have to be tested.
    pub doubts: Doubts,
    /// The slots whose link may have changed in this repair.
    pub touched: Vec<u32>,
    /// The places of the exchanges of this repair.
    pub swaps: Vec<u32>,
    ghost signed: { length row.signs ≡ row.room },
    ghost linked: { length row.links ≡ row.room },
}

impl Lineup {
    /// No members, with room for the slots below `room`.
    pub fn new(alloc: Global, room: usize) -> Result<Lineup, AllocError>
        requires { room ≤ 2 ^ 15 }
        ensures row { IfOk result (λ l. l.row ≡ record { items = []; room = room; signs = replicate room Zero; links = replicate room None }) }
        ensures swaps { IfOk result (λ l. l.swaps.items ≡ []) }
    {
        Ok(Lineup {
            row: Row::new(alloc, room)?,
            doubts: Doubts::new(alloc),
            touched: Vec::new(alloc),
            swaps: Vec::new(alloc),
        })
    }
}
