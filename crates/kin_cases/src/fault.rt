//! Why a case stops.

use kin_num::NoMemory;
use std::alloc::AllocError;

/// Why a case stops.
#[derive(Clone, Copy, Debug, PartialEq, Eq)]
pub enum Fault {
    /// A growth was refused.
    NoMemory,
    /// A fact names a number that isn't live, or a direction or offset out of its range.
    NotAskable,
    /// A number is live already, or has no room.
    NotNew,
    /// A number isn't live.
    NotLive,
    /// A chain is no upper chain of live points, or is empty, or a number of A isn't less than one of B.
    NotReady,
    /// A structure isn't what its definition says.
    Differs,
    /// No sign was asked, or one with another counter than the caller's.
    NotCounted,
}

impl From<NoMemory> for Fault {
    fn from(_error: NoMemory) -> Fault {
        Fault::NoMemory
    }
}

impl From<AllocError> for Fault {
    fn from(_error: AllocError) -> Fault {
        Fault::NoMemory
    }
}
