//! A planned leg.

use kin_motion::Motion;

/// From the whole instant `at` on, the point with this number has the motion `m`, until its next leg.
#[derive(Clone, Copy, Debug, PartialEq, Eq)]
pub struct Leg {
    pub at: u32,
    pub no: u32,
    pub m: Motion,
}
