//! The link of an item to its right neighbour.

use kin_num::Sign;

/// The right neighbour of an item, and the sign of their form. With the item it makes the live fact of
/// which the item is the left one.
#[derive(Clone, Copy, Debug, PartialEq, Eq)]
pub struct Link {
    pub right: u32,
    pub sign: Sign,
}
