//! An item with the slot that holds it.

/// The best item of a node, with the slot that holds it.
#[derive(Clone, Copy)]
pub struct Entry<I: Copy> {
    pub slot: u32,
    pub item: I,
}
