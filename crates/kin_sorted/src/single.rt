//! What enters or leaves without a mark.

/// The one item, named by its slot, that enters or leaves in a `settle` with no mark.
#[derive(Clone, Copy, Debug, PartialEq, Eq)]
pub enum Single {
    /// None does.
    Neither,
    Enters(u32),
    Leaves(u32),
}
