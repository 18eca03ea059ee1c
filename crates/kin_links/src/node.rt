//! Nodes and the gaps between them.

/// A gap of a list, named by what is before it.
#[derive(Clone, Copy, Debug, PartialEq, Eq)]
pub enum Gap {
    /// The gap at the front of this list.
    Front(usize),
    /// The gap after this node.
    Behind(usize),
}

/// An item with the gap before it and the node after it.
#[derive(Clone, Copy)]
pub struct Node<T: Copy> {
    pub item: T,
    pub prev: Gap,
    pub next: Option<usize>,
}
