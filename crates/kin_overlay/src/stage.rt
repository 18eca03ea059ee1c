//! Whether edits wait for the next `settle`.

/// Whether edits wait.
#[derive(Clone, Copy, Debug, PartialEq, Eq)]
pub enum Stage {
    /// No edit waits.
    Rest,
    /// Edits wait for the next `settle`.
    Told,
    /// A call had no memory left. The overlay can only be dropped.
    Broken,
}
