//! What `roots` answers.

use kin_num::instant::Instant;

/// The real roots of a quadratic, by rising time.
#[derive(Clone, Copy, Debug, PartialEq, Eq)]
pub enum Roots {
    /// There is no real root.
    Nowhere,
    /// One root, which may be a double one.
    One(Instant),
    /// The lesser root and the greater one.
    Two(Instant, Instant),
    /// Every instant is a root: the polynomial is zero.
    All,
}
