//! The slots under a node of a tree.

ghost use Rattle.std.specs.Prelude.{◌≡◌, ◌≤◌, ◌<◌, ◌+◌, ◌^◌};
ghost use Rattle.kin_motion.specs.Tournaments.{is_under};
ghost use Rattle.kin_plain.specs.Nodes.{AreUnder};

use crate::numbers::numbers_below;

/// The slots under a node, in a tree over `2^size` slots: the first one, and the one after the last. Slot `i` is node
/// `2^size + i`, and node `v` has the halves `2*v` and `2*v + 1`, so the slots under a node are one after another.
pub fn slots_under(size: u32, node: u32) -> (u32, u32)
    requires size { size ≤ 15 }
    requires some { 0 < node }
    requires within { node < 2 ^ (size + 1) }
    ensures under { AreUnder size node result.0 result.1 }
    ensures end { result.1 ≤ 2 ^ size }
{
    let level = node.ilog2();
    let width = numbers_below(size - level);
    let first = (node - numbers_below(level)) * width;
    (first, first + width)
}

/// Whether a slot is under a node.
pub fn is_under(size: u32, node: u32, slot: u32) -> bool
    requires size { size ≤ 15 }
    requires some { 0 < node }
    requires within { node < 2 ^ (size + 1) }
    requires slot { slot < 2 ^ size }
    ensures { result ≡ is_under size node slot }
{
    let (first, end) = slots_under(size, node);
    first <= slot && slot < end
}
