//! The members at the places between four sides.

ghost use Rattle.std.specs.Prelude.{◌≡◌, ◌⊎◌, ◌≤◌, ◌&&◌, ℕ, Bool, true, length, filter, Contains, IfOk};
ghost use Rattle.kin_motion.specs.Numbers.{is_in};
ghost use Rattle.kin_range.specs.Sides.{IsSpanOf};

use crate::span::Span;
use kin_list::KinList;
use kin_num::NoMemory;
use std::alloc::Global;

/// Those of these numbers whose places in a list are in a span.
fn pick(alloc: Global, numbers: &[u32], list: &KinList, span: Span) -> Result<Vec<u32>, NoMemory>
    requires members { (i : ℕ) → Contains numbers.now i → is_in i list.now.items ≡ true }
    ensures { (test : ℕ → Bool) → IsSpanOf test list.now.items span → IfOk result (λ picked. picked.items ≡ filter test numbers.now) }
{
    let mut picked = Vec::new(alloc);
    for no in numbers {
        if span.has(list.place_of_member(*no)) {
            picked.push(*no).map_err(|_| NoMemory)?;
        }
    }
    Ok(picked)
}

/// The members of two lists that are in a span of each. It goes over the shorter span alone.
pub(crate) fn pick_shorter(
    alloc: Global,
    by_x: &KinList,
    x: Span,
    by_y: &KinList,
    y: Span,
) -> Result<Vec<u32>, NoMemory>
    requires alike { (i : ℕ) → is_in i by_y.now.items ≡ is_in i by_x.now.items }
    requires x_span { (x.from ≤ x.to) × (x.to ≤ length by_x.now.items) }
    requires y_span { (y.from ≤ y.to) × (y.to ≤ length by_y.now.items) }
    ensures { (test check : ℕ → Bool) → IsSpanOf test by_x.now.items x → IsSpanOf check by_y.now.items y → IfOk result (λ picked. (picked.items ≡ filter (λ i. test i && check i) by_x.now.items) ⊎ (picked.items ≡ filter (λ i. test i && check i) by_y.now.items)) }
{
    if x.len() <= y.len() {
        pick(alloc, &by_x.items()[x.from..x.to], by_y, y)
    } else {
        pick(alloc, &by_y.items()[y.from..y.to], by_x, x)
    }
}
