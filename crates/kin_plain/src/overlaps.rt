//! The pairs of points whose boxes overlap.

ghost use Rattle.std.specs.Prelude.{◌≡◌, ◌++◌, filter, map, IfOk, OnOk};
ghost use Rattle.kin_motion.specs.Live.{IsSmallBox};
ghost use Rattle.kin_motion.specs.Numbers.{IsIn};
ghost use Rattle.kin_motion.specs.Overlaps.{overlap, overlaps_of};
ghost use Rattle.kin_plain.specs.Live.{AreLive};

use crate::axis::Axis;
use crate::lists::put;
use kin_motion::signs::Signs;
use kin_num::memory::NoMemory;
use kin_num::steps::Steps;
use std::alloc::Global;
use std::sync::ledger::Ledger;

/// Whether the boxes of `i` and `j` overlap. They are `w` wide and `h` high, and closed: boxes that touch overlap.
fn overlap<O: Signs, L: Ledger>(
    now: &O,
    w: i32,
    h: i32,
    i: u32,
    j: u32,
    steps: &mut Steps<L>,
) -> bool
    requires small { IsSmallBox w h }
    requires i_live { IsIn i (O.scene now.now).live }
    requires j_live { IsIn j (O.scene now.now).live }
    ensures { result ≡ overlap (O.scene now.now) w h i j }
{
    Axis::x(w).meet(now, i, j, steps) && Axis::y(h).meet(now, i, j, steps)
}

/// Puts the pairs of `i` with those of the numbers after it whose boxes overlap its box at the end.
fn put_overlaps_with<O: Signs, L: Ledger>(
    now: &O,
    w: i32,
    h: i32,
    i: u32,
    after: &[u32],
    pairs: &mut Vec<(u32, u32)>,
    steps: &mut Steps<L>,
) -> Result<(), NoMemory>
    requires small { IsSmallBox w h }
    requires i_live { IsIn i (O.scene now.now).live }
    requires live { AreLive (O.scene now.now) after.now }
    ensures { OnOk result (pairs.new.items ≡ pairs.old.items ++ filter (λ p. overlap (O.scene now.now) w h p.0 p.1) (map (λ j. (i, j)) after.now)) }
{
    for j in after {
        if overlap(now, w, h, i, *j, steps) {
            put(pairs, (i, *j))?;
        }
    }
    Ok(())
}

/// All pairs of live numbers whose boxes overlap, the lesser number first, rising.
pub fn overlaps_of<O: Signs, L: Ledger>(
    alloc: Global,
    now: &O,
    live: &[u32],
    w: i32,
    h: i32,
    steps: &mut Steps<L>,
) -> Result<Vec<(u32, u32)>, NoMemory>
    requires small { IsSmallBox w h }
    requires live { live.now ≡ (O.scene now.now).live }
    ensures { IfOk result (λ pairs. pairs.items ≡ overlaps_of (O.scene now.now) w h) }
{
    let mut pairs = Vec::new(alloc);
    for place in 0..live.len() {
        put_overlaps_with(
            now,
            w,
            h,
            live[place],
            &live[place + 1..],
            &mut pairs,
            steps,
        )?;
    }
    Ok(pairs)
}
