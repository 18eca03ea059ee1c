//! The numbers whose places in F and G lie in two ranges.

ghost use Rattle.std.specs.Prelude.{◌≡◌, ℕ, ◌<◌, ◌&&◌, Some, filter, length, slice_get, IfOk};
ghost use Rattle.std.specs.List.{between};
ghost use Rattle.std.specs.List.Sorted.{IsStrictlyIncreasing};
ghost use Rattle.kin_rank.specs.Finding.{is_within};
ghost use Rattle.kin_rank.specs.Ranking.{has, in_ranges, AreDistinct};
ghost use Rattle.kin_rank.specs.Sound.{ranking, IsSound};

use crate::lists::Lists;
use kin_num::memory::NoMemory;
use std::alloc::Global;

/// The items at the places of a half-open range.
fn part(items: &[u32], range: (u32, u32)) -> &[u32]
    ensures { result.now ≡ between range.0 range.1 items.now }
{
    let end = items.len().min(range.1 as usize);
    let start = end.min(range.0 as usize);
    &items[start..end]
}

/// Whether the place of a number is in a half-open range.
fn is_within(places: &[u32], range: (u32, u32), no: u32) -> bool
    requires { no < length places.now }
    ensures { result ≡ is_within places.now range no }
{
    let place = places[no as usize];
    range.0 <= place && place < range.1
}

/// Those of these numbers whose places are in a range, in their order.
fn pick(
    alloc: Global,
    numbers: &[u32],
    places: &[u32],
    range: (u32, u32),
) -> Result<Vec<u32>, NoMemory>
    requires { (p x : ℕ) → slice_get numbers.now p ≡ Some x → x < length places.now }
    ensures { IfOk result (λ picked. picked.items ≡ filter (is_within places.now range) numbers.now) }
{
    let mut picked = Vec::new(alloc);
    for no in numbers {
        if is_within(places, range, *no) {
            picked.push(*no).map_err(|_| NoMemory)?;
        }
    }
    Ok(picked)
}

/// Those of these numbers whose places are in a range, rising.
fn pick_rising(
    alloc: Global,
    numbers: &[u32],
    places: &[u32],
    range: (u32, u32),
) -> Result<Vec<u32>, NoMemory>
    requires apart { AreDistinct numbers.now }
    requires within { (p x : ℕ) → slice_get numbers.now p ≡ Some x → x < length places.now }
    ensures rising { IfOk result (λ picked. IsStrictlyIncreasing picked.items) }
    ensures each { IfOk result (λ picked. (x : ℕ) → has picked.items x ≡ (has numbers.now x && is_within places.now range x)) }
{
    let mut picked = pick(alloc, numbers, places, range)?;
    picked.sort_unstable();
    Ok(picked)
}

impl Lists {
    /// The numbers whose places lie in both ranges, rising. It goes over the shorter range.
    pub fn in_ranges(
        &self,
        alloc: Global,
        f: (u32, u32),
        g: (u32, u32),
    ) -> Result<Vec<u32>, NoMemory>
        requires { IsSound self.now }
        ensures { IfOk result (λ numbers. numbers.items ≡ in_ranges (ranking self.now) f g) }
    {
        let by_f = part(&self.f.items, f);
        let by_g = part(&self.g.items, g);
        if by_f.len() <= by_g.len() {
            pick_rising(alloc, by_f, &self.g.places, g)
        } else {
            pick_rising(alloc, by_g, &self.f.places, f)
        }
    }
}
