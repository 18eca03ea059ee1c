//! A rank is driven through random calls, and its answers are compared with a search of plain lists.

use crate::ranks::{Call, carry_out};
use kin_num::NoMemory;
use kin_rank::Rank;
use std::alloc::Global;
use std::test::Fail;

const NUMBERS: u32 = 64;

const CALLS: u32 = 2000;

/// The three lists as they should be.
#[derive(Drop)]
struct Plain {
    f: Vec<u32>,
    g: Vec<u32>,
    t: Vec<u32>,
}

fn put_in(list: &mut Vec<u32>, place: u32, no: u32) -> Result<(), NoMemory> {
    let place = list.len().min(place as usize);
    list.insert(place, no).map_err(|_| NoMemory)
}

fn exchange(list: &mut Vec<u32>, place: u32) {
    let place = place as usize;
    if place < list.len() && place + 1 < list.len() {
        list.swap(place, place + 1);
    }
}

/// Whether a list has a number at a place of a half-open range.
fn has_within(list: &[u32], range: (u32, u32), no: u32) -> bool {
    for place in 0..list.len() {
        let is_inside = range.0 as usize <= place && place < range.1 as usize;
        if is_inside && list[place] == no {
            return true;
        }
    }
    false
}

/// Whether a list has a number at a place that is greater than one.
fn has_above(list: &[u32], above: u32, no: u32) -> bool {
    for place in 0..list.len() {
        if place > above as usize && list[place] == no {
            return true;
        }
    }
    false
}

impl Plain {
    fn follow(&mut self, call: Call) -> Result<(), NoMemory> {
        match call {
            Call::Plant => Ok(()),
            Call::Insert(no, f, g, t) => {
                put_in(&mut self.f, f, no)?;
                put_in(&mut self.g, g, no)?;
                put_in(&mut self.t, t, no)
            }
            Call::Remove(no) => {
                self.f.retain(|x| *x != no);
                self.g.retain(|x| *x != no);
                self.t.retain(|x| *x != no);
                Ok(())
            }
            Call::SwapF(place) => {
                exchange(&mut self.f, place);
                Ok(())
            }
            Call::SwapG(place) => {
                exchange(&mut self.g, place);
                Ok(())
            }
            Call::SwapT(place) => {
                exchange(&mut self.t, place);
                Ok(())
            }
        }
    }

    fn first_in(&self, f: u32, g: u32) -> Option<u32> {
        for no in &self.t {
            if has_above(&self.f, f, *no) && has_above(&self.g, g, *no) {
                return Some(*no);
            }
        }
        None
    }

    fn in_ranges(&self, alloc: Global, f: (u32, u32), g: (u32, u32)) -> Result<Vec<u32>, NoMemory> {
        let mut numbers = Vec::new(alloc);
        for no in 0..NUMBERS {
            if has_within(&self.f, f, no) && has_within(&self.g, g, no) {
                numbers.push(no).map_err(|_| NoMemory)?;
            }
        }
        Ok(numbers)
    }
}

/// Numbers that look random: a linear congruence, of which the upper bits are taken.
#[derive(Drop)]
struct Dice {
    state: u64,
}

impl Dice {
    /// A number below a bound, or 0 where the bound is 0.
    fn below(&mut self, bound: u32) -> u32 {
        self.state = self
            .state
            .wrapping_mul(6364136223846793005)
            .wrapping_add(1442695040888963407);
        let high = (self.state >> 33) as u32;
        if bound == 0 { 0 } else { high % bound }
    }

    fn call(&mut self, len: u32) -> Call {
        let end = len.saturating_add(1);
        match self.below(8) {
            0 | 1 | 2 => {
                let no = self.below(NUMBERS);
                let f = self.below(end);
                let g = self.below(end);
                let t = self.below(end);
                Call::Insert(no, f, g, t)
            }
            3 => Call::Remove(self.below(NUMBERS)),
            4 | 5 => Call::SwapF(self.below(len)),
            6 => Call::SwapG(self.below(len)),
            _ => Call::SwapT(self.below(len)),
        }
    }

    fn range(&mut self) -> (u32, u32) {
        let from = self.below(NUMBERS);
        let to = self.below(NUMBERS);
        (from, to)
    }
}

/// Whether a rank and the plain lists answer some random questions alike.
fn are_alike(alloc: Global, rank: &Rank, plain: &Plain, dice: &mut Dice) -> Result<bool, NoMemory> {
    for _ in 0..4 {
        let (f, g) = dice.range();
        if rank.first_in(f / 2, g / 2) != plain.first_in(f / 2, g / 2) {
            return Ok(false);
        }
    }
    let f = dice.range();
    let g = dice.range();
    let numbers = rank.in_ranges(f, g)?;
    let wanted = plain.in_ranges(alloc, f, g)?;
    Ok(numbers.as_slice() == wanted.as_slice())
}

/// The call after which a rank answers otherwise than the plain lists, if there is one. The tree is planted before
/// one of the calls, or never.
fn first_fault(alloc: Global, planted_at: Option<u32>) -> Result<Option<u32>, NoMemory> {
    let mut rank = Rank::new(alloc, 6)?;
    let mut plain = Plain {
        f: Vec::new(alloc),
        g: Vec::new(alloc),
        t: Vec::new(alloc),
    };
    let mut dice = Dice { state: 1 };
    for number in 0..CALLS {
        if planted_at == Some(number) {
            rank.plant_tree()?;
        }
        let len = u32::try_from(rank.len()).map_err(|_| NoMemory)?;
        let call = dice.call(len);
        if carry_out(&mut rank, call)? {
            plain.follow(call)?;
        }
        if !are_alike(alloc, &rank, &plain, &mut dice)? {
            return Ok(Some(number));
        }
    }
    Ok(None)
}

#[test]
fn two_thousand_random_calls(rt: HostRuntime) -> Result<(), Fail> {
    for planted_at in [Some(0), Some(1000), None] {
        assert_eq!(rt;
            first_fault(rt.alloc(), planted_at)?,
            None,
            "tree at {planted_at:?}"
        );
    }
    Ok(())
}
