//! The merged chain, by one walk along the list of breakpoints.

ghost use Rattle.std.specs.Prelude.{◌≡◌, ◌<◌, ◌++◌, List, ℕ, length, OnOk, IfOk, option_to_list};
ghost use Rattle.kin_motion.specs.Cells.{given_by, is_last, changes_of, above_of};
ghost use Rattle.kin_overlay.specs.Walks.{above_by, is_before_narrow, left_above, right_above, higher, last_item, seen_cell, shared_by, cell_behind, first_cell, gifts_before, cell_after, last_gifts, chain_read, upper_before, cell_by};

use crate::end::End;
use crate::half::Half;
use crate::list::BreakpointList;
use crate::record::Record;
use kin_num::Sign;
use std::alloc::AllocError;

// Below, the sign of an end of a cell is + where A is above there, - where B is, and 0 where neither is.

impl Record {
    /// Which half is above at the breakpoint.
    pub fn above(&self) -> Sign
        ensures { result ≡ above_by self.now }
    {
        match self.at.half {
            Half::A => self.turn.opposite(),
            Half::B => self.turn,
        }
    }

    /// Whether the cell after the breakpoint has no width.
    fn is_before_narrow(&self) -> bool
        ensures { result ≡ is_before_narrow self.now }
    {
        match self.next {
            Some(next) => match next.slope {
                Sign::Zero => true,
                Sign::Minus | Sign::Plus => false,
            },
            None => false,
        }
    }

    /// The point that is above at the breakpoint, of those that are current before it.
    pub fn upper_before(&self) -> Option<u32>
        ensures { option_to_list result ≡ upper_before self.now }
    {
        let (a, b) = match self.at.half {
            Half::A => (self.at.left, self.across),
            Half::B => (self.across, self.at.left),
        };
        upper(self.above(), a, b)
    }

    /// The cell after the breakpoint. Its own right end isn't known yet.
    pub fn cell_after(&self) -> Cell
        ensures { result ≡ cell_by self.now }
    {
        let (a, b) = match self.at.half {
            Half::A => (self.at.right, self.across),
            Half::B => (self.across, self.at.right),
        };
        Cell {
            a,
            b,
            left: self.above(),
            right: Sign::Zero,
            is_narrow: self.is_before_narrow(),
        }
    }
}

/// The point that is above at an end of this sign.
fn upper(sign: Sign, a: u32, b: u32) -> Option<u32>
    ensures { option_to_list result ≡ above_of sign a b }
{
    match sign {
        Sign::Plus => Some(a),
        Sign::Zero => None,
        Sign::Minus => Some(b),
    }
}

impl End {
    /// Which half is above at a left outer end.
    fn above_at_left(&self) -> Sign
        ensures { result ≡ left_above self.now }
    {
        self.x.then(self.higher())
    }

    /// Which half is above at a right outer end.
    pub fn above_at_right(&self) -> Sign
        ensures { result ≡ right_above self.now }
    {
        self.x.opposite().then(self.higher())
    }

    /// Which half is higher, where both have the same x.
    fn higher(&self) -> Sign
        ensures { result ≡ higher self.now }
    {
        match self.y {
            Some(sign) => sign.opposite(),
            None => Sign::Zero,
        }
    }
}

/// Whether the chain ends in this number.
fn ends_in(chain: &[u32], no: u32) -> bool
    ensures { result ≡ is_last (last_item chain.now) no }
{
    match chain.last() {
        Some(last) => *last == no,
        None => false,
    }
}

/// Puts a point, if there is one, at the end of the chain, unless it is there already.
#[inline(always)]
pub fn give(point: Option<u32>, chain: &mut Vec<u32>) -> Result<(), AllocError>
    ensures { OnOk result (chain.new.items ≡ chain.old.items ++ changes_of (last_item chain.old.items) (option_to_list point)) }
{
    let Some(no) = point else {
        return Ok(());
    };
    if ends_in(chain, no) {
        return Ok(());
    }
    let Ok(()) = chain.push(no) else {
        return Err(AllocError);
    };
    Ok(())
}

/// A cell with its current points and the signs of its ends.
#[derive(Clone, Copy, Debug, PartialEq, Eq)]
pub struct Cell {
    a: u32,
    b: u32,
    left: Sign,
    right: Sign,
    is_narrow: bool,
}

impl Cell {
    /// The cell at the left outer end. Its own right end isn't known yet.
    pub fn first(left: End) -> Cell
        ensures { result ≡ first_cell left }
    {
        Cell {
            a: left.a,
            b: left.b,
            left: left.above_at_left(),
            right: Sign::Zero,
            is_narrow: false,
        }
    }

    /// The point that is above at its left end.
    pub fn upper_left(&self) -> Option<u32>
        ensures { option_to_list result ≡ above_of self.now.left self.now.a self.now.b }
    {
        upper(self.left, self.a, self.b)
    }

    /// Puts the points that are above in the cell at the end of the chain, where its right end has this
    /// sign.
    #[inline(always)]
    pub fn give_until(&self, right: Sign, chain: &mut Vec<u32>) -> Result<(), AllocError>
        ensures { OnOk result (chain.new.items ≡ chain.old.items ++ changes_of (last_item chain.old.items) (last_gifts self.now right)) }
    {
        Cell { right, ..*self }.give(chain)
    }

    /// The point of A, where neither half is above at either end and the cell has a width.
    fn shared(&self) -> Option<u32>
        ensures { option_to_list result ≡ shared_by self.now }
    {
        match (self.left, self.right) {
            (Sign::Zero, Sign::Zero) => { if self.is_narrow { None } else { Some(self.a) } }
            _ => None,
        }
    }

    /// Puts the points that are above in the cell at the end of the chain. In most cells one half is
    /// above all along.
    #[inline(always)]
    fn give(&self, chain: &mut Vec<u32>) -> Result<(), AllocError>
        ensures { OnOk result (chain.new.items ≡ chain.old.items ++ changes_of (last_item chain.old.items) (given_by (seen_cell self.now))) }
    {
        match (self.left, self.right) {
            (Sign::Plus, Sign::Plus) => give(Some(self.a), chain),
            (Sign::Minus, Sign::Minus) => give(Some(self.b), chain),
            _ => self.give_each(chain),
        }
    }

    /// The same by what is above at each end and along the cell.
    #[inline(always)]
    fn give_each(&self, chain: &mut Vec<u32>) -> Result<(), AllocError>
        ensures { OnOk result (chain.new.items ≡ chain.old.items ++ changes_of (last_item chain.old.items) (given_by (seen_cell self.now))) }
    {
        give(upper(self.left, self.a, self.b), chain)?;
        give(upper(self.right, self.a, self.b), chain)?;
        give(self.shared(), chain)?;
        Ok(())
    }

    /// The cell after the breakpoint at the right end. Its own right end isn't known yet.
    fn behind(&self, noted: &Record) -> Cell
        ensures { result ≡ cell_behind self.now noted.now }
    {
        let (a, b) = match noted.at.half {
            Half::A => (noted.at.right, self.b),
            Half::B => (self.a, noted.at.right),
        };
        Cell {
            a,
            b,
            left: noted.above(),
            right: Sign::Zero,
            is_narrow: noted.is_before_narrow(),
        }
    }
}

/// Puts what the cells before these breakpoints give at the end of the chain. The result is the cell
/// after them.
#[inline(always)]
pub fn walk(records: &[Record], start: Cell, chain: &mut Vec<u32>) -> Result<Cell, AllocError>
    ensures given { OnOk result (chain.new.items ≡ chain.old.items ++ changes_of (last_item chain.old.items) (gifts_before start records.now)) }
    ensures after { IfOk result (λ c. c ≡ cell_after start records.now) }
{
    let mut cell = start;
    for record in records {
        cell.give_until(record.above(), chain)?;
        cell = cell.behind(record);
    }
    Ok(cell)
}

/// Reads the merged chain off a list.
pub fn merged_chain(list: &BreakpointList, chain: &mut Vec<u32>) -> Result<(), AllocError>
    ensures { OnOk result (chain.new.items ≡ chain_read list.now) }
{
    chain.clear();
    let Some(left) = list.left() else {
        return Ok(());
    };
    let last = walk(list.records(), Cell::first(left), chain)?;
    let right = list.right().unwrap_or(left).above_at_right();
    last.give_until(right, chain)
}
