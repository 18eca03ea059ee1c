//! Upper chains, straight from their definition: a point of a set is in the chain where no point of
//! the set keeps it off. Nothing is taken from the code of merges, not even its forms, so that a
//! slip there can't hide itself here.

ghost use Rattle.std.specs.Prelude.{◌≡◌, ◌≤◌, pos, length, IsTrue, IfOk};
ghost use Rattle.std.specs.List.{All, list_any};
ghost use Rattle.kin_motion.specs.Chains.{is_plus as is_plus_of, is_zero as is_zero_of, is_left as is_left_in, is_double, is_above, is_under_segment, is_bare as is_bare_in, IsUpperChain};
ghost use Rattle.kin_motion.specs.Numbers.{is_in, IsIn, IsChain};
ghost use Rattle.kin_motion.specs.declared.form.Form.TheVariants.{Line};

use crate::ask::Sight;
use crate::fault::Fault;
use kin_motion::form::Form;
use kin_motion::signs::Signs;
use kin_num::Sign;
use std::alloc::Global;

fn is_plus(sign: Sign) -> bool
    ensures { result ≡ is_plus_of sign }
{
    match sign {
        Sign::Plus => true,
        Sign::Zero | Sign::Minus => false,
    }
}

fn is_zero(sign: Sign) -> bool
    ensures { result ≡ is_zero_of sign }
{
    match sign {
        Sign::Zero => true,
        Sign::Plus | Sign::Minus => false,
    }
}

/// The form that is positive where `q` is to the right of `p`.
pub fn x_line(p: u32, q: u32) -> Form
    ensures { result ≡ Line (pos 1) (pos 0) (pos 0) p q }
{
    Form::Line {
        dx: 1,
        dy: 0,
        off: 0,
        i: p,
        j: q,
    }
}

/// The form that is positive where `q` is higher than `p`.
pub fn y_line(p: u32, q: u32) -> Form
    ensures { result ≡ Line (pos 0) (pos 1) (pos 0) p q }
{
    Form::Line {
        dx: 0,
        dy: 1,
        off: 0,
        i: p,
        j: q,
    }
}

impl<O: Signs> Sight<'_, O> {
    /// Whether `p` has the lesser x.
    pub fn is_left(&self, p: u32, q: u32) -> Result<bool, Fault>
        ensures { IfOk result (λ b. b ≡ is_left_in (O.scene self.now.signs.now) p q) }
    {
        let x = self.sign(&x_line(p, q))?;
        Ok(is_plus(x))
    }

    /// Whether `q` is at the place of `p`, and less.
    pub fn is_double(&self, p: u32, q: u32) -> Result<bool, Fault>
        ensures { IfOk result (λ b. b ≡ is_double (O.scene self.now.signs.now) p q) }
    {
        let x = self.sign(&x_line(p, q))?;
        let y = self.sign(&y_line(p, q))?;
        Ok(is_zero(x) && is_zero(y) && q < p)
    }

    /// Whether `q` is straight above `p`.
    pub fn is_above(&self, p: u32, q: u32) -> Result<bool, Fault>
        ensures { IfOk result (λ b. b ≡ is_above (O.scene self.now.signs.now) p q) }
    {
        let x = self.sign(&x_line(p, q))?;
        let y = self.sign(&y_line(p, q))?;
        Ok(is_zero(x) && is_plus(y))
    }

    /// Whether `p` is on or below the segment from `q`, to its left, to `r`, to its right.
    pub fn is_under_segment(&self, p: u32, q: u32, r: u32) -> Result<bool, Fault>
        ensures { IfOk result (λ b. b ≡ is_under_segment (O.scene self.now.signs.now) p q r) }
    {
        if !self.is_left(q, p)? || !self.is_left(p, r)? {
            return Ok(false);
        }
        let turn = self.sign(&Form::Turn { i: q, j: r, k: p })?;
        Ok(!is_plus(turn))
    }

    fn has_double(&self, p: u32, set: &[u32]) -> Result<bool, Fault>
        ensures { IfOk result (λ b. b ≡ list_any (is_double (O.scene self.now.signs.now) p) set.now) }
    {
        for q in set {
            if self.is_double(p, *q)? {
                return Ok(true);
            }
        }
        Ok(false)
    }

    fn has_above(&self, p: u32, set: &[u32]) -> Result<bool, Fault>
        ensures { IfOk result (λ b. b ≡ list_any (is_above (O.scene self.now.signs.now) p) set.now) }
    {
        for q in set {
            if self.is_above(p, *q)? {
                return Ok(true);
            }
        }
        Ok(false)
    }

    /// Whether the point is under a segment that begins at `q`.
    fn is_under_from(&self, p: u32, q: u32, set: &[u32]) -> Result<bool, Fault>
        ensures { IfOk result (λ b. b ≡ list_any (is_under_segment (O.scene self.now.signs.now) p q) set.now) }
    {
        if !self.is_left(q, p)? {
            return Ok(false);
        }
        for r in set {
            if self.is_under_segment(p, q, *r)? {
                return Ok(true);
            }
        }
        Ok(false)
    }

    fn is_under(&self, p: u32, set: &[u32]) -> Result<bool, Fault>
        ensures { IfOk result (λ b. b ≡ list_any (λ q. list_any (is_under_segment (O.scene self.now.signs.now) p q) set.now) set.now) }
    {
        for q in set {
            if self.is_under_from(p, *q, set)? {
                return Ok(true);
            }
        }
        Ok(false)
    }

    /// Whether no point of the set keeps this one off the chain.
    fn is_bare(&self, p: u32, set: &[u32]) -> Result<bool, Fault>
        ensures { IfOk result (λ b. b ≡ is_bare_in (O.scene self.now.signs.now) set.now p) }
    {
        let is_double = self.has_double(p, set)?;
        let is_below = self.has_above(p, set)?;
        let is_under = self.is_under(p, set)?;
        Ok(!is_double && !is_below && !is_under)
    }

    /// Whether the chain has exactly those points of the set that are bare.
    fn has_the_bare(&self, set: &[u32], chain: &[u32]) -> Result<bool, Fault>
        ensures { IfOk result (λ b. IsTrue b → All (λ p. is_in p chain.now ≡ is_bare_in (O.scene self.now.signs.now) set.now p) set.now) }
    {
        for p in set {
            let is_bare = self.is_bare(*p, set)?;
            if has_number(chain, *p) != is_bare {
                return Ok(false);
            }
        }
        Ok(true)
    }

    /// Whether each point of the chain is to the left of the next.
    fn is_rising(&self, chain: &[u32]) -> Result<bool, Fault>
        ensures { IfOk result (λ b. IsTrue b → IsChain (is_left_in (O.scene self.now.signs.now)) chain.now) }
    {
        let mut rest = chain;
        while rest.len() > 1 {
            let is_left = self.is_left(rest[0], rest[1])?;
            if !is_left {
                return Ok(false);
            }
            rest = rest.split_at(1).1;
        }
        Ok(true)
    }

    /// Whether a list is the upper chain of a set.
    pub fn is_upper_chain(&self, set: &[u32], chain: &[u32]) -> Result<bool, Fault>
        ensures { IfOk result (λ b. IsTrue b → IsUpperChain (O.scene self.now.signs.now) set.now chain.now) }
    {
        let is_rising = self.is_rising(chain)?;
        let is_whole = self.has_the_bare(set, chain)?;
        if !is_rising || !is_part(chain, set) {
            return Ok(false);
        }
        Ok(is_whole)
    }

    /// The upper chain of a set, by its definition.
    pub fn upper_chain(&self, alloc: Global, set: &[u32]) -> Result<Vec<u32>, Fault> {
        let mut chain = Vec::new(alloc);
        for p in set {
            if self.is_bare(*p, set)? {
                let place = self.place_in(*p, &chain)?;
                chain.insert(place, *p).map_err(|_| Fault::NoMemory)?;
            }
        }
        Ok(chain)
    }

    /// How many points of a chain are to the left of this one.
    fn place_in(&self, p: u32, chain: &[u32]) -> Result<usize, Fault>
        ensures { IfOk result (λ n. n ≤ length chain.now) }
    {
        for place in 0..chain.len() {
            if !self.is_left(chain[place], p)? {
                return Ok(place);
            }
        }
        Ok(chain.len())
    }
}

/// Whether a list has the number.
pub fn has_number(list: &[u32], no: u32) -> bool
    ensures { result ≡ is_in no list.now }
{
    list.contains(&no)
}

/// Whether each number of a list is in a set.
fn is_part(list: &[u32], set: &[u32]) -> bool
    ensures { IsTrue result → All (λ i. IsIn i set.now) list.now }
{
    for no in list {
        if !has_number(set, *no) {
            return false;
        }
    }
    true
}
