//! Records of the old list are passed at both ends of two chains, as long as they can be drawn as they
//! are.

ghost use Rattle.std.specs.Prelude.{◌≡◌, ℕ, ◌-◌, ◌+◌, ◌<◌, ◌≤◌, List, [], ◌∷◌, length, get_or, slice_get, take, drop, Some, IfSome, IsTrue};
ghost use Rattle.kin_overlay.specs.declared.record.Record.{Record as Noted};
ghost use Rattle.kin_overlay.specs.Passing.{IsEndOf, IsUntouched, AreUntouched};
ghost use Rattle.kin_overlay.specs.Spans.{IsTaken};

use crate::half::Half;
use crate::record::Record;
use crate::sketch::Puts;
use crate::standing::Standing;
use crate::untouched::is_untouched;

/// What is left of two chains where the record at a place comes next.
#[derive(Clone, Copy, Debug)]
pub struct Remainder<'a> {
    pub a: &'a [u32],
    pub b: &'a [u32],
    pub place: usize,
}

/// What is left of a chain after the breakpoint of a record, where that comes next and the current point
/// of the other chain is the one of the record.
#[inline(always)]
fn take_first<'a>(noted: &Record, chain: &'a [u32], other: &[u32]) -> Option<&'a [u32]>
    ensures { IfSome result (λ left. (more rest : List ℕ) × (chain.now ≡ noted.now.at.left ∷ noted.now.at.right ∷ more) × (other.now ≡ noted.now.across ∷ rest) × (left.now ≡ noted.now.at.right ∷ more)) }
{
    if chain.len() < 2 || other.is_empty() {
        return None;
    }
    if chain[0] != noted.at.left || chain[1] != noted.at.right || other[0] != noted.across {
        return None;
    }
    Some(chain.split_at(1).1)
}

/// The same of both chains.
#[inline(always)]
fn take_next<'a>(noted: &Record, a: &'a [u32], b: &'a [u32]) -> Option<(&'a [u32], &'a [u32])>
    ensures { IfSome result (λ left. IsTaken noted.now.at.half noted.now a.now b.now left.0.now left.1.now) }
{
    match noted.at.half {
        Half::A => {
            let left = take_first(noted, a, b)?;
            Some((left, b))
        }
        Half::B => {
            let left = take_first(noted, b, a)?;
            Some((a, left))
        }
    }
}

/// What is left of both chains after the record at a place, where that comes next and can be drawn as it
/// is.
#[inline(always)]
fn pass_next<'a>(
    place: usize,
    a: &'a [u32],
    b: &'a [u32],
    puts: Puts,
    standing: &Standing,
) -> Option<(&'a [u32], &'a [u32])>
    requires { place < length standing.now.list.now.records }
    ensures passed { IfSome result (λ left. (r : Noted) × (slice_get standing.now.list.now.records place ≡ Some r) × IsUntouched standing.now puts.entry.a.now puts.entry.b.now r × IsTaken r.at.half r a.now b.now left.0.now left.1.now) }
{
    let noted = standing.list.at(place);
    let left = take_next(noted, a, b)?;
    if !is_untouched(noted, puts, standing) {
        return None;
    }
    Some(left)
}

/// Passes the records at the front of a list that can be drawn as they are.
pub fn pass_front<'a>(a: &'a [u32], b: &'a [u32], puts: Puts, standing: &Standing) -> Remainder<'a>
    ensures within { result.place ≤ length standing.now.list.now.records }
    ensures untouched { AreUntouched standing.now puts.entry.a.now puts.entry.b.now (take result.place standing.now.list.now.records) a.now b.now result.a.now result.b.now }
{
    let (mut first, mut second) = (a, b);
    let mut place = 0;
    while place < standing.list.len() {
        let Some(left) = pass_next(place, first, second, puts, standing) else {
            break;
        };
        (first, second) = left;
        place += 1;
    }
    Remainder {
        a: first,
        b: second,
        place,
    }
}

/// Whether the breakpoint of a record comes just before this point of a chain, and this is its point of
/// the other half.
#[inline(always)]
fn is_before(noted: &Record, chain: &[u32], from: usize, across: u32) -> bool
    requires { from < length chain.now }
    ensures { IsTrue result → (0 < from) × (get_or chain.now (from - 1) 0 ≡ noted.now.at.left) × (get_or chain.now from 0 ≡ noted.now.at.right) × (across ≡ noted.now.across) }
{
    from > 0
        && chain[from - 1] == noted.at.left
        && chain[from] == noted.at.right
        && across == noted.across
}

/// Where both chains go on from before the breakpoint of a record, if that comes just before these places
/// of them.
#[inline(always)]
fn take_last(
    noted: &Record,
    a: &[u32],
    b: &[u32],
    a_from: usize,
    b_from: usize,
) -> Option<(usize, usize)>
    requires a_within { a_from < length a.now }
    requires b_within { b_from < length b.now }
    ensures a_within { IfSome result (λ from. from.0 < length a.now) }
    ensures b_within { IfSome result (λ from. from.1 < length b.now) }
    ensures taken { IfSome result (λ from. IsTaken noted.now.at.half noted.now (drop from.0 a.now) (drop from.1 b.now) (drop a_from a.now) (drop b_from b.now)) }
{
    match noted.at.half {
        Half::A => {
            if !is_before(noted, a, a_from, b[b_from]) {
                return None;
            }
            Some((a_from - 1, b_from))
        }
        Half::B => {
            if !is_before(noted, b, b_from, a[a_from]) {
                return None;
            }
            Some((a_from, b_from - 1))
        }
    }
}

/// Where both chains go on from before the record at a place, if that comes just before these places of
/// them and can be drawn as it is.
#[inline(always)]
fn pass_last(
    place: usize,
    left: Remainder,
    a_from: usize,
    b_from: usize,
    puts: Puts,
    standing: &Standing,
) -> Option<(usize, usize)>
    requires within { place < length standing.now.list.now.records }
    requires a_within { a_from < length left.a.now }
    requires b_within { b_from < length left.b.now }
    ensures a_within { IfSome result (λ from. from.0 < length left.entry.a.now) }
    ensures b_within { IfSome result (λ from. from.1 < length left.entry.b.now) }
    ensures passed { IfSome result (λ from. (r : Noted) × (slice_get standing.now.list.now.records place ≡ Some r) × IsUntouched standing.now puts.entry.a.now puts.entry.b.now r × IsTaken r.at.half r (drop from.0 left.entry.a.now) (drop from.1 left.entry.b.now) (drop a_from left.entry.a.now) (drop b_from left.entry.b.now)) }
{
    let noted = standing.list.at(place);
    let from = take_last(noted, left.a, left.b, a_from, b_from)?;
    if !is_untouched(noted, puts, standing) {
        return None;
    }
    Some(from)
}

/// Passes the records at the end of a list that can be drawn as they are, down to a place.
pub fn pass_back<'a>(front: Remainder<'a>, puts: Puts, standing: &Standing) -> Remainder<'a>
    requires a_some { 0 < length front.a.now }
    requires b_some { 0 < length front.b.now }
    requires within { front.place ≤ length standing.now.list.now.records }
    ensures behind { front.entry.place ≤ result.place }
    ensures within { result.place ≤ length standing.now.list.now.records }
    ensures a_end { IsEndOf result.a.now front.entry.a.now }
    ensures b_end { IsEndOf result.b.now front.entry.b.now }
    ensures untouched { (x y : ℕ) × AreUntouched standing.now puts.entry.a.now puts.entry.b.now (drop result.place standing.now.list.now.records) result.a.now result.b.now (x ∷ []) (y ∷ []) }
{
    let (mut a_from, mut b_from) = (front.a.len() - 1, front.b.len() - 1);
    let mut place = standing.list.len();
    while place > front.place {
        let Some(from) = pass_last(place - 1, front, a_from, b_from, puts, standing) else {
            break;
        };
        (a_from, b_from) = from;
        place -= 1;
    }
    Remainder {
        a: front.a.split_at(a_from).1,
        b: front.b.split_at(b_from).1,
        place,
    }
}
