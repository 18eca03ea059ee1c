//! A sketch is drawn: the breakpoints of the given chains, in the order of the old list, with what is
//! still known of each.

ghost use Rattle.std.specs.Prelude.{◌≡◌, ℕ, ◌+◌, ◌<◌, ◌≤◌, List, [], ◌∷◌, ◌++◌, length, get_or, take, drop, Contains, IfSome, IsNone, OnOk, IfOk};
ghost use Rattle.kin_motion.specs.declared.form.Form.TheVariants.{Turn};
ghost use Rattle.kin_motion.specs.Merges.{Half.{A, B}, IsInterleaving, slope_form, breakpoints_of};
ghost use Rattle.kin_motion.specs.Numbers.{IsIn, IsOnce};
ghost use Rattle.kin_motion.specs.Scene.{Scene};
ghost use Rattle.kin_overlay.specs.declared.draft.Draft.{Draft as Drawn};
ghost use Rattle.kin_overlay.specs.declared.record.Record.{Record as Noted};
ghost use Rattle.kin_overlay.specs.declared.standing.Standing.{Standing as Kept};
ghost use Rattle.kin_overlay.specs.Fingers.{AreLive};
ghost use Rattle.kin_overlay.specs.Passing.{IsEndOf, IsLinkedAt, IsDrawnAlong, IsDrawnBefore, IsAllDrawn};
ghost use Rattle.kin_overlay.specs.Remembered.{turn_fact};
ghost use Rattle.kin_overlay.specs.Repairing.{Past, IsKnownPast, IsRetained};
ghost use Rattle.kin_overlay.specs.Resorting.{AreSeated};
ghost use Rattle.kin_overlay.specs.Seats.{seat_in};
ghost use Rattle.kin_overlay.specs.Seen.{half_of, seen};
ghost use Rattle.kin_overlay.specs.Sketches.{IsFit, AreFit, spots};
ghost use Rattle.kin_overlay.specs.Sketching.{IsDrawn, IsSlopeOf, IsRecalled, IsStep, blanks, put_blanks, after_put};
ghost use Rattle.kin_overlay.specs.Spans.{IsPassed, AreClean, drafts, whole_sketch};
ghost use Rattle.kin_overlay.specs.Standings.{IsUnfailed, StandIn};

use crate::breakpoint::Breakpoint;
use crate::draft::{Across, Draft};
use crate::half::Half;
use crate::passing::{Remainder, pass_back, pass_front};
use crate::record::{Next, Record};
use crate::shared::Shared;
use crate::standing::Standing;
use kin_num::memory::NoMemory;

/// The numbers that the waiting edits of each half put.
#[derive(Clone, Copy, Debug)]
pub struct Puts<'a> {
    pub a: &'a [u32],
    pub b: &'a [u32],
}

/// The turn of a record, where this point is the current one and the fact is unfailed.
fn known_turn(noted: &Record, across: u32, standing: &Standing) -> Option<Across>
    requires { Contains standing.now.list.now.records noted.now }
    ensures turn { IfSome result (λ c. (s : Scene) → StandIn s standing.now → c.turn ≡ s.sign (Turn noted.now.at.left noted.now.at.right c.to)) }
    ensures some { IfSome result (λ c. c.to ≡ across) }
    ensures none { IsNone result → noted.now.across ≡ across → IsUnfailed standing.now.failed.now standing.now.gone.now (turn_fact noted.now) → ⊥ }
{
    if noted.across != across {
        return None;
    }
    if !standing.is_unfailed(noted.turn_fact()) {
        return None;
    }
    Some(Across {
        to: across,
        turn: noted.turn,
    })
}

/// The slope of a record with its next one, where the fact is unfailed.
fn known_slope(noted: &Record, standing: &Standing) -> Option<Next>
    requires { Contains standing.now.list.now.records noted.now }
    ensures slope { IfSome result (λ n. (s : Scene) → StandIn s standing.now → n.slope ≡ s.sign (slope_form (seen noted.now.at) (seen n.at))) }
    ensures known { IsSlopeOf standing.now noted.now result }
{
    let next = noted.next?;
    let fact = noted.slope_fact()?;
    if !standing.is_unfailed(fact) {
        return None;
    }
    Some(next)
}

/// The first breakpoint of what is left of a chain.
fn front_of(half: Half, chain: &[u32]) -> Breakpoint
    requires { 2 ≤ length chain.now }
    ensures { result ≡ record { half = half; left = get_or chain.now 0 0; right = get_or chain.now 1 0 } }
{
    Breakpoint {
        half,
        left: chain[0],
        right: chain[1],
    }
}

/// The first breakpoint of what is left of a chain, with what is still known of it by a record.
fn draft_of(noted: &Record, chain: &[u32], across: u32, standing: &Standing) -> Draft
    requires two { 2 ≤ length chain.now }
    requires there { Contains standing.now.list.now.records noted.now }
    ensures at { result.at ≡ record { half = noted.now.at.half; left = get_or chain.now 0 0; right = get_or chain.now 1 0 } }
    ensures fit { (s : Scene) → StandIn s standing.now → AreLive s.live chain.now → IsFit s result }
    ensures recalled { IsRecalled standing.now noted.now across result }
{
    let at = front_of(noted.at.half, chain);
    if !at.is(noted.at) {
        return Draft::new(at);
    }
    Draft {
        at,
        across: known_turn(noted, across, standing),
        next: known_slope(noted, standing),
    }
}

/// Draws one breakpoint.
fn draw<'a>(draft: Draft, chain: &'a [u32], out: &mut Vec<Draft>) -> Result<&'a [u32], NoMemory>
    requires two { 2 ≤ length chain.now }
    requires at { draft.at ≡ record { half = draft.at.half; left = get_or chain.now 0 0; right = get_or chain.now 1 0 } }
    ensures drawn { IfOk result (λ left. (w : Kept) → ((s : Scene) → StandIn s w → AreLive s.live chain.now → IsFit s draft) → IsDrawn w (half_of draft.at.half) chain.now left.now out.old.items out.new.items) }
    ensures shorter { IfOk result (λ left. length left.now + 1 ≡ length chain.now) }
    ensures rest { IfOk result (λ left. left.now ≡ drop 1 chain.now) }
    ensures pushed { OnOk result (out.new.items ≡ out.old.items ++ draft ∷ []) }
{
    let Ok(()) = out.push(draft) else {
        return Err(NoMemory);
    };
    Ok(chain.split_at(1).1)
}

/// Draws the first breakpoints of a chain, as long as their left points were put. Mostly none was put.
#[inline(always)]
fn draw_put<'a>(
    half: Half,
    chain: &'a [u32],
    put: &[u32],
    out: &mut Vec<Draft>,
) -> Result<&'a [u32], NoMemory>
    requires some { 0 < length chain.now }
    ensures drawn { IfOk result (λ left. (w : Kept) → IsDrawn w (half_of half) chain.now left.now out.old.items out.new.items) }
    ensures some { IfOk result (λ left. 0 < length left.now) }
    ensures rest { IfOk result (λ left. left.now ≡ after_put put.now chain.now) }
    ensures pushed { OnOk result (out.new.items ≡ out.old.items ++ put_blanks half put.now chain.now) }
{
    if put.is_empty() {
        return Ok(chain);
    }
    draw_each_put(half, chain, put, out)
}

/// The same where some may have been put.
fn draw_each_put<'a>(
    half: Half,
    chain: &'a [u32],
    put: &[u32],
    out: &mut Vec<Draft>,
) -> Result<&'a [u32], NoMemory>
    requires some { 0 < length chain.now }
    ensures drawn { IfOk result (λ left. (w : Kept) → IsDrawn w (half_of half) chain.now left.now out.old.items out.new.items) }
    ensures some { IfOk result (λ left. 0 < length left.now) }
    ensures rest { IfOk result (λ left. left.now ≡ after_put put.now chain.now) }
    ensures pushed { OnOk result (out.new.items ≡ out.old.items ++ put_blanks half put.now chain.now) }
{
    let mut left = chain;
    while left.len() > 1 && put.contains(&left[0]) {
        left = draw(Draft::new(front_of(half, left)), left, out)?;
    }
    Ok(left)
}

/// Draws all breakpoints of a chain.
fn draw_all(half: Half, chain: &[u32], out: &mut Vec<Draft>) -> Result<(), NoMemory>
    requires some { 0 < length chain.now }
    ensures drawn { OnOk result ((w : Kept) → (left : List ℕ) × (0 < length left) × (breakpoints_of (half_of half) left ≡ []) × IsDrawn w (half_of half) chain.now left out.old.items out.new.items) }
    ensures pushed { OnOk result (out.new.items ≡ out.old.items ++ blanks half chain.now) }
{
    let mut left = chain;
    while left.len() > 1 {
        left = draw(Draft::new(front_of(half, left)), left, out)?;
    }
    Ok(())
}

/// Draws the breakpoint with the left point of this record, if it comes next, and then those whose
/// left points were put.
#[inline(always)]
fn draw_from<'a>(
    noted: &Record,
    chain: &'a [u32],
    across: u32,
    put: &[u32],
    standing: &Standing,
    out: &mut Vec<Draft>,
) -> Result<&'a [u32], NoMemory>
    requires some { 0 < length chain.now }
    requires there { Contains standing.now.list.now.records noted.now }
    ensures drawn { IfOk result (λ left. IsDrawn standing.now (half_of noted.now.at.half) chain.now left.now out.old.items out.new.items) }
    ensures some { IfOk result (λ left. 0 < length left.now) }
    ensures step { IfOk result (λ left. (part : List Drawn) × (out.new.items ≡ out.old.items ++ part) × IsStep standing.now noted.now put.now chain.now across left.now part) }
{
    if chain.len() < 2 {
        return Ok(chain);
    }
    if chain[0] != noted.at.left {
        return Ok(chain);
    }
    let draft = draft_of(noted, chain, across, standing);
    let left = draw(draft, chain, out)?;
    let rest = draw_put(noted.at.half, left, put, out)?;
    Ok(rest)
}

/// Draws what belongs to the place of a record.
#[inline(always)]
fn draw_at<'a>(
    noted: &Record,
    first: &'a [u32],
    second: &'a [u32],
    puts: Puts,
    standing: &Standing,
    out: &mut Vec<Draft>,
) -> Result<(&'a [u32], &'a [u32]), NoMemory>
    requires a_some { 0 < length first.now }
    requires b_some { 0 < length second.now }
    requires there { Contains standing.now.list.now.records noted.now }
    ensures drawn { IfOk result (λ left. (part : List Drawn) × (out.new.items ≡ out.old.items ++ part) × ((others : List Noted) → IsDrawnAlong standing.now puts.entry.a.now puts.entry.b.now (noted.now ∷ others) others first.now second.now left.0.now left.1.now part)) }
{
    match noted.at.half {
        Half::A => {
            let left = draw_from(noted, first, second[0], puts.a, standing, out)?;
            Ok((left, second))
        }
        Half::B => {
            let left = draw_from(noted, second, first[0], puts.b, standing, out)?;
            Ok((first, left))
        }
    }
}

/// Draws what belongs to the places of the records up to this one.
#[inline(always)]
fn draw_up_to<'a>(
    end: usize,
    from: Remainder<'a>,
    puts: Puts,
    standing: &Standing,
    out: &mut Vec<Draft>,
) -> Result<Remainder<'a>, NoMemory>
    requires order { from.place ≤ end }
    requires within { end ≤ length standing.now.list.now.records }
    requires a_some { 0 < length from.a.now }
    requires b_some { 0 < length from.b.now }
    ensures place { IfOk result (λ left. left.place ≡ end) }
    ensures drawn { IfOk result (λ left. (part : List Drawn) × (out.new.items ≡ out.old.items ++ part) × IsDrawnAlong standing.now puts.entry.a.now puts.entry.b.now (drop from.entry.place standing.now.list.now.records) (drop end standing.now.list.now.records) from.entry.a.now from.entry.b.now left.a.now left.b.now part) }
{
    let (mut first, mut second) = (from.a, from.b);
    for place in from.place..end {
        let noted = standing.list.at(place);
        (first, second) = draw_at(noted, first, second, puts, standing, out)?;
    }
    Ok(Remainder {
        a: first,
        b: second,
        place: end,
    })
}

/// Draws what belongs to the places of all further records, and then the breakpoints that are left.
fn draw_rest(
    from: Remainder,
    puts: Puts,
    standing: &Standing,
    out: &mut Vec<Draft>,
) -> Result<(), NoMemory>
    requires within { from.place ≤ length standing.now.list.now.records }
    requires a_some { 0 < length from.a.now }
    requires b_some { 0 < length from.b.now }
    ensures { OnOk result ((a b : List ℕ) (before : List Drawn) → IsDrawnBefore standing.now puts.entry.a.now puts.entry.b.now a b (drop from.entry.place standing.now.list.now.records) from.entry.a.now from.entry.b.now (before ++ out.old.items) → IsAllDrawn standing.now puts.entry.a.now puts.entry.b.now a b (before ++ out.new.items)) }
{
    let left = draw_up_to(standing.list.len(), from, puts, standing, out)?;
    draw_all(Half::A, left.a, out)?;
    draw_all(Half::B, left.b, out)?;
    Ok(())
}

/// Draws the breakpoints in front of both chains whose left points were put, or, where there are none,
/// passes the first records that can be drawn as they are.
fn begin<'a>(
    a: &'a [u32],
    b: &'a [u32],
    puts: Puts,
    standing: &Standing,
    out: &mut Vec<Draft>,
) -> Result<Remainder<'a>, NoMemory>
    requires a_some { 0 < length a.now }
    requires b_some { 0 < length b.now }
    ensures within { IfOk result (λ left. left.place ≤ length standing.now.list.now.records) }
    ensures a_end { IfOk result (λ left. IsEndOf left.a.now a.now) }
    ensures b_end { IfOk result (λ left. IsEndOf left.b.now b.now) }
    ensures passed { IfOk result (λ left. (first second : List ℕ) × IsPassed (take left.place standing.now.list.now.records) a.now b.now first second) }
    ensures drawn { IfOk result (λ left. IsDrawnBefore standing.now puts.entry.a.now puts.entry.b.now a.now b.now (drop left.place standing.now.list.now.records) left.a.now left.b.now (drafts (take left.place standing.now.list.now.records) ++ out.new.items)) }
{
    out.clear();
    let first = draw_put(Half::A, a, puts.a, out)?;
    let second = draw_put(Half::B, b, puts.b, out)?;
    if out.is_empty() {
        return Ok(pass_front(a, b, puts, standing));
    }
    Ok(Remainder {
        a: first,
        b: second,
        place: 0,
    })
}

/// Draws the breakpoints of both chains. Each whose turn is known is drawn where the point of the turn
/// is current, and what is still known of a record whose breakpoint is still there is kept. The records
/// at both ends that can be drawn as they are aren't written: the answer counts them. Each record of the
/// old list is followed as it remembers, since it is the list of a merge.
pub fn sketch(
    a: &[u32],
    b: &[u32],
    puts: Puts,
    standing: &Standing,
    out: &mut Vec<Draft>,
) -> Result<Shared, NoMemory>
    requires a_some { 0 < length a.now }
    requires b_some { 0 < length b.now }
    requires a_once { IsOnce a.now }
    requires b_once { IsOnce b.now }
    requires linked { (k : ℕ) → IsLinkedAt standing.now.list.now.records k }
    ensures clean { IfOk result (λ w. AreClean w standing.now.list.now.records a.now b.now) }
    ensures interleaved { IfOk result (λ w. IsInterleaving a.now b.now (spots (whole_sketch w standing.now.list.now.records out.new.items))) }
    ensures fit { IfOk result (λ w. (s : Scene) → StandIn s standing.now → AreLive s.live a.now → AreLive s.live b.now → AreFit s (whole_sketch w standing.now.list.now.records out.new.items)) }
    ensures seated { IfOk result (λ w. AreSeated (seat_in a.now b.now) [] (whole_sketch w standing.now.list.now.records out.new.items)) }
    ensures retained { IfOk result (λ w. (p : Past) → IsKnownPast p standing.now puts.entry a.now b.now → IsRetained standing.now a.now b.now (whole_sketch w standing.now.list.now.records out.new.items)) }
{
    let front = begin(a, b, puts, standing, out)?;
    let back = pass_back(front, puts, standing);
    let left = draw_up_to(back.place, front, puts, standing, out)?;
    if left.a.len() == back.a.len() && left.b.len() == back.b.len() {
        return Ok(Shared {
            front: front.place,
            back: standing.list.len() - back.place,
        });
    }
    draw_rest(left, puts, standing, out)?;
    Ok(Shared {
        front: front.place,
        back: 0,
    })
}
