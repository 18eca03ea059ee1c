//! What isn't known of a sketch in order is asked.

ghost use Rattle.std.specs.Prelude.{◌≡◌, ℕ, ◌+◌, ◌<◌, ◌≤◌, List, [], ◌++◌, length, get_or, cond, option_map, OnOk, IfOk, IfSome};
ghost use Rattle.kin_motion.specs.declared.form.Form.TheVariants.{Turn};
ghost use Rattle.kin_motion.specs.Merges.{Half.{A, B}, other_current, current_after, IsInterleaving};
ghost use Rattle.kin_motion.specs.Numbers.{IsIn, IsOnce};
ghost use Rattle.kin_overlay.specs.Fingers.{seen_next, next_for, IsNoted, AreNoted, AreLive};
ghost use Rattle.kin_overlay.specs.Filling.{gap_before, lefts, a_behind, b_behind, IsFronted, AreTakenOver};
ghost use Rattle.kin_overlay.specs.Lists.{first_of};
ghost use Rattle.kin_overlay.specs.Remembered.{breakpoints, left_points};
ghost use Rattle.kin_overlay.specs.Seen.{half_of, seen};
ghost use Rattle.kin_overlay.specs.Sketches.{spot_of, half_at, spots, gaps, is_told, missing_turns, IsFit, AreFit};
ghost use Rattle.kin_overlay.specs.Spans.{drafts, whole_sketch, AreClean};

use crate::breakpoint::Breakpoint;
use crate::draft::Draft;
use crate::half::Half;
use crate::list::BreakpointList;
use crate::record::{Next, Record};
use crate::shared::Shared;
use kin_motion::signs::Signs;
use kin_num::Sign;
use kin_num::memory::NoMemory;
use kin_num::steps::Steps;
use std::sync::ledger::Ledger;

/// The sign of the turn to a point. It isn't asked where it is known.
#[inline(always)]
fn turn_sign<O: Signs, L: Ledger>(draft: &Draft, across: u32, now: &O, steps: &mut Steps<L>) -> Sign
    requires fit { IsFit (O.scene now.now) draft.now }
    requires across { IsIn across (O.scene now.now).live }
    ensures value { result ≡ (O.scene now.now).sign (Turn draft.now.at.left draft.now.at.right across) }
    ensures count { steps.new ≡ steps.old + cond (is_told draft.now across) 0 1 }
{
    match draft.turn_to(across) {
        Some(sign) => sign,
        None => now.sign(&draft.at.turn(across), steps),
    }
}

/// The next breakpoint, where it is of the other half, with the sign of the slope form. That isn't asked
/// where it is known.
#[inline(always)]
fn next_of<O: Signs, L: Ledger>(
    draft: &Draft,
    next: Option<Draft>,
    now: &O,
    steps: &mut Steps<L>,
) -> Option<Next>
    requires fit { IsFit (O.scene now.now) draft.now }
    requires next { IfSome next (IsFit (O.scene now.now)) }
    ensures value { option_map seen_next result ≡ next_for (O.scene now.now) (spot_of draft.now) (option_map spot_of next) }
    ensures count { steps.new ≡ steps.old + gap_before draft.now next }
{
    let next = next?;
    if draft.at.half.is(next.at.half) {
        return None;
    }
    let slope = match draft.slope_to(&next) {
        Some(sign) => sign,
        None => now.sign(&draft.at.slope(next.at), steps),
    };
    Some(Next { at: next.at, slope })
}

/// The current point of the half that a breakpoint isn't of.
#[inline(always)]
fn across(half: Half, a: u32, b: u32) -> u32
    ensures { result ≡ other_current (half_of half) a b }
{
    match half {
        Half::A => b,
        Half::B => a,
    }
}

/// The current points after a breakpoint.
#[inline(always)]
fn behind(at: Breakpoint, a: u32, b: u32) -> (u32, u32)
    ensures a { result.0 ≡ current_after A (seen at) a }
    ensures b { result.1 ≡ current_after B (seen at) b }
{
    match at.half {
        Half::A => (at.right, b),
        Half::B => (a, at.right),
    }
}

/// The current points after a record that remembers its own.
#[inline(always)]
fn behind_noted(noted: &Record) -> (u32, u32)
    ensures a { result.0 ≡ a_behind noted.now }
    ensures b { result.1 ≡ b_behind noted.now }
{
    match noted.at.half {
        Half::A => (noted.at.right, noted.across),
        Half::B => (noted.across, noted.at.right),
    }
}

/// The breakpoint that comes next, if there is one.
#[inline(always)]
fn coming(drawn: &[Draft], back: &[Record]) -> Option<Draft>
    ensures { result ≡ first_of (drawn.now ++ drafts back.now) }
{
    if let Some((next, _)) = drawn.split_first() {
        return Some(*next);
    }
    let (next, _) = back.split_first()?;
    Some(Draft::by(next))
}

/// The record of a draft, where a and b are current.
#[inline(always)]
fn note<O: Signs, L: Ledger>(
    draft: &Draft,
    next: Option<Draft>,
    a: u32,
    b: u32,
    now: &O,
    steps: &mut Steps<L>,
) -> Record
    requires fit { IsFit (O.scene now.now) draft.now }
    requires next { IfSome next (IsFit (O.scene now.now)) }
    requires a_live { IsIn a (O.scene now.now).live }
    requires b_live { IsIn b (O.scene now.now).live }
    ensures at { result.at ≡ draft.now.at }
    ensures noted { IsNoted (O.scene now.now) a b result (option_map spot_of next) }
    ensures count { steps.new ≡ steps.old + cond (is_told draft.now (other_current (half_at draft.now) a b)) 0 1 + gap_before draft.now next }
{
    let across = across(draft.at.half, a, b);
    let turn = turn_sign(draft, across, now, steps);
    let next = next_of(draft, next, now, steps);
    Record {
        at: draft.at,
        across,
        turn,
        next,
    }
}

impl BreakpointList {
    /// Takes over the records in front. Another breakpoint may come after the last of them: this one, if
    /// there is one. The current points after them are the result, a and b where there are none.
    fn take_front<O: Signs, L: Ledger>(
        &mut self,
        front: &[Record],
        next: Option<Draft>,
        a: u32,
        b: u32,
        now: &O,
        steps: &mut Steps<L>,
    ) -> Result<(u32, u32), NoMemory>
        requires fit { AreFit (O.scene now.now) (drafts front.now) }
        requires next { IfSome next (IsFit (O.scene now.now)) }
        requires once { IsOnce (left_points front.now) }
        requires empty { self.old.records ≡ [] }
        ensures { IfOk result (λ c. IsFronted (O.scene now.now) front.now next a b self.new.records c.0 c.1 steps.old steps.new) }
    {
        let Some((last, others)) = front.split_last() else {
            return Ok((a, b));
        };
        self.take(others)?;
        let next = next_of(&Draft::by(last), next, now, steps);
        self.push(Record { next, ..*last })?;
        Ok(behind_noted(last))
    }

    /// Makes the records of a sketch that is in order: those of the old list in front and at the end are
    /// taken over, and those of the breakpoints between them are made. A sign is asked for each turn that
    /// isn't known, and for each gap.
    pub fn fill<O: Signs, L: Ledger>(
        &mut self,
        old: &[Record],
        span: Shared,
        between: &[Draft],
        a: &[u32],
        b: &[u32],
        now: &O,
        steps: &mut Steps<L>,
    ) -> Result<(), NoMemory>
        requires a_some { 0 < length a.now }
        requires b_some { 0 < length b.now }
        requires a_live { AreLive (O.scene now.now).live a.now }
        requires b_live { AreLive (O.scene now.now).live b.now }
        requires clean { AreClean span old.now a.now b.now }
        requires fit { AreFit (O.scene now.now) (whole_sketch span old.now between.now) }
        requires interleaved { IsInterleaving a.now b.now (spots (whole_sketch span old.now between.now)) }
        requires once { IsOnce (lefts (spots (whole_sketch span old.now between.now))) }
        requires empty { self.old.records ≡ [] }
        ensures places { OnOk result (breakpoints self.new.records ≡ spots (whole_sketch span old.now between.now)) }
        ensures noted { OnOk result (AreNoted (O.scene now.now) (get_or a.now 0 0) (get_or b.now 0 0) self.new.records) }
        ensures count { OnOk result (steps.new ≡ steps.old + (missing_turns (get_or a.now 0 0) (get_or b.now 0 0) (whole_sketch span old.now between.now) + gaps (whole_sketch span old.now between.now))) }
        ensures kept { OnOk result (AreTakenOver span old.now self.new.records) }
    {
        let front = old.split_at(span.front).0;
        let back = old.split_at(old.len() - span.back).1;
        let next = coming(between, back);
        let (mut first, mut second) = self.take_front(front, next, a[0], b[0], now, steps)?;
        let mut rest = between;
        while let Some((draft, more)) = rest.split_first() {
            let next = coming(more, back);
            self.push(note(draft, next, first, second, now, steps))?;
            (first, second) = behind(draft.at, first, second);
            rest = more;
        }
        self.take(back)?;
        Ok(())
    }
}
