//! Moments as plain numbers.

ghost use Rattle.std.specs.Prelude.{◌≡◌, ◌≤◌, ◌<ℤ◌, pos, IsTrue, IsFalse, IfOk, OnOk, IfErr};
ghost use Rattle.kin_num.specs.Canonical.{IsCanonical, IsLowest, IsSmallRatio};
ghost use Rattle.kin_instant.specs.Roots.{IsFraction};
ghost use Rattle.kin_c.specs.Moments.{IsFractionGiven, IsInstant, IsMaybe, IsNoMoment, Names, instant_numbers, moment_numbers, phase_number, root_kind};

use kin_num::{Instant, Moment, Phase, Shape, gcd};
use kin_tracker::{Refusal, fraction, root};

/// A moment: a fraction `a/b`, or a root of `a*t^2 + b*t + c`, or just after it.
#[repr(C)]
#[derive(Clone, Copy)]
pub struct KinMoment {
    /// 0 a fraction, 1 the lesser root, 2 the greater one.
    pub kind: u64,
    pub a: i64,
    pub b: i64,
    pub c: i64,
    /// 0 at the instant, 1 just after it.
    pub after: u64,
}

/// The kind of a fraction.
const FRACTION: u64 = 0;

/// The kind of a lesser root.
const LOWER_ROOT: u64 = 1;

/// The kind of a greater root.
const UPPER_ROOT: u64 = 2;

/// The greatest size of a number of a fraction in lowest terms.
const GREATEST: u64 = 1 << 31;

impl KinMoment {
    /// The numbers of a moment.
    pub(crate) fn of(moment: &Moment) -> KinMoment
        ensures { result ≡ moment_numbers moment.now }
    {
        let after = phase_number(moment.phase);
        match moment.at.shape() {
            Shape::Ratio { n, d } => KinMoment {
                kind: FRACTION,
                a: n,
                b: d,
                c: 0,
                after,
            },
            Shape::Root { a, b, c, upper } => KinMoment {
                kind: root_kind(upper),
                a,
                b,
                c,
                after,
            },
        }
    }

    /// The moment that the numbers name.
    pub(crate) fn read(self) -> Result<Moment, Refusal>
        ensures names { IfOk result (Names self) }
        ensures refused { IfErr result (IsNoMoment self) }
    {
        if UPPER_ROOT < self.kind || 1 < self.after {
            return Err(Refusal::BadNumber);
        }
        if self.kind == FRACTION {
            return self.read_fraction();
        }
        self.read_root()
    }

    /// The moment at or after a fraction.
    fn read_fraction(self) -> Result<Moment, Refusal>
        requires kind { self.kind ≡ 0 }
        requires after { self.after ≤ 1 }
        ensures names { IfOk result (Names self) }
        ensures refused { IfErr result (IsNoMoment self) }
    {
        match fraction_given(self.a, self.b) {
            Ok(at) => Ok(Moment {
                at,
                phase: phase(self.after),
            }),
            Err(refusal) => Err(refusal),
        }
    }

    /// The moment at or after a root.
    fn read_root(self) -> Result<Moment, Refusal>
        requires low { 1 ≤ self.kind }
        requires high { self.kind ≤ 2 }
        requires after { self.after ≤ 1 }
        ensures names { IfOk result (Names self) }
        ensures refused { IfErr result (IsNoMoment self) }
    {
        match root(self.a, self.b, self.c, self.kind == UPPER_ROOT) {
            Ok(moment) => Ok(Moment {
                at: moment.at,
                phase: phase(self.after),
            }),
            Err(refusal) => Err(refusal),
        }
    }
}

/// 0 at an instant, and 1 just after it.
fn phase_number(phase: Phase) -> u64
    ensures { result ≡ phase_number phase }
{
    match phase {
        Phase::At => 0,
        Phase::After => 1,
    }
}

/// The phase of a number.
fn phase(after: u64) -> Phase
    requires { after ≤ 1 }
    ensures { after ≡ phase_number result }
{
    if after == 0 { Phase::At } else { Phase::After }
}

/// The kind of a root.
fn root_kind(upper: bool) -> u64
    ensures { result ≡ root_kind upper }
{
    if upper { UPPER_ROOT } else { LOWER_ROOT }
}

/// The instant `n / d`.
fn fraction_given(n: i64, d: i64) -> Result<Instant, Refusal>
    ensures canonical { IfOk result IsCanonical }
    ensures value { IfOk result (IsFraction n d) }
    ensures range { OnOk result (IsFractionGiven n d) }
    ensures refused { IfErr result (λ r. (r ≡ Refusal.BadNumber) × ¬ (IsFractionGiven n d)) }
{
    if is_lowest(n, d) {
        return Ok(Instant::of(Shape::Ratio { n, d }));
    }
    match fraction(n, d) {
        Ok(moment) => Ok(moment.at),
        Err(_) => Err(Refusal::BadNumber),
    }
}

/// Whether `n / d` is in lowest terms and small.
#[tactic(auto, using(std::proofs::lemmas::Nat::Gcd::same_from_IsGcd))]
fn is_lowest(n: i64, d: i64) -> bool
    ensures yes { IsTrue result → IsLowest n d × IsSmallRatio n d }
    ensures no { IsFalse result → ¬ (IsLowest n d × IsSmallRatio n d) }
{
    is_small(n, d) && gcd(n.unsigned_abs(), d.unsigned_abs()) == 1
}

/// Whether the denominator is positive, and both numbers are small.
fn is_small(n: i64, d: i64) -> bool
    ensures yes { IsTrue result → (pos 0 <ℤ d) × IsSmallRatio n d }
    ensures no { IsFalse result → ¬ ((pos 0 <ℤ d) × IsSmallRatio n d) }
{
    0 < d && n.unsigned_abs() <= GREATEST && d.unsigned_abs() <= GREATEST
}

/// Gives a moment, if there is one.
pub(crate) fn put_moment(found: Option<Moment>, moment: &mut KinMoment, len: &mut usize)
    ensures { IsMaybe found moment.old moment.new len.new }
{
    match found {
        Some(found) => {
            *moment = KinMoment::of(&found);
            *len = 1;
        }
        None => *len = 0,
    }
}
