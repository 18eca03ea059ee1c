//! The motion that a point turns to.

ghost use Rattle.std.specs.Prelude.{◌≡◌, ◌≢◌, ◌≤◌, ◌↔◌, ◌^◌, ℤ, pos, ◌-ℤ◌, ◌*ℤ◌, ◌<ℤ◌, IfOk, MatchOption, unsigned_abs, Err, ◌*◌};
ghost use Rattle.kin_num.specs.declared.instant.Phase.TheVariants.{At};
ghost use Rattle.kin_motion.specs.Course.{Course, IsSlow, motion_limit};
ghost use Rattle.kin_motion.specs.Sizes.{step_limit};
ghost use Rattle.kin_motion.specs.Turning.{IsNewStart, TurnsTo, IsNotWhole, IsOutOfBounds};
ghost use Rattle.kin_turn.specs.declared.turned.TurnError.TheVariants.{NotWhole as Broken, OutOfBounds as Outside};

use kin_motion::motion::Motion;
use kin_num::{Instant, Moment, Phase, Shape};

/// Why a point can't turn.
#[derive(Clone, Copy, Debug, PartialEq, Eq)]
pub enum TurnError {
    /// No motion with whole numbers and this velocity is at the same place, or the moment is just after an instant.
    NotWhole,
    /// There is one, but one of its numbers isn't in -8192..8192.
    OutOfBounds,
}

/// `x / divisor` where that is whole.
fn whole_quotient(x: i64, divisor: i64) -> Option<i64>
    requires positive { pos 0 <ℤ divisor }
    ensures { MatchOption result ((k : ℤ) → x ≢ k *ℤ divisor) (λ k. (x ≡ k *ℤ divisor) × (unsigned_abs k ≤ unsigned_abs x)) }
{
    if x % divisor == 0 {
        Some(x / divisor)
    } else {
        None
    }
}

/// What a coordinate that loses so much speed loses until the fraction `n / d`, times `d`.
fn loss_until(slower: i64, n: i64) -> i64
    requires slower { unsigned_abs slower ≤ step_limit }
    requires n_small { unsigned_abs n ≤ 2 ^ 31 }
    ensures value { result ≡ n *ℤ slower }
    ensures small { unsigned_abs result ≤ 2 ^ 31 * step_limit }
{
    n * slower
}

/// The constant part `k` with which `k + new_speed * t` is `start + speed * t` at the fraction `n / d`, or `None`
/// where it isn't whole.
fn start_at_ratio(start: i64, slower: i64, n: i64, d: i64) -> Option<i64>
    requires start { unsigned_abs start ≤ motion_limit }
    requires slower { unsigned_abs slower ≤ step_limit }
    requires n_small { unsigned_abs n ≤ 2 ^ 31 }
    requires d_positive { pos 0 <ℤ d }
    ensures { MatchOption result ((k : ℤ) → n *ℤ slower ≢ (k -ℤ start) *ℤ d) (λ k. n *ℤ slower ≡ (k -ℤ start) *ℤ d) }
{
    let gain = whole_quotient(loss_until(slower, n), d)?;
    Some(start + gain)
}

/// The constant part `k` with which `k + new_speed * t` is `start + speed * t` at the instant, or `None` where it
/// isn't whole. At an irrational instant only the same speed has one.
fn new_start(start: i32, speed: i32, new_speed: i32, at: &Instant) -> Option<i64>
    requires start { unsigned_abs start ≤ motion_limit }
    requires speed { unsigned_abs speed ≤ motion_limit }
    requires new_speed { unsigned_abs new_speed ≤ motion_limit }
    ensures { MatchOption result ((k : ℤ) → ¬ (IsNewStart start speed new_speed at.now k)) (λ k. IsNewStart start speed new_speed at.now k) }
{
    let slower = i64::from(speed - new_speed);
    match at.shape() {
        Shape::Ratio { n, d } => start_at_ratio(i64::from(start), slower, n, d),
        Shape::Root { .. } if slower == 0 => Some(i64::from(start)),
        Shape::Root { .. } => None,
    }
}

/// Both constant parts of the motion with the velocity `(u, v)` that is at the same place at the instant, or `None`
/// where there is none.
fn new_starts(motion: &Motion, at: &Instant, u: i32, v: i32) -> Option<(i64, i64)>
    requires u { unsigned_abs u ≤ motion_limit }
    requires v { unsigned_abs v ≤ motion_limit }
    ensures { MatchOption result ((new : Course) → ¬ (TurnsTo at.now u v motion.now new)) (λ start. TurnsTo at.now u v motion.now (record { x = start.0; y = start.1; u = u; v = v })) }
{
    let x = new_start(motion.x(), motion.u(), u, at)?;
    let y = new_start(motion.y(), motion.v(), v, at)?;
    Some((x, y))
}

/// The constant part as a motion holds it, if it is small enough.
fn in_bounds(start: i64) -> Option<i32>
    ensures { MatchOption result (¬ (unsigned_abs start ≤ motion_limit)) (λ narrow. (narrow ≡ start) × (unsigned_abs start ≤ motion_limit)) }
{
    let limit = i64::from(Motion::LIMIT);
    if -limit <= start && start <= limit {
        Some(start as i32)
    } else {
        None
    }
}

/// The motion with the velocity `(u, v)` that is at the same place at the moment now. Each of the two is in
/// -8192..8192. Takes no memory.
///
/// `NotWhole` comes exactly where the moment is just after an instant or a new constant part isn't whole;
/// `OutOfBounds` exactly where the moment is an instant, both constant parts are whole, and one is outside -8192..8192.
pub fn turned(motion: &Motion, now: &Moment, u: i32, v: i32) -> Result<Motion, TurnError>
    requires u { unsigned_abs u ≤ motion_limit }
    requires v { unsigned_abs v ≤ motion_limit }
    ensures turns { IfOk result (λ new. (now.now.phase ≡ At) × TurnsTo now.now.at u v motion.now new × IsSlow new) }
    ensures not_whole { (result ≡ Err Broken) ↔ IsNotWhole now.now u v motion.now }
    ensures outside { (result ≡ Err Outside) ↔ IsOutOfBounds now.now u v motion.now }
{
    let Phase::At = now.phase else {
        return Err(TurnError::NotWhole);
    };
    let Some((x, y)) = new_starts(motion, &now.at, u, v) else {
        return Err(TurnError::NotWhole);
    };
    let Some(x) = in_bounds(x) else {
        return Err(TurnError::OutOfBounds);
    };
    let Some(y) = in_bounds(y) else {
        return Err(TurnError::OutOfBounds);
    };
    now.at.recall_canonical();
    Ok(Motion::new(x, y, u, v))
}
