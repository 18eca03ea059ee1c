//! Numbers, digit by digit.

ghost use Rattle.std.specs.Prelude.{◌≡◌, ◌≤◌, IfSome, unsigned_abs};
ghost use Rattle.kin_script.specs.Numbers.{natural_of, integer_of, ratio_of, up_to, numeral_of};

use crate::words::place;

/// The greatest numerator, and the greatest denominator.
const RATIO_LIMIT: u32 = i32::MAX as u32;

/// The number that one or more digits write, where it is at most this.
pub fn numeral(word: &[u8], most: u32) -> Option<u32>
    ensures value { result ≡ up_to most (numeral_of word.now) }
    ensures small { IfSome result (λ n. n ≤ most) }
{
    if word.is_empty() {
        return None;
    }
    let mut value = 0u64;
    for d in word {
        if !d.is_ascii_digit() {
            return None;
        }
        value = 10 * value + u64::from(*d - b'0');
        if value > u64::from(most) {
            return None;
        }
    }
    Some(value as u32)
}

/// A number from `low` to `high`. After a minus only 0 is one.
#[tactic(auto, unfolding(crate::specs::Numbers::natural_of))]
pub fn natural(word: &[u8], low: u32, high: u32) -> Option<u32>
    ensures value { result ≡ natural_of low high word.now }
    ensures range { IfSome result (λ n. (low ≤ n) × (n ≤ high)) }
{
    let value = match word {
        [b'-', rest @ ..] => numeral(rest, 0)?,
        _ => numeral(word, high)?,
    };
    if value < low {
        return None;
    }
    Some(value)
}

/// A number at most `far` from 0.
#[tactic(auto, unfolding(crate::specs::Numbers::integer_of))]
pub fn integer(word: &[u8], far: u32) -> Option<i64>
    ensures value { result ≡ integer_of far word.now }
    ensures range { IfSome result (λ z. unsigned_abs z ≤ far) }
{
    match word {
        [b'-', rest @ ..] => Some(-i64::from(numeral(rest, far)?)),
        _ => Some(i64::from(numeral(word, far)?)),
    }
}

/// A fraction, or a whole number.
#[tactic(auto, unfolding(crate::specs::Numbers::ratio_of))]
pub fn ratio(word: &[u8]) -> Option<(u32, u32)>
    ensures { result ≡ ratio_of word.now }
{
    match place(word, b'/') {
        Some(at) => {
            let n = natural(&word[..at], 0, RATIO_LIMIT)?;
            let d = natural(&word[at + 1..], 1, RATIO_LIMIT)?;
            Some((n, d))
        }
        None => Some((natural(word, 0, RATIO_LIMIT)?, 1)),
    }
}
