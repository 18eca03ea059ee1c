//! The words of one line, from left to right.

ghost use Rattle.std.specs.Prelude.{◌≡◌, ◌<◌, ◌≤◌, ◌^◌, ◌∷◌, [], length, position, slice_index, false, ◌==◌, MatchOption, IfSome, option_map, unsigned_abs};
ghost use Rattle.kin_motion.specs.Course.{IsSlow};
ghost use Rattle.kin_script.specs.Lines.{is_blank, pieces_of, words_of, is_nil};
ghost use Rattle.kin_script.specs.Words.{natural_at, number_at, instant_at, integer_at, side_at, motion_at, velocity_at, last};

use crate::number;
use kin_motion::Motion;
use std::marker::Model;

/// The words that are left to read.
#[derive(Drop)]
pub struct Words<'a> {
    rest: &'a [u8],
}

impl<'a> Model for Words<'a> {
    ghost use Rattle.std.specs.Prelude.{List};
    ghost use Rattle.kin_script.specs.Lines.{Word, pieces_of};

    ghost Value = { List Word };

    ghost view = { λ w. pieces_of w.rest.now };
}

impl<'a> Words<'a> {
    /// The words of a line.
    pub fn of(line: &'a [u8]) -> Words<'a>
        ensures { result ≡ words_of line.now }
    {
        Words {
            rest: text_of(line),
        }
    }

    /// The same words once more.
    pub fn again(&self) -> Words<'a>
        ensures { result ≡ self.now }
    {
        Words { rest: self.rest }
    }

    /// The next word.
    pub fn next(&mut self) -> Option<&'a [u8]>
        ensures { MatchOption result (self.old ≡ []) (λ w. self.old ≡ w.now ∷ self.new) }
    {
        let (word, rest) = first_word(self.rest)?;
        self.rest = rest;
        Some(word)
    }

    /// Whether no word is left.
    pub fn is_empty(&self) -> bool
        ensures { result ≡ is_nil self.now }
    {
        first_word(self.rest).is_none()
    }

    /// The value, where no word is left.
    pub fn last<T>(&self, value: T) -> Option<T>
    where
        T: Drop,
        ensures { result ≡ last value self.now }
    {
        if self.is_empty() { Some(value) } else { None }
    }

    /// The next word as a number from `low` to `high`.
    #[tactic(auto, unfolding(crate::specs::Words::natural_at))]
    pub fn natural(&mut self, low: u32, high: u32) -> Option<u32>
        ensures value { option_map (λ n. (n, self.new)) result ≡ natural_at low high self.old }
        ensures range { IfSome result (λ n. (low ≤ n) × (n ≤ high)) }
    {
        number::natural(self.next()?, low, high)
    }

    /// The next word as the number of a point.
    #[tactic(auto, unfolding(crate::specs::Words::number_at))]
    pub fn number(&mut self, size: u32) -> Option<u32>
        requires low { 1 ≤ size }
        requires high { size ≤ 12 }
        ensures { option_map (λ n. (n, self.new)) result ≡ number_at size self.old }
    {
        self.natural(0, (1 << size) - 1)
    }

    /// The next word as a whole instant below 2^31.
    #[tactic(auto, unfolding(crate::specs::Words::instant_at))]
    pub fn instant(&mut self) -> Option<u32>
        ensures { option_map (λ n. (n, self.new)) result ≡ instant_at self.old }
    {
        self.natural(0, i32::MAX as u32)
    }

    /// The next word as a number at most `far` from 0.
    #[tactic(auto, unfolding(crate::specs::Words::integer_at))]
    pub fn integer(&mut self, far: u32) -> Option<i32>
        requires { far < 2 ^ 31 }
        ensures value { option_map (λ z. (z, self.new)) result ≡ integer_at far self.old }
        ensures range { IfSome result (λ z. unsigned_abs z ≤ far) }
    {
        Some(self.long_integer(far)? as i32)
    }

    /// The same, where the number may take more than 32 bits.
    #[tactic(auto, unfolding(crate::specs::Words::integer_at))]
    pub fn long_integer(&mut self, far: u32) -> Option<i64>
        ensures value { option_map (λ z. (z, self.new)) result ≡ integer_at far self.old }
        ensures range { IfSome result (λ z. unsigned_abs z ≤ far) }
    {
        number::integer(self.next()?, far)
    }

    /// The next word as a side: whether it names the greater root.
    #[tactic(auto, unfolding(crate::specs::Words::side_at))]
    pub fn side(&mut self) -> Option<bool>
        ensures { option_map (λ upper. (upper, self.new)) result ≡ side_at self.old }
    {
        let word = self.next()?;
        if word == b"lo".as_slice() {
            Some(false)
        } else if word == b"hi".as_slice() {
            Some(true)
        } else {
            None
        }
    }

    /// The next four words as a motion.
    #[tactic(auto, unfolding(crate::specs::Words::motion_at))]
    pub fn motion(&mut self) -> Option<Motion>
        ensures value { option_map (λ m. (m, self.new)) result ≡ motion_at self.old }
        ensures range { IfSome result IsSlow }
    {
        let x = self.integer(Motion::LIMIT)?;
        let y = self.integer(Motion::LIMIT)?;
        let u = self.integer(Motion::LIMIT)?;
        let v = self.integer(Motion::LIMIT)?;
        Some(Motion::new(x, y, u, v))
    }

    /// The next two words as a velocity.
    #[tactic(auto, unfolding(crate::specs::Words::velocity_at))]
    pub fn velocity(&mut self) -> Option<(i32, i32)>
        ensures { option_map (λ w. (w, self.new)) result ≡ velocity_at self.old }
    {
        let u = self.integer(Motion::LIMIT)?;
        let v = self.integer(Motion::LIMIT)?;
        Some((u, v))
    }
}

/// The first place of the byte.
pub fn place(bytes: &[u8], mark: u8) -> Option<usize>
    ensures { result ≡ position (λ b. b == mark) bytes.now }
{
    bytes.iter().position(|b| *b == mark)
}

/// What is left of a line without its carriage return and its comment.
#[tactic(auto, unfolding(crate::specs::Lines::words_of))]
fn text_of(line: &[u8]) -> &[u8]
    ensures { words_of line.now ≡ pieces_of result.now }
{
    let line = match line {
        [front @ .., b'\r'] => front,
        _ => line,
    };
    match place(line, b'#') {
        Some(at) => &line[..at],
        None => line,
    }
}

/// Whether the byte separates words: a space or a tab.
fn is_blank_byte(b: u8) -> bool
    ensures { result ≡ is_blank b }
{
    b == b' ' || b == b'\t'
}

/// The bytes after the blanks at the front.
fn skip_blanks(bytes: &[u8]) -> &[u8]
    ensures same { pieces_of bytes.now ≡ pieces_of result.now }
    ensures word { 0 < length result.now → is_blank (slice_index result.now 0) ≡ false }
{
    for (at, b) in bytes.iter().enumerate() {
        if !is_blank_byte(*b) {
            return &bytes[at..];
        }
    }
    &[]
}

/// The place of the first blank.
fn blank_place(bytes: &[u8]) -> Option<usize>
    ensures { result ≡ position is_blank bytes.now }
{
    bytes.iter().position(|b| is_blank_byte(*b))
}

/// The first word, and the bytes after it.
fn first_word(bytes: &[u8]) -> Option<(&[u8], &[u8])>
    ensures { MatchOption result (pieces_of bytes.now ≡ []) (λ r. pieces_of bytes.now ≡ r.0.now ∷ pieces_of r.1.now) }
{
    let bytes = skip_blanks(bytes);
    if bytes.is_empty() {
        return None;
    }
    match blank_place(bytes) {
        Some(at) => Some((&bytes[..at], &bytes[at..])),
        None => Some((bytes, &[])),
    }
}
