//! The script and the claimed text of an input.

ghost use Rattle.std.specs.Prelude.{◌≤◌, ◌↔◌, length, take, drop, IsTrue, MatchOption};
ghost use Rattle.kin_check.specs.Splits.{IsBeforePiece, IsMark, IsSplit, IsUnsplit, HasNoMark};

/// Whether a piece begins at this place: at the first byte, and after each line feed.
fn begins_piece(input: &[u8], at: usize) -> bool
    requires { at ≤ length input.now }
    ensures { IsTrue result ↔ IsBeforePiece (take at input.now) }
{
    at == 0 || input[at - 1] == b'\n'
}

/// What is after the first piece and its line feed, if that piece is the one byte `=`.
fn after_mark(bytes: &[u8]) -> Option<&[u8]>
    ensures { MatchOption result (HasNoMark bytes.now) (λ after. IsMark bytes.now after.now) }
{
    match bytes {
        [b'='] => Some(&[]),
        [b'=', b'\n', after @ ..] => Some(after),
        _ => None,
    }
}

/// The bytes before the first piece that is the one byte `=`, and those after it; `None` exactly where no piece is.
pub fn split(input: &[u8]) -> Option<(&[u8], &[u8])>
    ensures { MatchOption result (IsUnsplit input.now) (λ r. IsSplit input.now r.0.now r.1.now) }
{
    for at in 0..input.len() {
        if begins_piece(input, at) {
            if let Some(claim) = after_mark(&input[at..]) {
                return Some((&input[..at], claim));
            }
        }
    }
    None
}
