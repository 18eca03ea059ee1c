//! Whether a claimed text is the text of its script.

ghost use Rattle.std.specs.Prelude.{◌≡◌, ◌≤◌, ◌↔◌, ◌^◌, IfOk, length};
ghost use Rattle.kin_check.specs.Splits.{IsTrueClaim, IsUnsplit};

use crate::replay::is_text_of;
use crate::split::split;
use kin_num::memory::NoMemory;
use std::alloc::Global;

/// What is said of a claim.
#[derive(Clone, Copy, Debug, PartialEq, Eq)]
pub enum Verdict {
    /// The claimed text is that of the script.
    Yes,
    /// It isn't.
    No,
    /// No line is the one byte `=`, so there is no claim.
    Unsplit,
}

/// Holds a claimed text against a script. The input has at most 2^20 bytes: a script, a line `=`, and the claimed text. The
/// first line that is the one byte `=` parts them. `Yes` comes exactly where the text is what the script prints, the lines
/// `refused` and `bad` included.
///
/// It takes time: each block is computed from all positions.
pub fn check(alloc: Global, input: &[u8]) -> Result<Verdict, NoMemory>
    requires { length input.now ≤ 2 ^ 20 }
    ensures yes { IfOk result (λ verdict. (verdict ≡ Verdict.Yes) ↔ IsTrueClaim input.now) }
    ensures unsplit { IfOk result (λ verdict. (verdict ≡ Verdict.Unsplit) ↔ IsUnsplit input.now) }
    ensures no { IfOk result (λ verdict. (verdict ≡ Verdict.No) ↔ (¬ (IsTrueClaim input.now) × ¬ (IsUnsplit input.now))) }
{
    let Some((script, claim)) = split(input) else {
        return Ok(Verdict::Unsplit);
    };
    if is_text_of(alloc, script, claim)? {
        Ok(Verdict::Yes)
    } else {
        Ok(Verdict::No)
    }
}
