//! What the arguments ask for.

ghost use Rattle.std.specs.Prelude.{◌≡◌, ◌≤◌, ◌^◌, IfSome};
ghost use Rattle.kin_status.specs.Words.{asked_of, demo_of, IsAskable};

use kin_script::numeral;

/// The greatest seed.
const MOST_SEED: u32 = u32::MAX;

/// The greatest number of generated points.
const MOST_POINTS: u32 = 1024;

/// A run that is asked for.
#[derive(Clone, Copy, Debug, PartialEq, Eq)]
pub enum Asked {
    /// That of the script on the source.
    Run,
    /// The verdict on the script and the claimed text on the source.
    Check,
    /// That of the generated script of a seed, with this many points.
    Demo { seed: u32, count: u32 },
}

/// A seed and a count of points.
fn demo(seed: &[u8], count: &[u8]) -> Option<Asked>
    ensures form { result ≡ demo_of seed.now count.now }
    ensures range { IfSome result IsAskable }
{
    let seed = numeral(seed, MOST_SEED)?;
    let count = numeral(count, MOST_POINTS)?;
    if count < 1 {
        return None;
    }
    Some(Asked::Demo { seed, count })
}

/// What the arguments ask for, or `None` where they have none of these forms.
pub fn parse(words: &[String]) -> Option<Asked>
    ensures form { result ≡ asked_of words.now }
    ensures range { IfSome result IsAskable }
{
    match words {
        [word] if word.as_str() == "run" => Some(Asked::Run),
        [word] if word.as_str() == "check" => Some(Asked::Check),
        [word, seed, count] if word.as_str() == "demo" => demo(seed.as_bytes(), count.as_bytes()),
        _ => None,
    }
}
