//! Which facts are in the first parts, and which are of the tournament after them.

ghost use Rattle.std.specs.Prelude.{true, ◌≡◌, ◌≤◌, ◌<◌, ◌^◌, [], ◌∷◌, ◌++◌, cond, drop, filter, map, take, Contains, OnOk};
ghost use Rattle.kin_motion.specs.declared.fact.Placed.{Placed as Put};
ghost use Rattle.kin_motion.specs.Parts.{moved_by};
ghost use Rattle.kin_pairs.specs.Sorting.{is_before, is_beyond, taken_back, IsSortedMail};

use kin_motion::fact::Placed;
use kin_num::memory::NoMemory;

/// Puts a fact where it belongs, one of the tournament in its own part.
fn sort_one(
    parts: u32,
    placed: Placed,
    others: &mut Vec<Placed>,
    pairs: &mut Vec<Placed>,
) -> Result<(), NoMemory>
    ensures others { OnOk result (others.new.items ≡ cond (is_before parts placed) (others.old.items ++ placed ∷ []) others.old.items) }
    ensures pairs { OnOk result (pairs.new.items ≡ cond (is_before parts placed) pairs.old.items (pairs.old.items ++ taken_back parts placed ∷ [])) }
{
    if placed.part < parts {
        others.push(placed).map_err(|_| NoMemory)
    } else {
        let part = placed.part - parts;
        let fact = placed.fact;
        pairs.push(Placed { part, fact }).map_err(|_| NoMemory)
    }
}

/// Whether all facts are in the first parts.
fn are_before(parts: u32, facts: &[Placed]) -> bool
    ensures others { result ≡ true → filter (is_before parts) facts.now ≡ facts.now }
    ensures pairs { result ≡ true → filter (is_beyond parts) facts.now ≡ [] }
{
    for placed in facts {
        if placed.part >= parts {
            return false;
        }
    }
    true
}

/// Sorts facts: those of the tournament in its own parts, and where there are some, the others.
pub(crate) fn sort_out(
    parts: u32,
    facts: &[Placed],
    others: &mut Vec<Placed>,
    pairs: &mut Vec<Placed>,
) -> Result<(), NoMemory>
    ensures { OnOk result (IsSortedMail parts facts.now (record { others = others.new.items; pairs = pairs.new.items })) }
{
    others.clear();
    pairs.clear();
    if are_before(parts, facts) {
        return Ok(());
    }
    for placed in facts {
        sort_one(parts, *placed, others, pairs)?;
    }
    Ok(())
}

/// Moves the facts from a place on, those of the tournament, to their parts after the first ones.
pub(crate) fn move_from(parts: u32, facts: &mut Vec<Placed>, from: usize)
    requires few { parts ≤ 2 ^ 15 }
    requires low { (p : Put) → Contains (drop from facts.old.items) p → p.part < 2 ^ 15 }
    ensures { facts.new.items ≡ take from facts.old.items ++ map (moved_by parts) (drop from facts.old.items) }
{
    for k in from..facts.len() {
        facts[k].part += parts;
    }
}
