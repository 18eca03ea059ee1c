//! Facts that a structure wants to be left out.

ghost use Rattle.std.specs.Prelude.{◌≡◌, ◌^◌, ◌<◌, ◌≤◌, Bool, length};
ghost use Rattle.kin_motion.specs.declared.fact.Placed.{Placed as Put};
ghost use Rattle.kin_motion.specs.Tournaments.{comes_to};

use kin_list::Mark;
use kin_motion::fact::Placed;

/// Which facts a structure spares.
pub trait Spares {
    /// Whether the fact is spared.
    ghost is_spared: { Self → Put → Bool };

    fn spares(&self, fact: &Placed) -> bool
        ensures { result ≡ is_spared self.now fact.now };
}

/// No fact is spared.
#[derive(Clone, Copy, Debug, PartialEq, Eq)]
pub struct SparesNone;

impl Spares for SparesNone {
    ghost use Rattle.std.specs.Prelude.{false};

    ghost is_spared = { λ s p. false };

    fn spares(&self, _fact: &Placed) -> bool {
        false
    }
}

/// The facts that name a leaving number are spared.
#[derive(Clone, Copy, Debug, PartialEq, Eq)]
pub struct SparesLeaving {
    pub mark: Mark,
}

impl Spares for SparesLeaving {
    ghost use Rattle.kin_list.specs.Listing.{names_leaving};

    ghost is_spared = { λ s p. names_leaving s.mark p };

    fn spares(&self, fact: &Placed) -> bool {
        match self.mark {
            Mark::Leaves(no) => fact.fact.form.names(no),
            _ => false,
        }
    }
}

/// The facts of nodes above a marked slot of a tournament are spared.
#[derive(Drop)]
pub struct SparesAbove<'a> {
    pub size: u32,
    pub marks: &'a [bool],
    ghost low: { size ≤ 15 },
    ghost room: { length marks.now ≤ 2 ^ 15 },
}

/// Whether a node is met where another is halved so often.
fn comes_to(halvings: u32, from: u32, node: u32) -> bool
    ensures { result ≡ comes_to halvings from node }
{
    from == node || halvings > 0 && comes_to(halvings - 1, from / 2, node)
}

impl Spares for SparesAbove<'_> {
    ghost use Rattle.kin_tourney.specs.Tournament.{is_above_mark};

    ghost is_spared = { λ s p. is_above_mark s.size s.marks.now p.part };

    fn spares(&self, fact: &Placed) -> bool {
        let first = 1u32 << self.size;
        for slot in 0..self.marks.len() {
            if self.marks[slot] && comes_to(self.size, first + slot as u32, fact.part) {
                return true;
            }
        }
        false
    }
}

/// The facts that name a number are spared, if there is one.
#[derive(Clone, Copy, Debug, PartialEq, Eq)]
pub struct SparesOne {
    pub no: Option<u32>,
}

impl Spares for SparesOne {
    ghost use Rattle.kin_diameter.specs.Diameter.{names_leaving};

    ghost is_spared = { λ s p. names_leaving s.no p };

    fn spares(&self, fact: &Placed) -> bool {
        match self.no {
            Some(no) => fact.fact.form.names(no),
            None => false,
        }
    }
}

/// The facts that name one of these numbers are spared.
#[derive(Drop)]
pub struct SparesNamed<'a> {
    pub gone: &'a [u32],
}

impl Spares for SparesNamed<'_> {
    ghost use Rattle.kin_overlay.specs.Overlays.{names_any};

    ghost is_spared = { λ s p. names_any p.fact.form s.gone.now };

    fn spares(&self, fact: &Placed) -> bool {
        for no in self.gone {
            if fact.fact.form.names(*no) {
                return true;
            }
        }
        false
    }
}
