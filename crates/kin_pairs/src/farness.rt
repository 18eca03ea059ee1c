//! Pairs by their distance, the farther one preferred.

use crate::brief::DistanceBrief;
use crate::pair::Pair;
use kin_motion::fact::Fact;
use kin_motion::form::Form;
use kin_num::Sign;
use kin_tourney::Keyed;

/// The key of the farthest pair: the farther pair wins, and at a tie the one that is less by its first
/// number, then by its second, then by its slot.
#[derive(Clone, Copy, Debug, PartialEq, Eq, Drop)]
pub struct Farness;

impl Keyed for Farness {
    ghost use Rattle.std.specs.Prelude.{[], ◌∷◌};
    ghost use Rattle.kin_motion.specs.Farthest.{farness_key};
    ghost use Rattle.kin_pairs.specs.Briefs.{near_fact};
    ghost use Rattle.kin_pairs.specs.PairKeys.{pair_names, pairs_askable, farness_total, farness_transitive};

    type Item = Pair;

    type Brief = DistanceBrief;

    ghost names = { pair_names };

    ghost key = { λ k. farness_key };

    ghost fact_of = { near_fact };

    ghost askable = { λ k. pairs_askable };

    ghost total = { λ k. farness_total };

    ghost transitive = { λ k. farness_transitive };

    fn form(&self, left: &Pair, right: &Pair) -> Form {
        left.form_with(right)
    }

    fn left_wins(&self, sign: Sign, left: &Pair, right: &Pair) -> bool {
        match sign {
            Sign::Minus => true,
            Sign::Zero => left.is_less(right),
            Sign::Plus => false,
        }
    }

    fn no_fact() -> DistanceBrief {
        DistanceBrief::none()
    }

    #[inline(always)]
    fn brief(&self, sign: Sign, left: &Pair, right: &Pair) -> DistanceBrief {
        left.against(right, sign)
    }

    #[inline(always)]
    fn fact(brief: &DistanceBrief) -> Option<Fact> {
        brief.fact()
    }

    #[inline(always)]
    fn is_same(one: &DistanceBrief, other: &DistanceBrief) -> bool {
        one.is_same(other)
    }
}
