//! Pairs by their distance, the closer one preferred.

use crate::brief::DistanceBrief;
use crate::pair::Pair;
use kin_motion::fact::Fact;
use kin_motion::form::Form;
use kin_num::Sign;
use kin_tourney::Keyed;

/// The key of the closest pair: the closer pair wins, and at a tie the one that is less by its first
/// number, then by its second, then by its slot.
#[derive(Clone, Copy, Debug, PartialEq, Eq, Drop)]
pub struct Distance;

impl Keyed for Distance {
    ghost use Rattle.std.specs.Prelude.{[], ◌∷◌};
    ghost use Rattle.kin_motion.specs.ClosestPairs.{distance_key};
    ghost use Rattle.kin_pairs.specs.Briefs.{near_fact};
    ghost use Rattle.kin_pairs.specs.PairKeys.{pair_names, pairs_askable, distance_total, distance_transitive};

    type Item = Pair;

    type Brief = DistanceBrief;

    ghost names = { pair_names };

    ghost key = { λ k. distance_key };

    ghost fact_of = { near_fact };

    ghost askable = { λ k. pairs_askable };

    ghost total = { λ k. distance_total };

    ghost transitive = { λ k. distance_transitive };

    fn form(&self, left: &Pair, right: &Pair) -> Form {
        left.form_with(right)
    }

    fn left_wins(&self, sign: Sign, left: &Pair, right: &Pair) -> bool {
        match sign {
            Sign::Plus => true,
            Sign::Zero => left.is_less(right),
            Sign::Minus => false,
        }
    }

    fn no_fact() -> DistanceBrief {
        DistanceBrief::none()
    }

    #[inline(always)]
    fn brief(&self, sign: Sign, left: &Pair, right: &Pair) -> DistanceBrief {
        left.against(right, sign)
    }

    #[inline(always)]
    fn fact(brief: &DistanceBrief) -> Option<Fact> {
        brief.fact()
    }

    #[inline(always)]
    fn is_same(one: &DistanceBrief, other: &DistanceBrief) -> bool {
        one.is_same(other)
    }
}
