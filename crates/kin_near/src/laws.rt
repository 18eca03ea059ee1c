//! What holds of candidates in octants and of the closest pair. Each function's contract is one law; none of them does
//! anything.

ghost use Rattle.kin_near.specs.BestPairs.{BestPairIsClosest, ClosestIsDetermined, ClosestIsSettled};
ghost use Rattle.kin_near.specs.Candidates.{ClosestIsCandidate, FirstIsNearer};
ghost use Rattle.kin_near.specs.Hits.{CandidateIsNextBelow, HitsSuffice};

/// In a real scene, of two members of one octant the one that comes first in the third order is nearer to the
/// other than the apex is, or it is at the apex's place.
pub fn first_is_nearer()
    ensures { FirstIsNearer }
{}

/// In a real scene, one point of the closest pair is the candidate of the other, in one of the octants 0 to 3.
pub fn closest_is_candidate()
    ensures { ClosestIsCandidate }
{}

/// In a real scene whose live numbers have slots, the best of all pairs of a point and its candidate is the closest
/// pair, ties included. Where there is no such pair, fewer than two points are live.
pub fn best_pair_is_closest()
    ensures { BestPairIsClosest }
{}

/// In a real scene whose live numbers have slots: where the octants are settled, and so is the tournament of the
/// pairs of all points and their candidates, its winner is the closest pair, and the facts of both are those of the
/// closest pair.
pub fn closest_is_settled()
    ensures { ClosestIsSettled }
{}

/// The facts of a closest pair determine it, and themselves: where the same numbers are live in two real scenes, all
/// with slots, and all facts of the closest pair in one hold in the other, it is the closest pair there, and they are
/// its facts there.
pub fn closest_is_determined()
    ensures { ClosestIsDetermined }
{}

/// In a real scene, the candidate in octant 4 is the next lesser number at the apex's place. If it is elsewhere, or there
/// is none, the apex has the least number at its place.
pub fn candidate_is_next_below()
    ensures { CandidateIsNextBelow }
{}

/// In a real scene, the nearest other point of a live point is found from the apexes whose candidate it is: from one of
/// them the way down at its place, from each number to the next lesser one, ends there.
pub fn hits_suffice()
    ensures { HitsSuffice }
{}
