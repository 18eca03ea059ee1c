//! What holds of the farthest pair and of the cells of a sweep. Each function's contract is one law; none of them does
//! anything.

ghost use Rattle.kin_far.specs.Diameters.{DiameterIsDetermined, DiameterIsSettled, SweepIsDetermined};
ghost use Rattle.kin_far.specs.FarCells.{BestCellIsFarthest, FarthestIsCell};

/// In a real scene, the farthest pair is the pair of a cell of the sweep of the upper and the lower chain of all live
/// numbers.
pub fn farthest_is_cell()
    ensures { FarthestIsCell }
{}

/// In a real scene whose live numbers have slots, the best of the pairs of all cells is the farthest pair, ties
/// included. Where it is a number with itself, or where there is none, no two live points are at different places.
pub fn best_cell_is_farthest()
    ensures { BestCellIsFarthest }
{}

/// In a real scene whose live numbers have slots, where the tournament of the cells of the sweep is settled, its
/// winner is the farthest pair, or there is none; and the facts of the farthest pair are the slopes along the sweep
/// and those of the tournament, one part further on.
pub fn diameter_is_settled()
    ensures { DiameterIsSettled }
{}

/// Where both chains are those of another real scene too, and the slopes along their sweep have their signs there,
/// it is their sweep there. So the facts of a farthest pair determine it, and themselves, where the chains are the
/// same: where the same numbers are live in two real scenes, all with slots, and all facts of the farthest pair in
/// one hold in the other, it is the farthest pair there, and they are its facts there.
pub fn diameter_is_determined()
    ensures sweep { SweepIsDetermined }
    ensures pair { DiameterIsDetermined }
{}
