//! What holds of the corners of a hull, and of its facts. Each function's contract has its laws; none of them does anything.

ghost use Rattle.kin_hull.specs.Corners.{CornersEndVerticals, CornersTurnLeft, CyclesBeginLeftmost, CyclesHaveCorners, CyclesListOnce, EdgesHaveAllLeft, NeighboursTurnLeft, TwoHaveOneX};
ghost use Rattle.kin_hull.specs.RecordSums.{FewHullFactsAreReported, FewHullSigns, FewMergeSigns, FewTreeFactsAreReported, FewTreeSigns};

/// Where a point is live, the cycle has a corner. It begins at the lowest of the leftmost points, and
/// lists no number twice.
pub fn cycles_begin_leftmost()
    ensures some { CyclesHaveCorners }
    ensures first { CyclesBeginLeftmost }
    ensures once { CyclesListOnce }
{}

/// Of the live points on one vertical line only the highest and the lowest can be corners. So at most two
/// corners have one x.
pub fn corners_end_verticals()
    ensures ends { CornersEndVerticals }
    ensures two { TwoHaveOneX }
{}

/// The cycle is counterclockwise and convex: any three corners turn left, in its order, and so do any three
/// that follow each other around.
pub fn corners_turn_left()
    ensures order { CornersTurnLeft }
    ensures around { NeighboursTurnLeft }
{}

/// An edge goes from a corner to the next one around. No live point is to the right of one.
pub fn edges_have_all_left()
    ensures { EdgesHaveAllLeft }
{}

/// Between two real scenes whose live numbers have slots at most three facts of a tree of upper chains are
/// reported, as dropped and as born together, for each record that a node has in one of them alone; and so
/// it is of a hull, with the records of both trees.
pub fn few_tree_facts_change()
    ensures tree { FewTreeFactsAreReported }
    ensures hull { FewHullFactsAreReported }
{}

/// Where a repair asks at most five signs for each fact that is born and one for each that is dropped, as
/// the clauses `tests` of a merge, a tree of merges and a hull say, it asks at most fifteen for each record
/// that only one of the two states has.
pub fn few_signs_are_asked()
    ensures merge { FewMergeSigns }
    ensures tree { FewTreeSigns }
    ensures hull { FewHullSigns }
{}
