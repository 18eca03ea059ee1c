//! What holds of upper chains and of their merge. Each function's contract is one law; none of them does anything.
//!
//! A merge is of the upper chains of two sets, the left one and the right one, where every number of the left set is
//! less than every number of the right one.

ghost use Rattle.kin_chain.specs.Covering.{ChainCovers};
ghost use Rattle.kin_chain.specs.Merging.{ChainOfChains, FactsOfChains, MergeGivesChain, MergeIsDetermined, MergeIsRight, MergeIsSettled, OneBreakpointList};
ghost use Rattle.kin_chain.specs.Supports.{Outermost, Support, TiesAgree};
ghost use Rattle.kin_chain.specs.Trees.{HullIsDetermined, TreeIsDetermined};
ghost use Rattle.kin_chain.specs.Upper.{BestPoint, DifferentX, EndPoints, SmallerSet, TurningRight};

/// In a real scene, two different points that stay in a set have different x, and three turn right from
/// left to right. In any scene, a point that stays in a set stays in each part of it that has the point.
pub fn points_that_stay()
    ensures different { DifferentX }
    ensures turning { TurningRight }
    ensures smaller { SmallerSet }
{}

/// In a real scene, along each step to the right no point of a set is higher than all points of its
/// upper chain. None lies to the left of the chain's first point or straight above it, and none to the
/// right of the last point or straight above it.
pub fn chain_is_highest()
    ensures best { BestPoint }
    ensures ends { EndPoints }
{}

/// In a real scene, the breakpoints of the two upper chains of a merge are in one order by slope: there
/// is a list of them, and only one.
pub fn one_breakpoint_list()
    ensures { OneBreakpointList }
{}

/// In a real scene, along each breakpoint of a merge of two chains with points no point of either set
/// is higher than the current point of its half; the points of the other chain are among them. At both
/// ends of a narrow cell the same half is above, or neither is.
pub fn cells_are_supported()
    ensures support { Support }
    ensures outermost { Outermost }
    ensures ties { TiesAgree }
{}

/// In a real scene, a point of a set that isn't in its upper chain lies at or straight below a point of
/// the chain, or on or below the segment of two neighbours.
pub fn chain_covers()
    ensures { ChainCovers }
{}

/// In a real scene, the chain that is read off the cells of a merge, which its list of breakpoints
/// gives, is the upper chain of both sets together.
pub fn merge_gives_chain()
    ensures { MergeGivesChain }
{}

/// Where both given chains are upper chains in a real scene and what is remembered of a merge holds there, its
/// list is the list of breakpoints, its facts are exactly those of the merge, and its chain is the upper chain of
/// both sets. The settling law of a merge is a use of it, and so is the determination law, for which both scenes
/// are real.
pub fn merge_is_right()
    ensures right { MergeIsRight }
    ensures settled { MergeIsSettled }
    ensures determined { MergeIsDetermined }
{}

/// In a real scene, the upper chain of the two sets of a merge together, and the facts of the merge, are
/// those of their two chains.
pub fn chains_stand_for_sets()
    ensures chain { ChainOfChains }
    ensures facts { FactsOfChains }
{}

/// The facts of a tree of upper chains determine the chain of each node, and themselves: where the same
/// numbers are live in two real scenes, all with slots, and all facts of the tree in one hold in the
/// other, each node has the same chain there, and they are the tree's facts there.
pub fn tree_is_determined()
    ensures { TreeIsDetermined }
{}

/// The facts of a hull determine its cycle, and themselves: where the same numbers are live in two real
/// scenes, all with slots, and all facts of the hull in one hold in the other, it has the same cycle
/// there, and they are its facts there.
pub fn hull_is_determined()
    ensures { HullIsDetermined }
{}
