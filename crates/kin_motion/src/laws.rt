//! What holds of the definitions. Each function's contract is one law; none of them does anything.

ghost use Rattle.kin_motion.specs.Agreements.{CandidateAgrees, ChainAgrees, ClosestAgrees, ClosestFactsAgree, CycleAgrees, DiameterFactsAgree, ExtremeAgrees, ExtremeFactsAgree, FailuresAgree, FarthestAgrees, HullFactsAgree, LiveFactsAgree, MergeFormsAgree, NearestAgrees, OrderAgrees, OrderFactsAgree};
ghost use Rattle.kin_motion.specs.BoxTheorems.{BoxesAreDetermined, BoxFactsAgree, OneListOfOverlaps, OverlapsAgree, OverlapsAreDetermined};
ghost use Rattle.kin_motion.specs.Claims.{ChainHasLeast, ChainIsStrict, HullHasLeast, HullIsStrict, SettledStatesExist, WrongRectIsEmpty};
ghost use Rattle.kin_motion.specs.FactCounts.{FewDiameterFacts, FewFacts, FewLiveFacts};
ghost use Rattle.kin_motion.specs.Parts.{MovedFactsChange, MovedFactsFail, MovedOrderFacts};
ghost use Rattle.kin_motion.specs.RankTheorems.{OneRankedOrder, OrderIsThatOfEnds, OrderIsThatOfPoints, RankedFactsAgree, RankedOrderAgrees, RankedOrderIsDetermined};
ghost use Rattle.kin_motion.specs.RecordFacts.{FactsAreRecorded, FewFactsAreReported, FewFactsChange};
ghost use Rattle.kin_motion.specs.ReflectedFacts.{ReflectedFactsHold, ReflectedTwiceIsSame};
ghost use Rattle.kin_motion.specs.Turning.{OneTurn, SceneIsByPlaces, TurnKeepsScene};
ghost use Rattle.kin_motion.specs.Theorems.{ExtremeIsDetermined, LiveFactsAreAskable, OctantsAreOpposite, OneCandidate, OneClosest, OneExtreme, OneFarthest, OneFirstFailure, OneHullCycle, OneJournal, OneNearest, OneNextBlock, OneOctant, OneOrder, OneSweep, OneUpperChain, OrderIsDetermined, PolynomialsAreSmall, RealScenesHaveLaws, ReflectedIsMirrored, ReflectedIsReal, SlotsDiffer};

/// Where motions are slow, the polynomial of each form that may be asked for is within the bounds.
pub fn polynomials_are_small()
    ensures { PolynomialsAreSmall }
{}

/// Every live fact may be asked for, where the kept directions are small.
pub fn live_facts_are_askable()
    ensures { LiveFactsAreAskable }
{}

/// In the scene of any motions at any canonical moment, signs of lines, turns, squared distances and
/// slopes add up and change sides as those of numbers do.
pub fn real_scenes_have_laws()
    ensures { RealScenesHaveLaws }
{}

/// The reflected scene has the signs of the motions with every y and v negated, and it is real where
/// the scene is. In a real scene, a fact whose lines go along x or along y and have no offset, as
/// those of a hull do, holds exactly where its reflected fact holds in the reflected scene. Reflected
/// twice it is the same.
pub fn reflected_is_mirrored()
    ensures signs { ReflectedIsMirrored }
    ensures real { ReflectedIsReal }
    ensures facts { ReflectedFactsHold }
    ensures twice { ReflectedTwiceIsSame }
{}

/// Where facts are moved to other parts, what changed of them and which of them fail is moved with
/// them. The facts of an order in part 0, moved, are those of the order in the new part.
pub fn moved_facts_agree()
    ensures change { MovedFactsChange }
    ensures fail { MovedFactsFail }
    ensures order { MovedOrderFacts }
{}

/// The scene at a canonical instant depends only on which numbers are live and where each point is. So
/// a turn to another velocity changes neither the scene at its instant nor any fact or answer that
/// depends on this scene alone; the answer for a rectangle doesn't. There is at most one motion to turn
/// to.
pub fn turns_keep_the_scene()
    ensures places { SceneIsByPlaces }
    ensures turn { TurnKeepsScene }
    ensures one { OneTurn }
{}

/// A real scene has at most one order along a direction.
pub fn one_order()
    ensures { OneOrder }
{}

/// A real scene has at most one extreme point along a direction.
pub fn one_extreme()
    ensures { OneExtreme }
{}

/// In a real scene, a set of points has at most one upper chain.
pub fn one_upper_chain()
    ensures { OneUpperChain }
{}

/// A real scene has at most one hull cycle.
pub fn one_hull_cycle()
    ensures { OneHullCycle }
{}

/// A real scene has at most one closest pair.
pub fn one_closest()
    ensures { OneClosest }
{}

/// In a real scene, the upper and the lower chain of all live numbers have a sweep, and only one. No two of
/// its cells have one slot.
pub fn one_sweep()
    ensures one { OneSweep }
    ensures slots { SlotsDiffer }
{}

/// In a real scene, a point has at most one nearest other point.
pub fn one_nearest()
    ensures { OneNearest }
{}

/// A real scene has at most one farthest pair.
pub fn one_farthest()
    ensures { OneFarthest }
{}

/// In a real scene, an apex has at most one candidate in an octant.
pub fn one_candidate()
    ensures { OneCandidate }
{}

/// In a real scene, each point other than the apex is in exactly one octant of it, also one at the
/// apex's place.
pub fn one_octant()
    ensures { OneOctant }
{}

/// One point is in an octant of another exactly where that one is in the opposite octant of the first.
pub fn octants_are_opposite()
    ensures { OctantsAreOpposite }
{}

/// The facts of an order determine it, and themselves: where the same numbers are live in a real scene
/// and all these facts hold there, it is the order there, and they are its facts.
pub fn order_is_determined()
    ensures { OrderIsDetermined }
{}

/// The facts of boxes determine the orders of their ends, themselves and the overlaps: where the same numbers are live in
/// two real scenes, and all facts of boxes in one hold in the other, these are the same in both. A scene has one list of
/// the overlaps.
pub fn overlaps_are_determined()
    ensures orders { BoxesAreDetermined }
    ensures overlaps { OverlapsAreDetermined }
    ensures one { OneListOfOverlaps }
{}

/// Ranked items that name live numbers of a real scene have at most one order. The order by computation is the order,
/// and its facts by computation are its facts. Where the same numbers are live, the facts of an order alone determine it
/// and its facts. Along a direction the order and its facts are those of points, and those of the ends of boxes.
pub fn ranked_items_have_one_order()
    ensures one { OneRankedOrder }
    ensures order { RankedOrderAgrees }
    ensures facts { RankedFactsAgree }
    ensures determined { RankedOrderIsDetermined }
    ensures points { OrderIsThatOfPoints }
    ensures ends { OrderIsThatOfEnds }
{}

/// The facts of an extreme point determine it, and themselves: where the same numbers are live in two
/// real scenes, all with slots, and all facts of the extreme point in one hold in the other, it is the
/// extreme point there, and they are its facts.
pub fn extreme_is_determined()
    ensures { ExtremeIsDetermined }
{}

/// From a canonical moment on, a fact has at most one first failure, and there is at most one next
/// block, and at most one journal up to another canonical moment.
pub fn one_journal()
    ensures failure { OneFirstFailure }
    ensures block { OneNextBlock }
    ensures journal { OneJournal }
{}

/// In a real scene, the functions that compute the answers give what the definitions ask for; an upper
/// chain is that of a set listed without repetition. So each answer exists, and an example may be
/// computed.
pub fn computed_answers_agree()
    ensures order { OrderAgrees }
    ensures extreme { ExtremeAgrees }
    ensures chain { ChainAgrees }
    ensures cycle { CycleAgrees }
    ensures closest { ClosestAgrees }
    ensures candidate { CandidateAgrees }
    ensures nearest { NearestAgrees }
    ensures farthest { FarthestAgrees }
    ensures overlaps { OverlapsAgree }
{}

/// In a real scene, the functions that compute facts and failures list exactly those of the
/// definitions. For a hull, for all live facts and for failures, the live numbers have slots. The
/// forms of a merge are those of the definition in any scene.
pub fn computed_facts_agree()
    ensures order { OrderFactsAgree }
    ensures extreme { ExtremeFactsAgree }
    ensures closest { ClosestFactsAgree }
    ensures diameter { DiameterFactsAgree }
    ensures boxes { BoxFactsAgree }
    ensures merge { MergeFormsAgree }
    ensures hull { HullFactsAgree }
    ensures live { LiveFactsAgree }
    ensures failures { FailuresAgree }
{}

/// In a real scene with n live numbers, all with slots, an order or an extreme point has at most n - 1
/// facts, a range twice, a farthest pair four and nearest neighbours eight times as many, boxes 4n - 2, a
/// closest pair 16n, and a hull 4n times the size; without live numbers there are none. So all kept
/// structures together have at most the sum. The facts of a farthest pair are as few without slots.
pub fn few_facts_are_live()
    ensures structure { FewFacts }
    ensures diameter { FewDiameterFacts }
    ensures all { FewLiveFacts }
{}

/// At a canonical moment, a rectangle whose sides are the wrong way round, so that `x2 < x1` or
/// `y2 < y1`, has no point.
pub fn wrong_rect_is_empty()
    ensures { WrongRectIsEmpty }
{}

/// In a real scene, a point of the hull is the least live number at its place, and it is collinear with
/// no two live points of which one is to its left and one to its right. In any scene, a point of an
/// upper chain is the least number of the set at its place, and it is above the segment of any two
/// points of the set of which one is to its left and one to its right.
pub fn hulls_are_strict()
    ensures strict { HullIsStrict }
    ensures least { HullHasLeast }
    ensures strict_chain { ChainIsStrict }
    ensures least_chain { ChainHasLeast }
{}

/// The facts of a merge are those of its records, of which each has three at most: a turn and two
/// slopes, or the lines of an outer end. A fact that only one of two states has is in a record that
/// only this state has. So between two states of a merge at most three facts change for each touched
/// record, whatever the scenes, the chains and the lists of breakpoints are, and no more are reported.
pub fn few_facts_change()
    ensures recorded { FactsAreRecorded }
    ensures changed { FewFactsChange }
    ensures reported { FewFactsAreReported }
{}

/// In each real scene whose live numbers have slots, each kind of structure, the tree of upper chains
/// and the octants included, has a settled state: what `Contents` asks for exists.
pub fn settled_states_exist()
    ensures { SettledStatesExist }
{}
