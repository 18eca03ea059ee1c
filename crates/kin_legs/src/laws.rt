//! What holds of plans. Each function's contract is one law; none of them does anything.

ghost use Rattle.kin_legs.specs.Joined.{AddedLegsAreLast, BegunLegsAreMotions, DroppedLegsAreGone, LegsAheadAreLeft};
ghost use Rattle.kin_legs.specs.Nexts.{NextsExist, OneNext};
ghost use Rattle.kin_legs.specs.Paths.{LastingMotionsStay, LegsBeginInTime, LegsKeepScene, PastLegsDontMatter, PathsAreLeft};
ghost use Rattle.kin_legs.specs.Planned.{PlannedBlocksExist, PlannedFailuresExist, PlannedJournalsExist};
ghost use Rattle.kin_legs.specs.Scheduling.{OneContinues};
ghost use Rattle.kin_legs.specs.Shown.{AlikeBlocks, AlikeJournals, MotionsShowAlike, PastLegsShowNothing, QuietTimesAddNoBlock, QuietTimesAddNothing};

/// A leg is in force from its instant on. What is left of a path at a moment is a path, and what is left later of that
/// is what is left later of the whole. Motions without legs are in force at each moment.
pub fn paths_are_left()
    ensures begin { LegsBeginInTime }
    ensures path { PathsAreLeft }
    ensures past { PastLegsDontMatter }
    ensures lasting { LastingMotionsStay }
{}

/// As long as no leg has begun before a moment, what is seen there is what the motions of now show. So where legs begin,
/// no sign changes at that instant, whether one point has a leg there or several.
pub fn legs_keep_the_scene()
    ensures { LegsKeepScene }
{}

/// As points follow paths, a fact that may be asked for and holds at a canonical moment has a first failure after it, or
/// never fails. With a slot for each number and small kept directions, there is a next block after each canonical moment
/// unless nothing ever fails, and there is a journal from each canonical moment up to each that isn't earlier.
pub fn planned_journals_exist()
    ensures failure { PlannedFailuresExist }
    ensures block { PlannedBlocksExist }
    ensures journal { PlannedJournalsExist }
{}

/// Seen from a canonical moment, the next thing is a block before or at the beginning of a leg, or a leg that begins where
/// nothing fails, or nothing, ever. It is never two of them, and always one, with paths, a slot for each number and small
/// kept directions.
pub fn one_thing_comes_next()
    ensures one { OneNext }
    ensures some { NextsExist }
{}

/// Settings that keep the same and show the same from one moment to another have the same blocks and journals between them.
/// So plans without the legs that are over have those of the plans, and up to a moment before which no leg begins they are
/// those of the motions of now. Where nothing fails for a time and the same facts are live at its end, what follows is what
/// follows from its beginning on.
pub fn settings_show_alike()
    ensures blocks { AlikeBlocks }
    ensures journals { AlikeJournals }
    ensures past { PastLegsShowNothing }
    ensures motions { MotionsShowAlike }
    ensures quiet_block { QuietTimesAddNoBlock }
    ensures quiet_journal { QuietTimesAddNothing }
{}

/// The plans of all numbers, from the motions of now and the list of legs: without its legs a number has its motion alone; a
/// leg that is put in after all others of its number is at the end of its plan; where the first leg has begun, its motion may
/// be put in for the one before; and where no leg has begun, all is left.
pub fn legs_join_motions()
    ensures dropped { DroppedLegsAreGone }
    ensures added { AddedLegsAreLast }
    ensures begun { BegunLegsAreMotions }
    ensures ahead { LegsAheadAreLeft }
{}

/// From a whole instant below 2^31 on, a plan goes on with each whole velocity, its path being unbroken, and there is one
/// motion with which it does.
pub fn legs_can_be_planned()
    ensures { OneContinues }
{}
