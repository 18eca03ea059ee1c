//! Worked rows. Each function's contract is one example; none of them does anything.

ghost use Rattle.kin_rows.specs.Asking.{AskingRows};
ghost use Rattle.kin_rows.specs.BoxRows.{BoxRows};
ghost use Rattle.kin_rows.specs.Boxes.{SlidingRow};
ghost use Rattle.kin_rows.specs.Carriageways.{CarriagewaysRow};
ghost use Rattle.kin_rows.specs.Changes.{ChangeRows};
ghost use Rattle.kin_rows.specs.ClosestFactRows.{ClosestFactRows};
ghost use Rattle.kin_rows.specs.Extremes.{ExtremeRow};
ghost use Rattle.kin_rows.specs.FarthestRows.{FarthestRows};
ghost use Rattle.kin_rows.specs.Generated.{GeneratedRows};
ghost use Rattle.kin_rows.specs.HullFactRows.{HullFactRows};
ghost use Rattle.kin_rows.specs.NearestRows.{NearestRows};
ghost use Rattle.kin_rows.specs.Orders.{OrderRows};
ghost use Rattle.kin_rows.specs.Passing.{PassingRow};
ghost use Rattle.kin_rows.specs.Square.{SquareRow};
ghost use Rattle.kin_rows.specs.Touching.{TouchingRows};
ghost use Rattle.kin_rows.specs.Triangle.{TriangleRow};
ghost use Rattle.kin_rows.specs.Twins.{TwinsRow};

/// Two points that meet, and three that meet at once: at the moment itself the lesser number is
/// first, just after it the order is the other way round.
pub fn order_rows()
    ensures { OrderRows }
{}

/// Three points of which the turn is `t^2 - 2`: the hull loses a point at its root, and each
/// failure before is listed in its block.
pub fn triangle_row()
    ensures { TriangleRow }
{}

/// A turn that touches 0 without a change of sides, and collinear points.
pub fn touching_rows()
    ensures { TouchingRows }
{}

/// One motion twice: the hull has the lesser number, and the pair is the closest one.
pub fn twins_row()
    ensures { TwinsRow }
{}

/// A unit square, in which four pairs are tied, and its candidates.
pub fn square_row()
    ensures { SquareRow }
{}

/// A rectangle has its border.
pub fn sliding_row()
    ensures { SlidingRow }
{}

/// Points that pass each other: coincident ones are the closest pair.
pub fn passing_row()
    ensures { PassingRow }
{}

/// The nearest other points of a unit square, of points of which one passes the others, and of points at one place.
pub fn nearest_rows()
    ensures { NearestRows }
{}

/// The farthest pairs of a unit square, of points that come together and part again, and of ties.
pub fn farthest_rows()
    ensures { FarthestRows }
{}

/// Boxes that meet and part, boxes of no width and no height, and corners that touch: the pairs that overlap, and the
/// facts of both axes.
pub fn box_rows()
    ensures { BoxRows }
{}

/// Of two points that meet the lesser number is the extreme one.
pub fn extreme_row()
    ensures { ExtremeRow }
{}

/// Forty points on two carriageways.
pub fn carriageways_row()
    ensures { CarriagewaysRow }
{}

/// Moved pairs, the records of a merge, and a point that turns back.
pub fn change_rows()
    ensures { ChangeRows }
{}

/// The facts of a hull and of a range, each with its part and sign: slopes of both halves that are
/// equal, and an upper and a lower chain that differ.
pub fn hull_fact_rows()
    ensures { HullFactRows }
{}

/// The facts of the closest pair in a unit square, each with its part and sign, and the candidates
/// of a point that has two points in each octant.
pub fn closest_fact_rows()
    ensures { ClosestFactRows }
{}

/// The failures of two generated points, with every kind of structure kept.
pub fn generated_rows()
    ensures { GeneratedRows }
{}

/// What an order and an extreme point may ask: where points pass each other, where one enters, and
/// where nothing changes. No greater number meets the bound.
pub fn asking_rows()
    ensures { AskingRows }
{}
