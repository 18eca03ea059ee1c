//! Laws of octants and exchanges. Each function's contract is one law; none of them does anything.

ghost use Rattle.kin_wedge.specs.Laws.{ExchangesTell, MembersComeAfter};

/// In a real scene, a member of an octant other than the apex comes after the apex in the octant's third
/// order. So a look-up of a candidate may begin after the apex.
pub fn members_come_after()
    ensures { MembersComeAfter }
{}

/// After some exchanges of neighbours two numbers are in the order that they had before, or they were
/// exchanged with each other. So where no number enters or leaves, only slots that an exchange names can
/// have another candidate.
pub fn exchanges_tell()
    ensures { ExchangesTell }
{}
