//! The eight octants, by their orders.

ghost use Rattle.std.specs.Prelude.{◌≡◌, ◌+◌, ◌%◌, ◌<◌, Some, slice_get, true, false};
ghost use Rattle.kin_motion.specs.Octants.{Octant as Bounds, octants, direction_of};
ghost use Rattle.kin_wedge.specs.Seen.{octant_seen, reading_seen, IsOfEight};
ghost use Rattle.kin_wedge.specs.Sides.{bounded_first, bounded_second};

/// An order as it is read, forward or backward.
#[derive(Clone, Copy, Debug, PartialEq, Eq)]
pub struct Reading {
    /// Which of the eight orders.
    pub part: u32,
    pub from_end: bool,
}

/// The orders of an octant. The first two bound it, and its members are ranked by the third.
#[derive(Clone, Copy, Debug, PartialEq, Eq)]
pub struct Octant {
    pub first: Reading,
    pub second: Reading,
    pub third: Reading,
}

impl Octant {
    /// The octant with its members ranked forward or backward.
    #[inline(always)]
    pub fn ranked(self, from_end: bool) -> Octant
        ensures { result ≡ record self { third = record self.third { from_end = from_end } } }
    {
        Octant {
            third: Reading {
                part: self.third.part,
                from_end,
            },
            ..self
        }
    }
}

/// The order of a part, read forward.
pub fn forward(part: u32) -> Reading
    ensures { result ≡ record { part = part; from_end = false } }
{
    Reading {
        part,
        from_end: false,
    }
}

/// The order of a part, read backward.
pub fn back(part: u32) -> Reading
    ensures { result ≡ record { part = part; from_end = true } }
{
    Reading {
        part,
        from_end: true,
    }
}

fn octant_by(first: Reading, second: Reading, third: Reading) -> Octant
    ensures { result ≡ record { first = first; second = second; third = third } }
{
    Octant {
        first,
        second,
        third,
    }
}

/// The orders of one of the octants 0 to 7.
pub fn orders_of(w: u32) -> Octant
    requires { w < 8 }
    ensures octant { slice_get octants w ≡ Some (octant_seen result) }
    ensures parts { IsOfEight (octant_seen result) }
{
    match w {
        0 => octant_by(forward(0), forward(1), forward(4)),
        1 => octant_by(back(1), forward(2), forward(5)),
        2 => octant_by(back(2), forward(3), forward(6)),
        3 => octant_by(back(3), forward(0), forward(7)),
        4 => octant_by(back(0), back(1), back(4)),
        5 => octant_by(forward(1), back(2), back(5)),
        6 => octant_by(forward(2), back(3), back(6)),
        _ => octant_by(forward(3), back(0), back(7)),
    }
}

/// The order that ranks the members of one of the octants 0 to 7.
pub fn third_of(w: u32) -> Reading
    requires { w < 8 }
    ensures third { (o : Bounds) → slice_get octants w ≡ Some o → o.third ≡ reading_seen result }
    ensures part { result.part ≡ w % 4 + 4 }
    ensures small { result.part < 8 }
{
    Reading {
        part: w % 4 + 4,
        from_end: w >= 4,
    }
}

/// The two octants that one of the orders 0 to 3 bounds as it is read: the one of which it is the first bound, and the
/// one of which it is the second.
pub fn bounded_by(reading: Reading) -> (u32, u32)
    requires { reading.part < 4 }
    ensures first { result.0 ≡ bounded_first (reading_seen reading) }
    ensures second { result.1 ≡ bounded_second (reading_seen reading) }
    ensures first_small { result.0 < 8 }
    ensures second_small { result.1 < 8 }
{
    match (reading.from_end, reading.part) {
        (false, 0) => (0, 3),
        (false, 1) => (5, 0),
        (false, 2) => (6, 1),
        (false, _) => (7, 2),
        (true, 0) => (4, 7),
        (true, 1) => (1, 4),
        (true, 2) => (2, 5),
        (true, _) => (3, 6),
    }
}

/// The direction of the order of one of the parts 0 to 7.
pub fn direction(part: u32) -> (i32, i32)
    requires { part < 8 }
    ensures dx { result.0 ≡ (direction_of part).dx }
    ensures dy { result.1 ≡ (direction_of part).dy }
{
    match part {
        0 => (0, 1),
        1 => (1, -1),
        2 => (1, 0),
        3 => (1, 1),
        4 => (2, 1),
        5 => (1, 2),
        6 => (-1, 2),
        _ => (-2, 1),
    }
}
