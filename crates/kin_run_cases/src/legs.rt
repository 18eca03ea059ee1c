//! Scripts with legs, and their texts and statuses.

use kin_run::Refusal;
use kin_run::status::Status;

/// Points that take up other velocities at planned instants.
pub const LEGS: [(&str, &str, Status); 13] = [
    // A leg begins, and the point is faster from then on; no leg begins at an instant that is past.
    (
        "size 1\nkeep order 1 0\njournal on\ninsert 0 0 0 1 0\ninsert 1 10 0 0 0\nleg 0 4 3 0\nlive\nnext\nnext\norder 0\nleg 0 4 0 0\n",
        "1\nnow 4\n! 6 0/0 line(1,0) 0 1 + 0\nnow 6\n0 1\nrefused 11 Past\n",
        Status::Command(11, Refusal::Past),
    ),
    (
        "size 1\nkeep order 1 0\ninsert 0 0 0 1 0\ninsert 1 10 0 0 0\nleg 0 4 3 0\nlive\nnext\nnext\norder 0\nleg 0 4 0 0\n",
        "1\nnow 4\nnow 6\n0 1\nrefused 10 Past\n",
        Status::Command(10, Refusal::Past),
    ),
    // No leg for a point that has one from then on, for none, or to a place that is out of bounds.
    (
        "size 1\ninsert 0 0 0 1 0\nleg 0 4 -1 0\nleg 0 4 0 0\n",
        "refused 4 Planned\n",
        Status::Command(4, Refusal::Planned),
    ),
    (
        "size 1\nleg 0 4 1 0\n",
        "refused 2 Absent\n",
        Status::Command(2, Refusal::Absent),
    ),
    (
        "size 1\ninsert 0 0 0 1 0\nleg 0 8193 0 0\n",
        "refused 3 OutOfBounds\n",
        Status::Command(3, Refusal::OutOfBounds),
    ),
    (
        "size 1\ninsert 0 0 0 1 0\nleg 0 8192 0 0\n",
        "",
        Status::Done,
    ),
    // A turn drops the point's legs.
    (
        "size 1\nkeep order 1 0\ninsert 0 0 0 1 0\ninsert 1 10 0 0 0\nleg 0 4 3 0\nturn 0 2 0\nnext\norder 0\n",
        "now 5\n0 1\n",
        Status::Done,
    ),
    // A leg begins where two points meet: the one goes back, and doesn't pass the other.
    (
        "size 1\nkeep order 1 0\ninsert 0 0 0 1 0\ninsert 1 4 0 0 0\nleg 0 4 -1 0\nat 5\norder 0\n",
        "0 1\n",
        Status::Done,
    ),
    (
        "size 1\nkeep order 1 0\njournal on\ninsert 0 0 0 1 0\ninsert 1 4 0 0 0\nleg 0 4 -1 0\nat 5\norder 0\n",
        "! 4 0/0 line(1,0) 0 1 + 0\n! 4+ 0/0 line(1,0) 0 1 0 +\n0 1\n",
        Status::Done,
    ),
    // A leg of one of two points that are together leads them apart.
    (
        "size 1\nkeep order 1 0\ninsert 0 0 0 1 0\ninsert 1 0 0 1 0\nleg 1 3 -1 0\nat 5\norder 0\n",
        "1 0\n",
        Status::Done,
    ),
    (
        "size 1\nkeep order 1 0\njournal on\ninsert 0 0 0 1 0\ninsert 1 0 0 1 0\nleg 1 3 -1 0\nat 5\norder 0\n",
        "! 3+ 0/0 line(1,0) 0 1 0 -\n1 0\n",
        Status::Done,
    ),
    // Two legs at one instant, of which the line `now` tells once, with the block that comes there.
    (
        "size 2\nkeep order 1 0\njournal on\ninsert 0 0 0 1 0\ninsert 1 4 0 0 0\nleg 0 4 0 0\nleg 1 4 0 1\nnext\nnext\n",
        "! 4 0/0 line(1,0) 0 1 + 0\nnow 4\nnone\n",
        Status::Done,
    ),
    // A point leaves, or starts anew, and has no legs.
    (
        "size 1\ninsert 0 0 0 1 0\nleg 0 4 3 0\nremove 0\nnext\ninsert 0 0 0 1 0\nleg 0 4 3 0\nreplace 0 0 0 1 0\nnext\nleg 0 4 3 0\nnext\n",
        "none\nnone\nnow 4\n",
        Status::Done,
    ),
];
