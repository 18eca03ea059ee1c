//! Scripts that ask for nearest points, and their texts and statuses.

use kin_run::Refusal;
use kin_run::status::Status;

/// The nearest points of a few.
pub const NEAREST: [(&str, &str, Status); 9] = [
    // Of the corners of a square the lesser of two equally near ones is answered.
    (
        "size 2\nkeep nearest\ninsert 0 0 0 0 0\ninsert 1 1 0 0 0\ninsert 2 1 1 0 0\ninsert 3 0 1 0 0\nnearest 0\nnearest 2\nnearest 3\nlive\n",
        "1\n1\n0\n24\n",
        Status::Done,
    ),
    // Another point is nearest, two coincide, and one isn't there.
    (
        "size 2\nkeep nearest\ninsert 0 0 0 0 0\ninsert 1 4 0 -2 0\ninsert 2 1 0 0 0\nnearest 0\nat 3/2\nnearest 0\nnearest 2\nat 2\nnearest 2\nnearest 3\n",
        "2\n1\n1\n0\nrefused 12 Absent\n",
        Status::Command(12, Refusal::Absent),
    ),
    // What isn't kept comes before what isn't there.
    (
        "size 1\nkeep closest\nnearest 0\n",
        "refused 3 NotKept\n",
        Status::Command(3, Refusal::NotKept),
    ),
    // Nothing, one point, and two at one place for ever.
    (
        "size 1\nkeep nearest\nlive\ninsert 1 3 -4 1 1\nnearest 1\nlive\ninsert 0 3 -4 1 1\nnearest 1\nnearest 0\nlive\nnext\nremove 1\nnearest 0\nnearest 1\n",
        "0\nnone\n0\n0\n1\n8\nnone\nnone\nrefused 14 Absent\n",
        Status::Command(14, Refusal::Absent),
    ),
    // The nearest point is another one from 2 on, and no fact fails before 5.
    (
        "size 2\nkeep nearest\njournal on\ninsert 0 0 0 0 0\ninsert 1 1 0 1 0\ninsert 2 6 0 0 0\nat 2\nnearest 1\nat 3\nnearest 1\nlive\n",
        "0\n2\n16\n",
        Status::Done,
    ),
    // A leg begins at 4, where 1 is as near to 0 as 2 is: at that instant it is the nearest, and neither before it
    // nor after it.
    (
        "size 2\nkeep nearest\ninsert 0 0 0 0 0\ninsert 1 8 0 -1 0\ninsert 2 0 4 0 0\nleg 1 4 1 0\nat 7/2\nnearest 0\nat 4\nnearest 0\nat 9/2\nnearest 0\n",
        "2\n1\n2\n",
        Status::Done,
    ),
    // The same, but 1 stays there: it is the nearest from that instant on.
    (
        "size 2\nkeep nearest\ninsert 0 0 0 0 0\ninsert 1 8 0 -1 0\ninsert 2 0 4 0 0\nleg 1 4 0 0\nat 7/2\nnearest 0\nat 4\nnearest 0\nat 9/2\nnearest 0\n",
        "2\n1\n1\n",
        Status::Done,
    ),
    // Two are equally near until the leg of one of them begins.
    (
        "size 2\nkeep nearest\ninsert 0 0 0 0 0\ninsert 1 4 0 0 0\ninsert 2 0 4 0 0\nleg 2 3 0 -1\nnearest 0\nat 3\nnearest 0\nat 7/2\nnearest 0\n",
        "1\n1\n2\n",
        Status::Done,
    ),
    // 0 and 1 are together at 1. Just after it they have parted, so that a third one at the place of 0 is nearer.
    (
        "size 2\nkeep nearest\ninsert 0 0 0 0 0\ninsert 1 1 0 -1 0\nnext\nnearest 0\nnext\nnearest 0\nnearest 1\ninsert 2 0 0 0 0\nnearest 0\nnearest 2\n",
        "now 1\n1\nnow 1+\n1\n0\n2\n0\n",
        Status::Done,
    ),
];

/// What follows 256 points that are together and go to the right: one that rests on their way, questions before they
/// meet, at that moment and after it, and once their least number has left.
pub const CROWD: &str =
    "insert 300 10 0 0 0\nnearest 0\nnearest 1\nnearest 128\nnearest 255\nnearest 300\nat 10\nnearest 0\nnearest 1\nnearest 128\nnearest 255\nnearest 300\nat 11\nnearest 0\nnearest 1\nnearest 128\nnearest 255\nnearest 300\nremove 0\nnearest 1\nnearest 128\nnearest 255\nnearest 300\nlive\n";

pub const CROWD_TEXT: &str = "1\n0\n0\n0\n0\n1\n0\n0\n0\n0\n1\n0\n0\n0\n0\n2\n1\n1\n1\n2040\n";
