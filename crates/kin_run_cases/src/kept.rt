//! Scripts with structures that are kept once, and their texts and statuses.

use kin_run::Refusal;
use kin_run::status::Status;

/// Closest pairs, and points in rectangles.
pub const CLOSE: [(&str, &str, Status); 7] = [
    // Of three points another pair is closest, and at 2 two coincide.
    (
        "size 2\nkeep closest\ninsert 0 0 0 0 0\ninsert 1 4 0 -2 0\ninsert 2 1 0 0 0\nclosest\nat 3/2\nclosest\nat 2\nclosest\n",
        "0 2\n1 2\n0 1\n",
        Status::Done,
    ),
    // A rectangle includes its border; one whose sides are the wrong way round has no point.
    (
        "size 2\nkeep range\ninsert 0 0 0 2 0\ninsert 1 0 0 4 4\ninsert 2 5 1 -2 0\ninsert 3 0 1 1 0\nat 1/2\nbox 1 4 0 2\nat 1\nbox 1 4 0 2\nbox 4 1 0 2\n",
        "0 1 2\n0 2 3\nnone\n",
        Status::Done,
    ),
    // Both points are on the border at 1; just after it one of them is out.
    (
        "size 1\nkeep range\ninsert 0 0 0 1 0\ninsert 1 2 0 -1 0\nnext\nbox 0 1 0 0\nnext\nbox 0 1 0 0\nnext\n",
        "now 1\n0 1\nnow 1+\n1\nnone\n",
        Status::Done,
    ),
    // Two pairs are equally close at an irrational instant, and just after it the other one is
    // closer.
    (
        "size 2\nkeep closest\nkeep range\ninsert 0 0 0 0 0\ninsert 1 5 0 0 0\ninsert 2 2 10 0 -1\nclosest\nat 5\nclosest\nnext\nclosest\nbox 0 2 0 4\nbox 0 2 0 5\nnext\nclosest\nbox 0 2 0 5\n",
        "0 1\n0 1\nnow r(1,-20,79,lo)\n0 1\n0\n0 2\nnow r(1,-20,79,lo)+\n0 2\n0 2\n",
        Status::Done,
    ),
    // No points, one, and two at one place for ever.
    (
        "size 1\nkeep closest\nkeep range\nclosest\nbox 0 0 0 0\nlive\ninsert 1 3 -4 1 1\nclosest\nbox 3 3 -4 -4\nlive\ninsert 0 3 -4 1 1\nclosest\nbox 3 3 -4 -4\nlive\nnext\n",
        "none\nnone\n0\nnone\n1\n0\n0 1\n0 1\n11\nnone\n",
        Status::Done,
    ),
    // No closest pair is kept.
    (
        "size 1\nkeep order 1 0\nclosest\n",
        "refused 3 NotKept\n",
        Status::Command(3, Refusal::NotKept),
    ),
    // No range is kept.
    (
        "size 1\nkeep closest\nbox 0 1 0 1\n",
        "refused 3 NotKept\n",
        Status::Command(3, Refusal::NotKept),
    ),
];

/// Hulls, alone and with others.
pub const HULLS: [(&str, &str, Status); 11] = [
    // A turn is 0 at an irrational instant.
    (
        "size 2\nkeep hull\njournal on\ninsert 0 0 0 0 0\ninsert 1 0 2 1 0\ninsert 2 1 0 0 1\nlive\nat root 1 0 -2 hi\nhull\n",
        "6\n! 0+ 0/4 line(1,0) 0 1 0 +\n! 0+ 0/5 line(1,0) 0 1 0 +\n! 1 0/2 line(1,0) 1 2 + 0\n! 1 0/3 line(1,0) 1 2 + 0\n! 1+ 0/2 line(1,0) 1 2 0 -\n! 1+ 0/3 line(1,0) 1 2 0 -\n! r(1,0,-2,hi) 0/2 turn 0 1 2 - 0\n! r(1,0,-2,hi) 0/3 turn 0 1 2 - 0\n0 1\n",
        Status::Done,
    ),
    // The same instant, written in another way.
    (
        "size 2\nkeep hull\njournal on\ninsert 0 0 0 0 0\ninsert 1 0 2 1 0\ninsert 2 1 0 0 1\nlive\nat root 2 0 -4 hi\nhull\n",
        "6\n! 0+ 0/4 line(1,0) 0 1 0 +\n! 0+ 0/5 line(1,0) 0 1 0 +\n! 1 0/2 line(1,0) 1 2 + 0\n! 1 0/3 line(1,0) 1 2 + 0\n! 1+ 0/2 line(1,0) 1 2 0 -\n! 1+ 0/3 line(1,0) 1 2 0 -\n! r(1,0,-2,hi) 0/2 turn 0 1 2 - 0\n! r(1,0,-2,hi) 0/3 turn 0 1 2 - 0\n0 1\n",
        Status::Done,
    ),
    // And as a root of the opposite polynomial.
    (
        "size 2\nkeep hull\njournal on\ninsert 0 0 0 0 0\ninsert 1 0 2 1 0\ninsert 2 1 0 0 1\nlive\nat root -1 0 2 hi\nhull\n",
        "6\n! 0+ 0/4 line(1,0) 0 1 0 +\n! 0+ 0/5 line(1,0) 0 1 0 +\n! 1 0/2 line(1,0) 1 2 + 0\n! 1 0/3 line(1,0) 1 2 + 0\n! 1+ 0/2 line(1,0) 1 2 0 -\n! 1+ 0/3 line(1,0) 1 2 0 -\n! r(1,0,-2,hi) 0/2 turn 0 1 2 - 0\n! r(1,0,-2,hi) 0/3 turn 0 1 2 - 0\n0 1\n",
        Status::Done,
    ),
    // Just before the instant, and just after it.
    (
        "size 2\nkeep hull\ninsert 0 0 0 0 0\ninsert 1 0 2 1 0\ninsert 2 1 0 0 1\nat 1414213562/1000000000\nhull\nat 1414213563/1000000000\nhull\n",
        "0 2 1\n0 1 2\n",
        Status::Done,
    ),
    // A turn is 0 at 1, where all three points coincide, and above 0 before and after.
    (
        "size 2\nkeep hull\ninsert 0 0 0 0 0\ninsert 1 -1 0 1 0\ninsert 2 0 -1 0 1\nhull\nat 1\nhull\nat 2\nhull\n",
        "1 2 0\n0\n0 1 2\n",
        Status::Done,
    ),
    // All points are collinear for ever.
    (
        "size 2\nkeep hull\ninsert 0 0 0 0 0\ninsert 1 5 0 0 0\ninsert 2 10 0 0 0\nhull\nlive\nnext\n",
        "0 2\n8\nnone\n",
        Status::Done,
    ),
    // One motion twice.
    (
        "size 1\nkeep hull\nkeep closest\ninsert 0 3 4 1 1\ninsert 1 3 4 1 1\nhull\nclosest\nlive\nnext\n",
        "0\n0 1\n13\nnone\n",
        Status::Done,
    ),
    // A square, whose four sides are equally long.
    (
        "size 2\nkeep hull\nkeep closest\ninsert 0 0 0 0 0\ninsert 1 1 0 0 0\ninsert 2 1 1 0 0\ninsert 3 0 1 0 0\nhull\nclosest\n",
        "0 1 2 3\n0 1\n",
        Status::Done,
    ),
    // One structure of each kind: nothing, one point, and nothing again.
    (
        "size 3\nkeep order 1 0\nkeep extreme 0 1\nkeep hull\nkeep closest\nkeep range\nkeep nearest\nkeep diameter\nkeep boxes 1 0\norder 0\nextreme 1\nhull\nclosest\nbox -9 9 -9 9\nfarthest\noverlaps\nlive\nnext\ninsert 5 1 2 0 0\norder 0\nextreme 1\nhull\nclosest\nbox -9 9 -9 9\nnearest 5\nfarthest\noverlaps\nlive\nremove 5\nhull\nfarthest\noverlaps\n",
        "none\nnone\nnone\nnone\nnone\nnone\nnone\n0\nnone\n5\n5\n5\nnone\n5\nnone\nnone\nnone\n2\nnone\nnone\nnone\n",
        Status::Done,
    ),
    // A point comes out of the hull.
    (
        "size 3\nkeep hull\njournal on\ninsert 0 0 0 0 0\ninsert 1 8 0 0 0\ninsert 2 8 8 0 0\ninsert 3 0 8 0 0\ninsert 4 4 4 -1 0\nhull\nnext\nhull\nnext\nhull\nat 20\nhull\nlive\n",
        "0 1 2 3\n! 4 0/2 line(1,0) 3 4 + 0\n! 4 0/3 line(1,0) 0 4 + 0\nnow 4\n0 1 2 3\n! 4+ 0/2 line(1,0) 3 4 0 -\n! 4+ 0/3 line(1,0) 0 4 0 -\nnow 4+\n4 0 1 2 3\n4 0 1 2 3\n24\n",
        Status::Done,
    ),
    // No hull is kept.
    (
        "size 1\nkeep range\nhull\n",
        "refused 3 NotKept\n",
        Status::Command(3, Refusal::NotKept),
    ),
];

/// Points that turn, and numbers that aren't there.
pub const CHANGES: [(&str, &str, Status); 6] = [
    // A point turns where it is; at 11/4 its place at time 0 would not be whole.
    (
        "size 1\nkeep order 1 0\ninsert 0 0 0 2 0\ninsert 1 10 0 0 0\nat 1/2\nlive\nturn 0 4 0\nlive\norder 0\nnext\nturn 0 5 0\n",
        "1\n1\n0 1\nnow 11/4\nrefused 11 NotWhole\n",
        Status::Command(11, Refusal::NotWhole),
    ),
    // Its place at time 0 would be too far out.
    (
        "size 1\ninsert 0 8192 0 1 0\nat 1\nturn 0 0 0\n",
        "refused 4 OutOfBounds\n",
        Status::Command(4, Refusal::OutOfBounds),
    ),
    // Just after an instant no point turns, not even to the velocity that it has.
    (
        "size 1\nkeep order 1 0\ninsert 0 0 0 1 0\ninsert 1 10 0 -1 0\nnext\norder 0\nnext\norder 0\nturn 0 1 0\n",
        "now 5\n0 1\nnow 5+\n1 0\nrefused 9 NotWhole\n",
        Status::Command(9, Refusal::NotWhole),
    ),
    // No point is there to leave, to start anew or to turn.
    (
        "size 1\nremove 1\n",
        "refused 2 Absent\n",
        Status::Command(2, Refusal::Absent),
    ),
    (
        "size 1\ninsert 1 0 0 0 0\nreplace 0 1 2 3 4\n",
        "refused 3 Absent\n",
        Status::Command(3, Refusal::Absent),
    ),
    (
        "size 1\ninsert 1 0 0 0 0\nremove 1\nturn 1 0 0\n",
        "refused 4 Absent\n",
        Status::Command(4, Refusal::Absent),
    ),
];

/// Forty points on two carriageways: the even ones go to the right, the odd ones come towards them.
pub const CARRIAGEWAYS: &str =
    "size 6\nkeep order 1 0\nkeep extreme 0 1\nkeep hull\nkeep closest\nkeep range\njournal off\ninsert 0 0 0 2 0\ninsert 1 20 10 -1 0\ninsert 2 40 0 2 0\ninsert 3 60 10 -1 0\ninsert 4 80 0 2 0\ninsert 5 100 10 -1 0\ninsert 6 120 0 2 0\ninsert 7 140 10 -1 0\ninsert 8 160 0 2 0\ninsert 9 180 10 -1 0\ninsert 10 200 0 2 0\ninsert 11 220 10 -1 0\ninsert 12 240 0 2 0\ninsert 13 260 10 -1 0\ninsert 14 280 0 2 0\ninsert 15 300 10 -1 0\ninsert 16 320 0 2 0\ninsert 17 340 10 -1 0\ninsert 18 360 0 2 0\ninsert 19 380 10 -1 0\ninsert 20 400 0 2 0\ninsert 21 420 10 -1 0\ninsert 22 440 0 2 0\ninsert 23 460 10 -1 0\ninsert 24 480 0 2 0\ninsert 25 500 10 -1 0\ninsert 26 520 0 2 0\ninsert 27 540 10 -1 0\ninsert 28 560 0 2 0\ninsert 29 580 10 -1 0\ninsert 30 600 0 2 0\ninsert 31 620 10 -1 0\ninsert 32 640 0 2 0\ninsert 33 660 10 -1 0\ninsert 34 680 0 2 0\ninsert 35 700 10 -1 0\ninsert 36 720 0 2 0\ninsert 37 740 10 -1 0\ninsert 38 760 0 2 0\ninsert 39 780 10 -1 0\nclosest\nat 20/3\norder 0\nclosest\nat 10\norder 0\nextreme 1\nhull\nclosest\nturn 0 0 0\nremove 39\nat 15\nhull\nclosest\nbox 0 100 0 5\nbox 0 100 0 10\nreplace 0 1000 0 0 0\nhull\nat root 1 0 -300 hi\nhull\nextreme 1\n";

pub const CARRIAGEWAYS_TEXT: &str =
    "0 1\n0 1 2 3 4 5 6 7 8 9 10 11 12 13 14 15 16 17 18 19 20 21 22 23 24 25 26 27 28 29 30 31 32 33 34 35 36 37 38 39\n0 1\n1 0 3 2 5 4 7 6 9 8 11 10 13 12 15 14 17 16 19 18 21 20 23 22 25 24 27 26 29 28 31 30 33 32 35 34 37 36 39 38\n1\n1 0 38 39\n0 1\n1 0 38 37\n0 1\n0 2\n0 1 2 3 5\n1 2 0 37\n1 2 0 37\n1\n";
