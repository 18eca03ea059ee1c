//! Scripts that ask for farthest pairs, and their texts and statuses.

use kin_run::Refusal;
use kin_run::status::Status;

/// Farthest pairs of a few points.
pub const FARTHEST: [(&str, &str, Status); 15] = [
    // Both diagonals of a square are as long. One slope and two matches are facts besides the 18 of the hull.
    (
        "size 2\nkeep hull\nkeep diameter\ninsert 0 0 0 0 0\ninsert 1 1 0 0 0\ninsert 2 1 1 0 0\ninsert 3 0 1 0 0\nfarthest\nlive\n",
        "0 2\n21\n",
        Status::Done,
    ),
    // Two points come to a third one, and part again.
    (
        "size 2\nkeep hull\nkeep diameter\ninsert 0 0 0 0 0\ninsert 1 -1 0 1 0\ninsert 2 0 -1 0 1\nfarthest\nat 1\nfarthest\nat 3\nfarthest\n",
        "1 2\nnone\n1 2\n",
        Status::Done,
    ),
    // No hull comes before it, none at all or a later one; and it is kept once at most.
    ("size 1\nkeep diameter\n", "bad 2\n", Status::Script(2)),
    (
        "size 1\nkeep order 1 0\nkeep diameter\nkeep hull\nfarthest\n",
        "bad 3\n",
        Status::Script(3),
    ),
    (
        "size 1\nkeep hull\nkeep diameter\nkeep range\nkeep diameter\n",
        "bad 5\n",
        Status::Script(5),
    ),
    // Twenty lines after its hull.
    (
        "size 1\nkeep hull\nkeep order 1 0\nkeep order 0 1\nkeep order 1 1\nkeep order 1 -1\nkeep order 2 1\nkeep order 1 2\nkeep order 2 -1\nkeep order 1 -2\nkeep order 3 1\nkeep order 1 3\nkeep order 3 -1\nkeep order 1 -3\nkeep order 3 2\nkeep order 2 3\nkeep order 3 -2\nkeep order 2 -3\nkeep closest\nkeep range\nkeep nearest\nkeep diameter\ninsert 0 0 0 0 0\ninsert 1 3 4 -1 0\nfarthest\norder 1\nclosest\nat 3\nfarthest\nhull\nnearest 0\n",
        "0 1\n0 1\n0 1\n0 1\n0 1\n1\n",
        Status::Done,
    ),
    // A hull alone has no farthest pair.
    (
        "size 1\nkeep hull\ninsert 0 0 0 0 0\ninsert 1 1 0 0 0\nfarthest\n",
        "refused 5 NotKept\n",
        Status::Command(5, Refusal::NotKept),
    ),
    // Nothing, one point, and two at one place for ever; then the last point leaves.
    (
        "size 1\nkeep hull\nkeep diameter\nfarthest\nlive\ninsert 1 3 -4 1 1\nfarthest\nlive\ninsert 0 3 -4 1 1\nfarthest\nlive\nnext\nremove 1\nfarthest\nremove 0\nfarthest\nlive\n",
        "none\n0\nnone\n0\nnone\n4\nnone\nnone\nnone\n0\n",
        Status::Done,
    ),
    // A point in a row with two others goes away. At 2 it is as far from 0 as 1 is, and just after it is farther.
    (
        "size 2\nkeep hull\nkeep diameter\njournal on\ninsert 0 0 0 0 0\ninsert 1 3 0 0 0\ninsert 2 1 0 1 0\nfarthest\nnext\nfarthest\nnext\nfarthest\nlive\n",
        "0 1\n! 2 0/2 line(1,0) 1 2 - 0\n! 2 0/3 line(1,0) 1 2 - 0\nnow 2\n0 1\n! 2+ 0/2 line(1,0) 1 2 0 +\n! 2+ 0/3 line(1,0) 1 2 0 +\nnow 2+\n0 2\n11\n",
        Status::Done,
    ),
    // Two points meet. Just after it they have parted.
    (
        "size 1\nkeep hull\nkeep diameter\ninsert 0 0 0 0 0\ninsert 1 1 0 -1 0\nfarthest\nnext\nfarthest\nnext\nfarthest\n",
        "0 1\nnow 1\nnone\nnow 1+\n0 1\n",
        Status::Done,
    ),
    // At an irrational instant two pairs are equally far.
    (
        "size 2\nkeep hull\nkeep diameter\ninsert 0 0 0 0 0\ninsert 1 0 0 1 0\ninsert 2 1 1 0 0\nat 7/5\nfarthest\nat root 1 0 -2 hi\nfarthest\nnext\nfarthest\n",
        "0 2\n0 1\nnow r(1,0,-2,hi)+\n0 1\n",
        Status::Done,
    ),
    // A parallelogram, whose opposite sides are as steep at each moment. At 2 its diagonals are as long.
    (
        "size 2\nkeep hull\nkeep diameter\njournal on\ninsert 0 0 0 0 0\ninsert 1 2 0 0 0\ninsert 2 0 2 1 0\ninsert 3 -2 2 1 0\nfarthest\nat 2\nfarthest\nat 4\nfarthest\n",
        "1 3\n! 0+ 1/3 dist 0 2 0 1 0 -\n! 2 0/2 line(1,0) 0 3 - 0\n! 2 0/2 line(1,0) 1 2 - 0\n! 2 0/3 line(1,0) 0 3 - 0\n! 2 0/3 line(1,0) 1 2 - 0\n! 2 1/2 dist 0 2 1 3 + 0\n0 2\n! 2+ 0/2 line(1,0) 0 3 0 +\n! 2+ 0/2 line(1,0) 1 2 0 +\n! 2+ 0/3 line(1,0) 0 3 0 +\n! 2+ 0/3 line(1,0) 1 2 0 +\n! 2+ 1/2 dist 0 2 1 3 0 -\n0 2\n",
        Status::Done,
    ),
    // Point 1 comes back by a leg. It is as far from 0 as 2 is at 3 and at 5.
    (
        "size 2\nkeep hull\nkeep diameter\ninsert 0 0 0 0 0\ninsert 1 8 0 -1 0\ninsert 2 5 0 0 0\nleg 1 4 1 0\nat 3\nfarthest\nat 7/2\nfarthest\nat 4\nfarthest\nat 5\nfarthest\nat 6\nfarthest\n",
        "0 1\n0 2\n0 2\n0 1\n0 1\n",
        Status::Done,
    ),
    // The same, but it turns back at 3, where both are equally far.
    (
        "size 2\nkeep hull\nkeep diameter\ninsert 0 0 0 0 0\ninsert 1 8 0 -1 0\ninsert 2 5 0 0 0\nleg 1 3 1 0\nat 5/2\nfarthest\nat 3\nfarthest\nnext\nfarthest\nat 7/2\nfarthest\n",
        "0 1\n0 1\nnow 3+\n0 1\n0 1\n",
        Status::Done,
    ),
    // A point of the farthest pair leaves, returns, starts anew elsewhere and turns.
    (
        "size 2\nkeep hull\nkeep diameter\ninsert 0 0 0 0 0\ninsert 1 9 0 0 0\ninsert 2 4 7 0 0\ninsert 3 3 3 0 0\nfarthest\nremove 1\nfarthest\ninsert 1 0 -3 0 0\nfarthest\nreplace 1 3 2 0 0\nfarthest\nturn 1 3 -3\nat 4\nfarthest\nlive\n",
        "0 1\n0 2\n1 2\n0 2\n1 2\n19\n",
        Status::Done,
    ),
];
