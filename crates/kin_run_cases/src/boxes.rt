//! Scripts that ask for overlaps, and their texts and statuses.

use kin_run::Refusal;
use kin_run::status::Status;

/// Overlaps of a few boxes.
pub const BOXES: [(&str, &str, Status); 16] = [
    // Boxes 2 wide meet at 3 and part at 7, where they touch.
    (
        "size 1\nkeep boxes 2 2\ninsert 0 0 0 1 0\ninsert 1 5 0 0 0\noverlaps\nat 3\noverlaps\nat 7\noverlaps\nat 8\noverlaps\n",
        "none\n0 1\n0 1\nnone\n",
        Status::Done,
    ),
    // The same with its journal, up to where they meet.
    (
        "size 1\nkeep boxes 2 2\njournal on\ninsert 0 0 0 1 0\ninsert 1 5 0 0 0\noverlaps\nat 3\noverlaps\n",
        "none\n! 3 0/2 line(1,0,-2) 0 1 + 0\n0 1\n",
        Status::Done,
    ),
    // And from block to block, until they have parted.
    (
        "size 1\nkeep boxes 2 2\njournal on\ninsert 0 0 0 1 0\ninsert 1 5 0 0 0\nat 6\nnext\noverlaps\nnext\noverlaps\nlive\nnext\n",
        "! 3 0/2 line(1,0,-2) 0 1 + 0\n! 3+ 0/1 line(1,0,2) 1 0 0 +\n! 5 0/0 line(1,0) 0 1 + 0\n! 5 0/3 line(1,0) 0 1 + 0\n! 5+ 0/0 line(1,0) 0 1 0 -\n! 5+ 0/3 line(1,0) 0 1 0 -\n! 7 0/1 line(1,0,2) 0 1 + 0\nnow 7\n0 1\n! 7+ 0/1 line(1,0,2) 0 1 0 -\nnow 7+\nnone\n6\nnone\n",
        Status::Done,
    ),
    // Boxes of no width and no height overlap where their points are at one place. One of them leaves.
    (
        "size 1\nkeep boxes 0 0\ninsert 0 0 0 1 0\ninsert 1 1 0 0 0\noverlaps\nat 1\noverlaps\nremove 0\noverlaps\n",
        "none\n0 1\nnone\n",
        Status::Done,
    ),
    // No boxes, one, and two at one place for ever; then they leave.
    (
        "size 1\nkeep boxes 3 0\noverlaps\nlive\ninsert 1 -7 2 1 1\noverlaps\nlive\ninsert 0 -7 2 1 1\noverlaps\nlive\nnext\nremove 1\noverlaps\nremove 0\noverlaps\nlive\n",
        "none\n0\nnone\n2\n0 1\n6\nnone\nnone\nnone\n0\n",
        Status::Done,
    ),
    // Boxes that touch at a side and at a corner, and one that touches none.
    (
        "size 2\nkeep boxes 2 1\ninsert 0 0 0 0 0\ninsert 1 2 1 0 0\ninsert 2 2 2 0 0\ninsert 3 -3 0 0 0\noverlaps\nlive\n",
        "0 1\n1 2\n14\n",
        Status::Done,
    ),
    // A corner passes a corner: they touch at 1 alone.
    (
        "size 1\nkeep boxes 1 1\njournal on\ninsert 1 0 0 0 0\ninsert 0 0 2 1 -1\noverlaps\nat 1\noverlaps\nnext\noverlaps\n",
        "none\n! 0+ 0/0 line(1,0) 0 1 0 -\n! 0+ 0/3 line(1,0) 0 1 0 -\n! 1 0/1 line(1,0,1) 0 1 + 0\n! 1 0/6 line(0,1,-1) 1 0 + 0\n0 1\n! 1+ 0/1 line(1,0,1) 0 1 0 -\n! 1+ 0/5 line(0,1,1) 0 1 0 +\nnow 1+\nnone\n",
        Status::Done,
    ),
    // Boxes of no width. Two of them touch at 1 alone, at a corner.
    (
        "size 2\nkeep boxes 0 5\ninsert 0 0 0 0 0\ninsert 1 1 5 -1 0\ninsert 2 0 6 0 -1\noverlaps\nat 1\noverlaps\nnext\noverlaps\n",
        "none\n0 1\n0 2\n1 2\nnow 1+\n0 2\n",
        Status::Done,
    ),
    // At an irrational instant, and after one box has left another one.
    (
        "size 2\nkeep boxes 3 2\ninsert 0 0 0 1 0\ninsert 1 2 0 0 1\ninsert 2 4 2 0 0\ninsert 3 -9 1 5 0\nat root 1 0 -2 hi\noverlaps\nat 4\noverlaps\n",
        "0 1\n0 2\n1 2\n0 2\n1 2\n",
        Status::Done,
    ),
    // A box comes to another one, turns back where they touch, and goes away by a leg.
    (
        "size 1\nkeep boxes 2 2\njournal on\ninsert 0 0 0 0 0\ninsert 1 5 1 -1 0\nleg 1 3 1 0\nat 2\noverlaps\nat 3\noverlaps\nnext\noverlaps\n",
        "none\n! 3 0/2 line(1,0,-2) 0 1 + 0\n0 1\n! 3+ 0/1 line(1,0,2) 1 0 0 -\nnow 3+\nnone\n",
        Status::Done,
    ),
    // The same, but it turns back at 4, when both overlap.
    (
        "size 1\nkeep boxes 2 2\ninsert 0 0 0 0 0\ninsert 1 5 1 -1 0\nleg 1 4 1 0\nat 3\noverlaps\nat 4\noverlaps\nat 5\noverlaps\nnext\noverlaps\nnext\n",
        "0 1\n0 1\n0 1\nnow 5+\nnone\nnone\n",
        Status::Done,
    ),
    // A box leaves, returns elsewhere, starts anew and turns.
    (
        "size 2\nkeep boxes 4 4\ninsert 0 0 0 0 0\ninsert 1 3 3 0 0\ninsert 2 9 3 0 0\noverlaps\nremove 1\noverlaps\ninsert 1 6 6 0 0\noverlaps\nreplace 2 1 -3 0 0\noverlaps\nturn 0 1 1\nat 2\noverlaps\nat 5\noverlaps\nlive\n",
        "0 1\nnone\n1 2\n0 2\n0 1\n0 1\n10\n",
        Status::Done,
    ),
    // Boxes as large as they may be, at the bounds.
    (
        "size 1\nkeep boxes 4096 4096\ninsert 0 -8192 -8192 8192 8192\ninsert 1 8192 8192 -8192 -8192\noverlaps\nat 3/4\noverlaps\nat 5/4\noverlaps\nnext\noverlaps\nnext\n",
        "none\n0 1\n0 1\nnow 5/4+\nnone\nnone\n",
        Status::Done,
    ),
    // No boxes are kept; they are kept twice; they are too high.
    (
        "size 1\nkeep hull\nkeep range\nlive\noverlaps\nlive\n",
        "0\nrefused 5 NotKept\n",
        Status::Command(5, Refusal::NotKept),
    ),
    (
        "size 1\nkeep boxes 1 2\nkeep boxes 2 1\noverlaps\n",
        "bad 3\n",
        Status::Script(3),
    ),
    ("size 1\nkeep boxes 0 4097\n", "bad 2\n", Status::Script(2)),
];

/// A structure of each kind, boxes among them.
pub const EACH_KIND: &str =
    "size 2\nkeep order 1 1\nkeep boxes 3 2\nkeep extreme 0 1\nkeep hull\nkeep closest\nkeep range\nkeep nearest\nkeep diameter\njournal on\ninsert 0 0 0 1 0\ninsert 1 8 1 -1 0\ninsert 2 2 5 0 -1\nlive\noverlaps\nnext\nleg 0 3 0 1\nat 3\norder 0\noverlaps\nextreme 2\nhull\nclosest\nbox 0 5 0 5\nnearest 2\nfarthest\nremove 1\noverlaps\nlive\n";

pub const EACH_KIND_TEXT: &str =
    "68\nnone\n! r(2,-12,13,lo) 4/13 dist 1 2 0 1 + 0\n! r(2,-12,13,lo) 7/2 dist 0 1 1 2 - 0\nnow r(2,-12,13,lo)\n! r(2,-12,13,lo)+ 4/13 dist 1 2 0 1 0 -\n! r(2,-12,13,lo)+ 7/2 dist 0 1 1 2 0 +\n! 2 1/0 line(1,0) 0 2 + 0\n! 2 1/3 line(1,0) 0 2 + 0\n! 2 1/6 line(0,1,-2) 1 2 + 0\n! 2 3/2 line(1,0) 0 2 + 0\n! 2 3/3 line(1,0) 0 2 + 0\n! 2 4/2 line(1,0) 0 2 + 0\n! 2 4/5 line(1,2) 1 2 + 0\n! 2 5/0 line(1,0) 0 2 + 0\n! 2 6/2 line(1,0) 0 2 + 0\n! 2 6/5 line(1,2) 1 2 + 0\n! 2+ 1/0 line(1,0) 0 2 0 -\n! 2+ 1/3 line(1,0) 0 2 0 -\n! 2+ 1/5 line(0,1,2) 2 1 0 +\n! 2+ 3/2 line(1,0) 0 2 0 -\n! 2+ 3/3 line(1,0) 0 2 0 -\n! 2+ 4/2 line(1,0) 0 2 0 -\n! 2+ 4/5 line(1,2) 1 2 0 -\n! 2+ 5/0 line(1,0) 0 2 0 -\n! 2+ 6/2 line(1,0) 0 2 0 -\n! 2+ 6/5 line(1,2) 1 2 0 -\n! 5/2 1/2 line(1,0,-3) 0 1 + 0\n! 5/2+ 1/1 line(1,0,3) 1 0 0 +\n! 3 1/2 line(1,0,-3) 2 1 + 0\n! 3 1/6 line(0,1,-2) 0 2 + 0\n! 3 4/4 line(2,1) 0 2 + 0\n! 3 4/6 line(-1,2) 1 0 + 0\n! 3 4/10 dist 0 2 0 1 + 0\n! 3 4/16 dist 0 1 0 2 - 0\n! 3 6/4 line(2,1) 0 2 + 0\n! 3 6/6 line(-1,2) 1 0 + 0\n! 3 7/3 dist 0 2 0 1 + 0\n0 2 1\n0 1\n0 2\n1 2\n2\n2 0 1\n0 1\n0 1 2\n0\n1 2\n0 2\n32\n";
