//! Points at the bounds of places and velocities, up to the last instant that a line can ask for.

use kin_run::status::Status;

/// Four points that leave the corners of a square for those opposite, and meet at 1.
pub const CORNERS: [(&str, &str, Status); 4] = [
    (
        "size 2\nkeep hull\ninsert 0 -4096 -4096 4096 4096\ninsert 1 4096 4096 -4096 -4096\ninsert 2 -4096 4096 4096 -4096\ninsert 3 4096 -4096 -4096 4096\nat 1/2147483647\nhull\nat 1\nhull\nat 2\nhull\nat 2147483647\nhull\n",
        "0 3 1 2\n0\n1 2 0 3\n1 2 0 3\n",
        Status::Done,
    ),
    // As far away and as fast as they may be.
    (
        "size 2\nkeep hull\ninsert 0 -8192 -8192 8192 8192\ninsert 1 8192 8192 -8192 -8192\ninsert 2 -8192 8192 8192 -8192\ninsert 3 8192 -8192 -8192 8192\nat 1/2147483647\nhull\nat 1\nhull\nat 2\nhull\nat 2147483647\nhull\n",
        "0 3 1 2\n0\n1 2 0 3\n1 2 0 3\n",
        Status::Done,
    ),
    // The same with the journal.
    (
        "size 2\nkeep hull\njournal on\ninsert 0 -8192 -8192 8192 8192\ninsert 1 8192 8192 -8192 -8192\ninsert 2 -8192 8192 8192 -8192\ninsert 3 8192 -8192 -8192 8192\nat 1/2147483647\nhull\nat 1\nhull\nat 2\nhull\nat 2147483647\nhull\n",
        "0 3 1 2\n! 1 0/2 line(0,1) 0 2 + 0\n! 1 0/2 line(0,1) 1 3 - 0\n! 1 0/2 turn 0 1 2 + 0\n! 1 0/2 turn 2 3 1 + 0\n! 1 0/2 slope 0 1 2 3 + 0\n! 1 0/3 line(0,1) 0 2 + 0\n! 1 0/3 line(0,1) 1 3 - 0\n! 1 0/3 turn 0 1 3 - 0\n! 1 0/3 turn 2 3 0 - 0\n! 1 0/3 slope 2 3 0 1 - 0\n! 1 0/4 line(1,0) 0 1 + 0\n! 1 0/5 line(1,0) 0 1 + 0\n! 1 0/6 line(1,0) 2 3 + 0\n! 1 0/7 line(1,0) 2 3 + 0\n0\n! 1+ 0/2 line(0,1) 0 2 0 -\n! 1+ 0/3 line(0,1) 0 2 0 -\n! 1+ 0/4 line(0,1) 0 1 0 -\n! 1+ 0/4 line(1,0) 0 1 0 -\n! 1+ 0/5 line(0,1) 0 1 0 -\n! 1+ 0/5 line(1,0) 0 1 0 -\n! 1+ 0/6 line(0,1) 2 3 0 +\n! 1+ 0/6 line(1,0) 2 3 0 -\n! 1+ 0/7 line(0,1) 2 3 0 +\n! 1+ 0/7 line(1,0) 2 3 0 -\n1 2 0 3\n1 2 0 3\n",
        Status::Done,
    ),
    // At the last instant a point starts anew, and one leaves.
    (
        "size 2\nkeep hull\ninsert 0 -8192 -8192 8192 8192\ninsert 1 8192 8192 -8192 -8192\ninsert 2 -8192 8192 8192 -8192\ninsert 3 8192 -8192 -8192 8192\nat 1/2147483647\nhull\nat 1\nhull\nat 2\nhull\nat 2147483647\nhull\nlive\nreplace 0 8192 8192 -8192 -8192\nhull\nlive\nremove 3\nhull\nlive\nnext\n",
        "0 3 1 2\n0\n1 2 0 3\n1 2 0 3\n18\n0 2 3\n14\n0 2\n6\nnone\n",
        Status::Done,
    ),
];
