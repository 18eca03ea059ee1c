//! Scripts with their texts and statuses.

use kin_run::Refusal;
use kin_run::status::Status;

/// Two points meet at 5 and pass each other.
pub const CROSSING: &str =
    "size 1\nkeep order 1 0\ninsert 0 0 0 1 0\ninsert 1 10 0 -1 0\nat 4\norder 0\nat 5\norder 0\nat 6\norder 0\n";

/// Three points meet at 5.
pub const THREE: &str =
    "size 2\nkeep order 1 0\njournal on\ninsert 0 0 0 1 0\ninsert 1 5 0 0 0\ninsert 2 10 0 -1 0\nat 5\norder 0\nat 6\norder 0\n";

pub const THREE_TEXT: &str =
    "! 5 0/0 line(1,0) 0 1 + 0\n! 5 0/0 line(1,0) 1 2 + 0\n0 1 2\n! 5+ 0/0 line(1,0) 0 1 0 -\n! 5+ 0/0 line(1,0) 1 2 0 -\n2 1 0\n";

/// A point meets two others, one after the other, with the question `live` at the end.
pub const MEETINGS: &str =
    "size 2\nkeep order 1 0\njournal on\ninsert 0 0 0 1 0\ninsert 1 10 0 -1 0\ninsert 2 30 0 -1 0\nat 20\nlive\n";

pub const MEETINGS_WHOLE: &str =
    "! 5 0/0 line(1,0) 0 1 + 0\n! 5+ 0/0 line(1,0) 0 1 0 -\n! 15 0/0 line(1,0) 0 2 + 0\n! 15+ 0/0 line(1,0) 0 2 0 -\n2\n";

/// The same, going from failure to failure.
pub const MEETINGS_BY_NEXT: &str =
    "size 2\nkeep order 1 0\njournal on\ninsert 0 0 0 1 0\ninsert 1 10 0 -1 0\ninsert 2 30 0 -1 0\nnext\nnext\nnext\nnext\nlive\n";

pub const MEETINGS_BY_NEXT_WHOLE: &str =
    "! 5 0/0 line(1,0) 0 1 + 0\nnow 5\n! 5+ 0/0 line(1,0) 0 1 0 -\nnow 5+\n! 15 0/0 line(1,0) 0 2 + 0\nnow 15\n! 15+ 0/0 line(1,0) 0 2 0 -\nnow 15+\n2\n";

/// Scripts with their texts and statuses.
pub const WORKED: [(&str, &str, Status); 31] = [
    (CROSSING, "0 1\n0 1\n1 0\n", Status::Done),
    // The same with the journal.
    (
        "size 1\nkeep order 1 0\njournal on\ninsert 0 0 0 1 0\ninsert 1 10 0 -1 0\nat 4\norder 0\nat 5\norder 0\nat 6\norder 0\n",
        "0 1\n! 5 0/0 line(1,0) 0 1 + 0\n0 1\n! 5+ 0/0 line(1,0) 0 1 0 -\n1 0\n",
        Status::Done,
    ),
    (
        "size 1\nkeep order 1 0\njournal on\ninsert 0 10 0 -1 0\ninsert 1 0 0 1 0\nat 4\norder 0\nat 5\norder 0\nat 6\norder 0\n",
        "1 0\n! 5 0/0 line(1,0) 1 0 + 0\n0 1\n! 5+ 0/0 line(1,0) 0 1 0 +\n0 1\n",
        Status::Done,
    ),
    (THREE, THREE_TEXT, Status::Done),
    (MEETINGS, MEETINGS_WHOLE, Status::Done),
    (MEETINGS_BY_NEXT, MEETINGS_BY_NEXT_WHOLE, Status::Done),
    // An extreme point with a tie.
    (
        "size 1\nkeep extreme 1 0\njournal on\ninsert 0 0 0 1 0\ninsert 1 10 0 -1 0\nat 4\nextreme 0\nat 5\nextreme 0\nat 6\nextreme 0\n",
        "1\n! 5 0/1 line(1,0) 0 1 + 0\n0\n! 5+ 0/1 line(1,0) 0 1 0 -\n0\n",
        Status::Done,
    ),
    // No way back before the moment of `next`.
    (
        "size 1\nkeep order 1 0\ninsert 0 0 0 1 0\ninsert 1 10 0 -1 0\nnext\norder 0\nnext\norder 0\nat 5\n",
        "now 5\n0 1\nnow 5+\n1 0\nrefused 9 Past\n",
        Status::Command(9, Refusal::Past),
    ),
    (
        "size 1\nkeep order 1 0\ninsert 0 0 0 1 0\ninsert 1 10 0 -1 0\nnext\norder 0\nnext\norder 0\nat 4\n",
        "now 5\n0 1\nnow 5+\n1 0\nrefused 9 Past\n",
        Status::Command(9, Refusal::Past),
    ),
    // Nothing, then one point.
    (
        "size 3\nkeep order 1 0\nkeep extreme 0 1\norder 0\nextreme 1\nlive\nnext\ninsert 5 1 2 0 0\norder 0\nextreme 1\nlive\nnext\n",
        "none\nnone\n0\nnone\n5\n5\n0\nnone\n",
        Status::Done,
    ),
    // A structure of another kind.
    (
        "size 1\nkeep order 1 0\nkeep extreme 1 0\nlive\nextreme 0\n",
        "0\nrefused 5 NotKept\n",
        Status::Command(5, Refusal::NotKept),
    ),
    // The numbers exchanged: the order changes at 5 itself.
    (
        "size 1\nkeep order 1 0\ninsert 0 10 0 -1 0\ninsert 1 0 0 1 0\nat 4\norder 0\nat 5\norder 0\nat 6\norder 0\n",
        "1 0\n0 1\n0 1\n",
        Status::Done,
    ),
    (
        "size 1\nkeep order 1 0\ninsert 0 0 0 2 0\ninsert 1 1 0 0 0\nat 1/4\norder 0\nat 2/4\norder 0\nat 3/4\norder 0\n",
        "0 1\n0 1\n1 0\n",
        Status::Done,
    ),
    (
        "size 1\nkeep order 1 0\ninsert 0 0 0 1 0\ninsert 1 3 0 -1 0\nat root 1 0 -2 hi\norder 0\nat 3/2\norder 0\nat root 1 0 -3 hi\norder 0\n",
        "0 1\n0 1\n1 0\n",
        Status::Done,
    ),
    // Two roots that differ by some parts in 10^18.
    (
        "size 1\nat root 134217727 134217729 -268435455 hi\nat root 134217728 134217728 -268435455 hi\nat root 134217727 134217729 -268435455 hi\n",
        "refused 4 Past\n",
        Status::Command(4, Refusal::Past),
    ),
    (
        "size 1\nat 2147483645/1073741824\nat root 268435456 -536870912 1 hi\nat 2147483647/1073741824\nat root 268435456 -536870912 1 hi\n",
        "refused 5 Past\n",
        Status::Command(5, Refusal::Past),
    ),
    // Two at the bounds of an asked quadratic.
    (
        "size 1\nat root 268435455 268435457 -536870911 hi\nat root 268435456 268435456 -536870911 hi\nat root 268435455 268435457 -536870911 hi\n",
        "refused 4 Past\n",
        Status::Command(4, Refusal::Past),
    ),
    // The greater root is 2^31, which is later than any fraction that a line can ask for.
    (
        "size 1\nat root 1 -2147483648 0 hi\nat 2147483647\n",
        "refused 3 Past\n",
        Status::Command(3, Refusal::Past),
    ),
    (
        "size 01\r\n\tkeep order 1 -0 # east\r\n\r\ninsert 0 4096 -4096 -0 007\r\norder 0",
        "0\n",
        Status::Done,
    ),
    (
        "size 01\r\n\tkeep order 1 -0 # east\r\n\r\ninsert 0 8192 -8192 -0 007\r\norder 0",
        "0\n",
        Status::Done,
    ),
    (
        "size 01\r\n\tkeep order 1 -0 # east\r\n\r\ninsert 0 8193 -4096 -0 007\r\norder 0",
        "bad 4\n",
        Status::Script(4),
    ),
    (
        "size 1\nkeep order 1 0\ninsert 0 0 0 0 0\ninsert 0 1 1 0 0\n",
        "refused 4 Taken\n",
        Status::Command(4, Refusal::Taken),
    ),
    (
        "size 1\nkeep order 1 0\ninsert 0 0 0 0 0\nat 2\nat 1\n",
        "refused 5 Past\n",
        Status::Command(5, Refusal::Past),
    ),
    (
        "size 1\ninsert 0 0 0 0 0\ninsert 0 1 1 0 0\n",
        "refused 3 Taken\n",
        Status::Command(3, Refusal::Taken),
    ),
    (
        "size 1\nhull\n",
        "refused 2 NotKept\n",
        Status::Command(2, Refusal::NotKept),
    ),
    (
        "size 1\nat root 1 0 1 hi\n",
        "refused 2 NoRoot\n",
        Status::Command(2, Refusal::NoRoot),
    ),
    (
        "size 1\nat root 1 0 -2 lo\n",
        "refused 2 Past\n",
        Status::Command(2, Refusal::Past),
    ),
    ("size 1\ninsert 2 0 0 0 0\n", "bad 2\n", Status::Script(2)),
    ("", "bad 1\n", Status::Script(1)),
    // A moment that is now may be asked for again.
    (
        "size 1\nkeep order 0 1\nat 3\nat 6/2\norder 0\n",
        "none\n",
        Status::Done,
    ),
    // What was printed before a refused command stays.
    (
        "size 1\nkeep order 0 1\norder 0\norder 1\norder 0\n",
        "none\nrefused 4 NotKept\n",
        Status::Command(4, Refusal::NotKept),
    ),
];
