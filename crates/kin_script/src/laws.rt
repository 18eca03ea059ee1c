//! What holds of the grammar and of the printed text. Each function's contract is one law; none of them does anything.

ghost use Rattle.kin_script.specs.Printed.{TextsTellInstants, TextsTellMoments};
ghost use Rattle.kin_script.specs.Written.{ScriptsAreWritten, FirstOutsideIsFirst};

/// Bytes are a script exactly where their lines write it: the size line first, then the lines of
/// the header in any order, then the commands.
pub fn scripts_are_written()
    ensures { ScriptsAreWritten }
{}

/// The first line outside the grammar is the first that isn't allowed at its place: the lines before it write a
/// script or are none, and with it they write none, however they go on. Where no line has words, it is the line
/// after the last.
pub fn first_outside_is_first()
    ensures { FirstOutsideIsFirst }
{}

/// Canonical instants with the same printed text are the same.
pub fn texts_tell_instants()
    ensures { TextsTellInstants }
{}

/// Canonical moments with the same printed text are the same.
pub fn texts_tell_moments()
    ensures { TextsTellMoments }
{}
