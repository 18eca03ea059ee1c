//! What holds of claims. The function's contract is the law; it does nothing.

ghost use Rattle.kin_check.specs.Truths.{TextsAreTrue};

/// The text of a script, after it and a line `=`, is a true claim; where the script doesn't end in a line feed, one comes
/// between. So `check` answers `Yes` to what a run has written with `Done`, where all has at most 2^20 bytes.
pub fn texts_are_true()
    ensures { TextsAreTrue }
{}
