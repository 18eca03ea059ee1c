//! The laws of the text. Each function's contract is one law; none of them does anything.

ghost use Rattle.kin_status.specs.Alike.{AlikePasses, AlikeTexts};
ghost use Rattle.kin_status.specs.Demo.{DemoTextsExist, OneDemoText};
ghost use Rattle.kin_status.specs.Headline.{OneAnswer, TextsExist};

/// An input has at most one text, and at most one status with it.
#[tactic(auto, using(crate::proofs::OneText::one_answer))]
pub fn one_answer()
    ensures { OneAnswer }
{}

/// Every input has a text, and a status with it. So a prefix of each text of an input is a prefix
/// of one that exists.
#[tactic(auto, using(crate::proofs::Existence::texts_exist))]
pub fn texts_exist()
    ensures { TextsExist }
{}

/// Each seed has a text with each count of 1..1024.
#[tactic(auto, using(crate::proofs::Existence::demo_texts_exist))]
pub fn demo_texts_exist()
    ensures { DemoTextsExist }
{}

/// A seed and a count have at most one text.
pub fn one_demo_text()
    ensures { OneDemoText }
{}

/// Legs that are over don't matter: from two states that differ in nothing else, commands have the same text with the
/// same ending, and pass the same blocks.
pub fn past_legs_change_no_text()
    ensures texts { AlikeTexts }
    ensures passes { AlikePasses }
{}
