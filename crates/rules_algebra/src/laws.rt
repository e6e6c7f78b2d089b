//! Laws of the definitions.

ghost use Rattle.rules_algebra.specs.Layouts.{PiecesHaveTheirLength};

/// The pieces of a typed split have the length that it names, so `SplitJoin` compares the inner
/// length with it.
#[tactic(auto, using(crate::proofs::Ruled::pieces_have_their_length))]
pub fn pieces_have_their_length()
    ensures { PiecesHaveTheirLength }
{}
