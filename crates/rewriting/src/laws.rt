//! Laws of what a rewrite keeps.

ghost use Rattle.rewriting.specs.Laws.{PlacesHaveContexts, RewritesKeepTheWhole, KeepingGoesOn};

/// The node at each place of a typed term has a context, and is typed in it.
#[tactic(auto, using(crate::proofs::Places::places_have_contexts))]
pub fn places_have_contexts()
    ensures { PlacesHaveContexts }
{}

/// What keeps the type, the copies and the value of the node at a place, in the node's context,
/// keeps the whole's.
#[tactic(auto, using(crate::proofs::Places::rewrites_keep_the_whole))]
pub fn rewrites_keep_the_whole()
    ensures { RewritesKeepTheWhole }
{}

/// Two rewrites, one after the other, keep what each of them keeps.
#[tactic(auto, using(crate::proofs::Places::keeping_goes_on))]
pub fn keeping_goes_on()
    ensures { KeepingGoesOn }
{}
