//! Laws of the needed barriers, each carried by a function that does nothing.

ghost use Rattle.barrier_placement.specs.Laws.{NeededBarriersSeparate, NeededBarriersAreFewest, NeededBarriersAreDetermined};

/// Where all arrays lie in one space, the needed barriers keep conflicting phases apart, in a turn
/// and, where there are more, from one turn to the next.
pub fn needed_barriers_separate()
    ensures { NeededBarriersSeparate }
{}

/// No set of places that separates all conflicting phases of a turn has fewer members than there
/// are needed barriers, but for the one that closes the body.
pub fn needed_barriers_are_fewest()
    ensures { NeededBarriersAreFewest }
{}

/// The uses tell the needed barriers.
pub fn needed_barriers_are_determined()
    ensures { NeededBarriersAreDetermined }
{}
