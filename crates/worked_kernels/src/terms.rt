//! Worked terms of the source, carried by a function that does nothing.

ghost use Rattle.worked_kernels.specs.Terms.{FourIncrementsAreLowered, IncrementsAreLowered, RowIncrementsAreLowered, SumsAreLowered};

/// Worked terms: a map over the launch, by numbers and by vectors of four, a pair of maps over it,
/// and a fold over a private copy.
pub fn worked_terms_are_lowered()
    ensures increments { IncrementsAreLowered }
    ensures fours { FourIncrementsAreLowered }
    ensures rows { RowIncrementsAreLowered }
    ensures sums { SumsAreLowered }
{}
