//! Worked kernels by one work-item and over the launch, carried by a function that does nothing.

ghost use Rattle.worked_kernels.specs.Kernels.{FourIncrementsKeep, IncrementsKeep, RowIncrementsKeep, SumsKeep, SwapsKeep};

/// Worked kernels: one with a private array, one whose accumulator has two components, a map
/// over the launch at every launch of one row, by numbers and by vectors of four, and a pair of
/// maps at every launch in two dimensions.
pub fn worked_kernels_keep()
    ensures sums { SumsKeep }
    ensures swaps { SwapsKeep }
    ensures increments { IncrementsKeep }
    ensures fours { FourIncrementsKeep }
    ensures rows { RowIncrementsKeep }
{}
