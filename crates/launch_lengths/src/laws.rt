//! Laws of the base names' values at a launch, each carried by a function that does nothing.

ghost use Rattle.launch_lengths.specs.Laws.{BasesComeBack};

/// The sizes that admissible values of the base names give are those of no other values: the values
/// are read off the sizes.
pub fn bases_come_back()
    ensures { BasesComeBack }
{}
