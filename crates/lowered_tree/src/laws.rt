//! Laws of the definitions, each carried by a function that does nothing.

ghost use Rattle.lowered_tree.specs.Nest.{LegalWithoutFault};

/// No rule of the nest is broken first exactly where none is broken at any node, nor
/// by a local size that is fixed.
pub fn legal_without_fault()
    ensures { LegalWithoutFault }
{}
