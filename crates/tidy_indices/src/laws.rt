//! Laws of simplified spellings and of tidy expressions, each carried by a function that does
//! nothing.

ghost use Rattle.tidy_indices.specs.Spelling.{RangedFormulasHaveTheValues};
ghost use Rattle.tidy_indices.specs.Spelling.{SimpleFormulasHaveTheValues};
ghost use Rattle.tidy_indices.specs.Spelling.{SimpleFormulasAreNoLarger};
ghost use Rattle.tidy_indices.specs.Spelling.{SimpleFormulasAreIrredundant};
ghost use Rattle.tidy_indices.specs.Laws.{TidyFormulasAreIrredundant, TidyFormulasAreNoLarger};
ghost use Rattle.tidy_indices.specs.Laws.{TidyFormulasAreShort, TidyFormulasKeepValues};

use index_expr::laws::ranged_values_are_exact;
use index_simplify::laws::{
    expressions_are_simplified, found_laws_apply, same_operations_are_equal,
    tabled_expressions_are_simplified,
};
use length_spelling::laws::indices_are_spelled;

/// Where an index expression is ranged, it is spelled with its exact value.
pub fn ranged_formulas_have_the_values()
    ensures { RangedFormulasHaveTheValues }
{
    ranged_values_are_exact();
    indices_are_spelled();
}

/// At a point of the ranges at which an index expression is ranged, it is spelled with its exact
/// value when it is simplified.
pub fn simple_formulas_have_the_values()
    ensures { SimpleFormulasHaveTheValues }
{
    expressions_are_simplified();
    ranged_formulas_have_the_values();
}

/// A simplified index expression is spelled by an expression of the kernel grammar wherever it is
/// so without that: of the same names, no higher, with no more nodes.
pub fn simple_formulas_are_no_larger()
    ensures { SimpleFormulasAreNoLarger }
{
    expressions_are_simplified();
}

/// No part of a simplified index expression's spelling is redundant.
pub fn simple_formulas_are_irredundant()
    ensures { SimpleFormulasAreIrredundant }
{
    expressions_are_simplified();
}

/// At admissible sizes a tidy expression has the value of the expression, in loops of these bounds
/// and groups of the size that the kernel asks for, whether or not anything in it wraps.
pub fn tidy_formulas_keep_values()
    ensures { TidyFormulasKeepValues }
{
    expressions_are_simplified();
    tabled_expressions_are_simplified();
    found_laws_apply();
    same_operations_are_equal();
    ranged_formulas_have_the_values();
    simple_formulas_have_the_values();
}

/// A tidy expression is of the kernel grammar wherever the expression is: of the same names, no
/// higher, with no more nodes.
pub fn tidy_formulas_are_no_larger()
    ensures { TidyFormulasAreNoLarger }
{
    simple_formulas_are_no_larger();
}

/// No part of a tidy index is redundant.
pub fn tidy_formulas_are_irredundant()
    ensures { TidyFormulasAreIrredundant }
{
    simple_formulas_are_irredundant();
}

/// A tidy index has no more nodes than the index has where lengths are counted in short.
pub fn tidy_formulas_are_short()
    ensures { TidyFormulasAreShort }
{
    expressions_are_simplified();
}
