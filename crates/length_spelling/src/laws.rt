//! Laws of spelled lengths, each carried by a function that does nothing.

ghost use Rattle.length_spelling.specs.Laws.{IndicesAreSpelled, LengthsAreBounds, LengthsAreOfWords, LengthsAreSpelled};

use index_expr::laws::{lengths_are_exact, ranged_values_are_exact};

/// An index expression of words is spelled with its value on words of 32 bits, at the turns that a
/// work-item is in.
pub fn indices_are_spelled()
    ensures { IndicesAreSpelled }
{}

/// A length is spelled with its value, at all admissible sizes.
pub fn lengths_are_spelled()
    ensures { LengthsAreSpelled }
{
    lengths_are_exact();
    ranged_values_are_exact();
}

/// A length's spelling is of the kernel grammar, may stand in a loop's
/// bound, and is at most 40 high.
pub fn lengths_are_bounds()
    ensures { LengthsAreBounds }
{}

/// A length whose coefficients are within the limit of polynomials is spelled by its expression.
pub fn lengths_are_of_words()
    ensures { LengthsAreOfWords }
{}
