//! Laws of the indices and bounds of printed kernels, each carried by a function that does nothing.

ghost use Rattle.tidy_printed.specs.TidyLaws.{TermsHaveIndexFormulas, TidiedCodesAreTidy, TidiedTermsAreTidy, TidyFormulasMakeTidy, TurnsStay};

use tidy_indices::laws::{tidy_formulas_are_irredundant, tidy_formulas_are_short};

/// Where a printer makes a kernel of the kernel grammar of a term, each index and each bound spells
/// an index expression within its limit, the nodes of the layouts' formulas put into one another,
/// that divides sizes by their declared divisors alone.
pub fn terms_have_index_formulas()
    ensures { TermsHaveIndexFormulas }
{}

/// In code with such indices and bounds, in whatever loops and ifs, each is tidy within its limit
/// when the code is tidied.
pub fn tidied_codes_are_tidy()
    ensures { TidiedCodesAreTidy }
{}

/// Such a kernel of a typed term, tidied, is tidy for the term.
pub fn tidied_terms_are_tidy()
    ensures { TidiedTermsAreTidy }
{}

/// A loop's variable or an id alone stays when it is made tidy: so does the offset of a vector at a
/// turn, in a loop of one turn too.
pub fn turns_stay()
    ensures { TurnsStay }
{}

/// Tidy formulas are such.
pub fn tidy_formulas_make_tidy()
    ensures { TidyFormulasMakeTidy }
{
    tidy_formulas_are_irredundant();
    tidy_formulas_are_short();
}
