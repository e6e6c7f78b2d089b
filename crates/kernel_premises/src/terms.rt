//! Laws of the kernels that terms are printed as, each carried by a function that does nothing.

ghost use Rattle.kernel_premises.specs.Terms.{FormulasSpellLengths, KernelsAreInTheGrammar, SoundPartsAreSpelled, TermsArePrinted};

use crate::group_grammar::{
    grid_kernels_are_of_the_grammar, group_kernels_are_of_the_grammar, needed_are_flagged,
};
use crate::limits::{terms_can_be_written, terms_nest_within};
use crate::soundness::lowered_terms_have_sound_parts;
use group_form::kernels::kernels_are_printed;
use length_spelling::laws::{lengths_are_bounds, lengths_are_spelled};
use printed_form::grammar::kernels_are_of_the_grammar;

/// At each admissible launch the formulas of lengths spell them.
pub fn formulas_spell_lengths()
    ensures { FormulasSpellLengths }
{
    lengths_are_spelled();
}

/// In every kernel that has a program's sizes, the inputs, the output and the lengths of a term of
/// sound parts are spelled.
pub fn sound_parts_are_spelled()
    ensures { SoundPartsAreSpelled }
{
    lengths_are_bounds();
}

/// A legal term that can be printed, of at most 24 layouts and at most 512 high, is printed with
/// its needed barriers as a kernel of the kernel grammar.
pub fn kernels_are_in_the_grammar()
    ensures { KernelsAreInTheGrammar }
{
    grid_kernels_are_of_the_grammar();
    group_kernels_are_of_the_grammar();
    kernels_are_of_the_grammar();
    lowered_terms_have_sound_parts();
    needed_are_flagged();
    sound_parts_are_spelled();
    terms_can_be_written();
    terms_nest_within();
}

/// The kernel that a printable term is printed as, with its needed barriers, is printed for it, at
/// each admissible launch.
pub fn terms_are_printed()
    ensures { TermsArePrinted }
{
    formulas_spell_lengths();
    kernels_are_printed();
}
