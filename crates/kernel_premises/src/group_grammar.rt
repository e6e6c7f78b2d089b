//! Laws of kernels printed for maps over work-groups, each carried by a function that does nothing.

ghost use Rattle.kernel_premises.specs.GroupGrammar.{GridKernelsAreOfTheGrammar, GroupKernelsAreOfTheGrammar, NeededAreFlagged};

use group_form::laws::local_arrays_are_counted;
use printed_form::grammar::{maps_are_of_the_grammar, terms_are_printed_within, views_stay_within};

/// What the printer makes of a typed term that is a map over work-groups is a kernel of the kernel
/// grammar, where the term's numbers are words, its lengths are spelled in the grammar, barriers
/// have flags, layouts, elements and loops don't nest too deep, and groups
/// may have the size that is fixed.
pub fn group_kernels_are_of_the_grammar()
    ensures { GroupKernelsAreOfTheGrammar }
{
    local_arrays_are_counted();
    maps_are_of_the_grammar();
    terms_are_printed_within();
    views_stay_within();
}

/// The same of a map over rows of work-groups around one over the groups of a row.
pub fn grid_kernels_are_of_the_grammar()
    ensures { GridKernelsAreOfTheGrammar }
{
    maps_are_of_the_grammar();
    terms_are_printed_within();
    views_stay_within();
}

/// Needed barriers have flags.
pub fn needed_are_flagged()
    ensures { NeededAreFlagged }
{}
