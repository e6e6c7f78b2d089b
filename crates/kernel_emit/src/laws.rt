//! Laws of plans, each carried by a function that does nothing.

ghost use Rattle.kernel_emit.specs.Laws.{PlansCanBeEmitted, PlansGiveKernels};

use group_form::kernels::{kernels_keep, kernels_start};
use item_emit::laws::copies_are_short;
use kernel_premises::arrays::{allocated_are_declared, declared_are_few};
use kernel_premises::soundness::{least_sizes_are_admissible, lowered_terms_have_sound_parts};
use kernel_premises::terms::{kernels_are_in_the_grammar, terms_are_printed};
use lift_ir::laws::lowered_terms_serve;
use nest_premises::groups::legal_terms_are_printable;
use tidy_indices::laws::tidy_formulas_keep_values;
use tidy_printed::indices::{tidied_terms_are_tidy, tidy_formulas_make_tidy};
use tidy_printed::terms::tidied_kernels_are_printed;

/// What is printed for a plan is what the printer of its kind makes of its term, which is of the
/// kernel grammar.
pub fn plans_can_be_emitted()
    ensures { PlansCanBeEmitted }
{
    allocated_are_declared();
    copies_are_short();
    declared_are_few();
    kernels_are_in_the_grammar();
    least_sizes_are_admissible();
    legal_terms_are_printable();
    lowered_terms_have_sound_parts();
    lowered_terms_serve();
}

/// The kernel of a plan is the term's: printed for it at each admissible launch, with its value in
/// every run, barriers that serve, and tidy.
pub fn plans_give_kernels()
    ensures { PlansGiveKernels }
{
    kernels_keep();
    kernels_start();
    legal_terms_are_printable();
    plans_can_be_emitted();
    terms_are_printed();
    tidied_kernels_are_printed();
    tidied_terms_are_tidy();
    tidy_formulas_keep_values();
    tidy_formulas_make_tidy();
}
