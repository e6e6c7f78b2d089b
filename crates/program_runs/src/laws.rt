//! Laws of the stages, and of runs of the kernels of one program.
ghost use Rattle.program_runs.specs.Alike.{PrintedKernelsGoAlike, SequencesRunAlike, TextsRunAlike};
ghost use Rattle.program_runs.specs.Costs.{TextsHaveCosts};
ghost use Rattle.program_runs.specs.Table.{StagesEndOnce};

use compilation::laws::{compilation_ends_once, sequences_end_once};
use group_form::kernels::kernels_go_alike;
use kernel_spelling::{one_kernel, texts_are_of_one_sequence};
use kernel_tree::laws::layout;
use launch_file::laws::{
    files_are_not_refused, files_give_one_thing, stages_files_are_not_refused,
    stages_files_give_one_thing,
};
use launch_lengths::laws::bases_come_back;
use lift_tree::laws::{terms_have_one_type, values_have_their_types};
use nest_premises::groups::legal_terms_are_printable;
use nest_premises::laws::rows_are_on_top;
use program_source::laws::{sources_end_once, typed_programs_are_proper};
use term_traffic::laws::runs_have_traffic;
use value_lists::laws::lists_have_lengths;

/// The stages of each command come to one end: they pass, or one of them stops for one cause.
pub fn one_end()
    ensures { StagesEndOnce }
{
    sources_end_once();
    compilation_ends_once();
    sequences_end_once();
    typed_programs_are_proper();
    files_are_not_refused();
    files_give_one_thing();
    stages_files_are_not_refused();
    stages_files_give_one_thing();
}

/// Any two kernels that are printed for one legal term, by the printer of its kind, have at one
/// launch and from the same contents the same events with the same accesses, under every schedule.
pub fn printed_kernels_go_alike()
    ensures { PrintedKernelsGoAlike }
{
    kernels_go_alike();
    legal_terms_are_printable();
}

/// The lines of a run are those of every text of the program's kernel, whatever stands in its
/// indices and bounds, and so of the text that is written for the same files.
pub fn texts_run_alike()
    ensures { TextsRunAlike }
{
    one_kernel();
    rows_are_on_top();
    terms_have_one_type();
    compilation_ends_once();
    printed_kernels_go_alike();
}

/// The line of runs in order is that of every text of the program's kernels in order, whatever
/// stands in their indices and bounds, and so of the text that is written for the same files.
pub fn sequences_run_alike()
    ensures { SequencesRunAlike }
{
    lists_have_lengths();
    printed_kernels_go_alike();
    rows_are_on_top();
    sequences_end_once();
    texts_are_of_one_sequence();
    values_have_their_types();
}

/// The lines of a cost tell the loads, stores and releases of every run of every text of the
/// program's kernel, and so of the text that is written for the same files.
pub fn texts_have_costs()
    ensures { TextsHaveCosts }
{
    bases_come_back();
    compilation_ends_once();
    layout();
    legal_terms_are_printable();
    rows_are_on_top();
    runs_have_traffic();
    terms_have_one_type();
}
