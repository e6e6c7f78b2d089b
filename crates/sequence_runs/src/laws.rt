//! Laws of kernels in order, each carried by a function that does nothing.

ghost use Rattle.sequence_runs.specs.Laws.{LastKernelsMakeTheOutput, OneKernelKeepsTheHeadline, SequencesKeep};

use kernel_sequence::laws::{more_inputs_keep_the_value, sequences_leave_the_value};
use kernel_tree::laws::inputs_stay;
use lift_tree::laws::{typed_nodes_type_the_term, values_have_their_types};
use pattern_types::laws::outputs_belong;
use value_lists::laws::lists_have_lengths;

/// Where a program's term is cut into the terms of kernels, and each kernel is its term's, then at
/// every list of admissible launches with one valuation, on all inputs, whatever scratch and other
/// memory hold, when the kernels are run in order, each from the buffers that the one before left
/// after it stopped: every run has no fault and at most its bound's events, and writes each cell of
/// its kernel's output at most once, by its owner; and the last kernel's can stop only with the
/// program's value in the output's buffers.
pub fn sequences_keep()
    ensures { SequencesKeep }
{
    inputs_stay();
    lists_have_lengths();
    more_inputs_keep_the_value();
    outputs_belong();
    sequences_leave_the_value();
    typed_nodes_type_the_term();
    values_have_their_types();
}

/// What is said of kernels in order is, of one kernel, what a kernel owes that is run alone: it may
/// be started, and every run of it keeps the headline with its term's value.
pub fn one_kernel_keeps_the_headline()
    ensures { OneKernelKeepsTheHeadline }
{
    lists_have_lengths();
    typed_nodes_type_the_term();
    values_have_their_types();
}

/// What the last kernel makes is of the type of the whole term.
pub fn last_kernels_make_the_output()
    ensures { LastKernelsMakeTheOutput }
{}
