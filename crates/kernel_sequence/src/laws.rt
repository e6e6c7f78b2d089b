//! Laws of the cut.

ghost use Rattle.kernel_sequence.specs.Laws.{CutsKeepTheValue, KernelsAreCounted, KernelsAreSound, KernelsHaveNoCut, KernelsNameEarlierArrays, MoreInputsKeepTheValue, SequencesLeaveTheValue};

/// A term has one value, whatever inputs stand behind those that it names.
#[tactic(auto, using(crate::proofs::More::more_inputs_keep_the_value))]
pub fn more_inputs_keep_the_value()
    ensures { MoreInputsKeepTheValue }
{}

/// Where each scratch array holds its kernel's value, what is left of a term has the term's.
#[tactic(auto, using(crate::proofs::Kept::cuts_keep_the_value))]
pub fn cuts_keep_the_value()
    ensures { CutsKeepTheValue }
{}

/// A kernel's term names the program's inputs and the scratch arrays
/// of the kernels before it alone.
#[tactic(auto, using(crate::proofs::Names::kernels_name_earlier_arrays))]
pub fn kernels_name_earlier_arrays()
    ensures { KernelsNameEarlierArrays }
{}

/// Where the kernels are run in turn, each after those before it, the last leaves the term's value.
#[tactic(auto, using(crate::proofs::InTurn::sequences_leave_the_value))]
pub fn sequences_leave_the_value()
    ensures { SequencesLeaveTheValue }
{}

/// There is a kernel for each `then` that no binder is around, and one for the whole.
#[tactic(auto, using(crate::proofs::Count::parts_count))]
pub fn kernels_are_counted()
    ensures { KernelsAreCounted }
{}

/// No `then` is left in a kernel's term.
#[tactic(auto, using(crate::proofs::Whole::kernels_have_no_cut))]
pub fn kernels_have_no_cut()
    ensures { KernelsHaveNoCut }
{}

/// The kernels' terms of a sound term are sound, each over what its kernel may name.
#[tactic(auto, using(crate::proofs::Whole::kernels_are_sound))]
pub fn kernels_are_sound()
    ensures { KernelsAreSound }
{}
