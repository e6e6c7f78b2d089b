//! The spelling of kernels: what the pieces of a kernel's text are, which alternative of a form
//! begins with which piece, and that each kernel has one text and each text is of one kernel.
#![tactic(auto)]

mod kinds;
mod laws;
mod names;

pub use kinds::{Kind, called, named_dimension, named_id, signed};
pub use laws::{
    fronts_are_of_one_kernel, fronts_are_refused_behind, one_cut, one_kernel, one_text,
    sequences_have_one_text, texts_are_of_one_sequence, texts_are_whole, whole_readings,
};
pub use names::sequence_name;
