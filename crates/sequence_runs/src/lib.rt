//! Several kernels run in order, each from the buffers that the one before left after it stopped:
//! what their runs owe.
#![tactic(auto)]

pub mod laws;
