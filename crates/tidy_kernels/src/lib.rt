//! A pass over kernels: each index of a load or a store, each offset of four, and each bound of a
//! loop or an `if`, in a simpler form.
#![tactic(auto)]

pub mod laws;
pub mod pass;

pub use pass::tidied;
