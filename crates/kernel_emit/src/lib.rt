//! The kernel of a plan: printed as its kind says, with simplified indices and bounds. It is the
//! term's in every run, and its barriers serve.
#![tactic(auto)]

pub mod emit;
pub mod laws;
mod printed;
