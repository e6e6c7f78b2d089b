//! Kernels as text.
#![tactic(auto)]

mod place;
mod text;

pub use text::{print, print_sequence};
