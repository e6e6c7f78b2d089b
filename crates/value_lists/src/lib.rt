//! Values in lists, one list for each pair component, in row-major order: how buffers hold them.
#![tactic(auto)]

pub mod laws;
mod lists;
mod values;

pub use lists::add_lists;
pub use values::{blank_lists, element_number, length_at, number_in, width};
