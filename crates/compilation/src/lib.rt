//! A program and a script, compiled: the script's last term, where its nest is legal and within
//! the limits, and the text of its kernel; or, where it is cut into the terms of several kernels,
//! the text of these in order.
#![tactic(auto)]

mod compile;
mod kernel;
pub mod laws;
mod place;
mod sequence;

pub use compile::{Compiled, compile_text};
pub use kernel::Placed;
pub use place::{PlacedText, place_text};
pub use sequence::{CompiledSequence, KernelOutline, compile_sequence};
