//! Kernel text, read back as a kernel.
#![tactic(auto)]

mod declarations;
mod error;
mod expressions;
mod form;
mod lanes;
mod lines;
mod made;
mod parameters;
mod pieces;
mod read;
mod sequence;
mod statements;

pub use error::KernelNo;
pub use read::read_kernel;
pub use sequence::read_sequence;
