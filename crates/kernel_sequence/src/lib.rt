//! Several kernels in order: a term that is cut by `then` into the terms of kernels, each of which
//! may read what those before it made.
//!
//! The cut between kernels is this project's own.
#![tactic(auto)]

mod bound;
mod cutting;
pub mod laws;
mod no;
mod parts;
mod sequence;

pub use no::CutNo;
pub use sequence::cut;
