//! Whose each cell of the output is.
#![tactic(auto)]

mod cells;
mod lengths;
mod walk;

pub use cells::owner;
