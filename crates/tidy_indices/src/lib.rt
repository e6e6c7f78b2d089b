//! Simplified index expressions in a kernel: how they are spelled, and what stands for the indices
//! and bounds of a kernel, with the same values and no more nodes.
#![tactic(auto)]

pub mod copies;
pub mod laws;
pub mod places;
pub mod reading;
pub mod spans;
pub mod spelling;

pub use copies::copied;
pub use places::Place;
pub use spelling::spell_simplified;
