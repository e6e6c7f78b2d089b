//! Lengths at a launch, worked out without memory.
#![tactic(auto)]

pub mod laws;
mod lengths;

pub use lengths::length_of;
