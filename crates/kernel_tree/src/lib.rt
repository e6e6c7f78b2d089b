//! Kernels as trees, and the device that runs them: launches, events, runs, races, faults and
//! bounds.
#![tactic(auto)]

pub mod events;
pub mod launches;
pub mod laws;
pub mod tree;
