//! The traffic of a lowered term: its loads and stores of global and local memory, item by item,
//! and the releases of each group, read off the term and the launch.
#![tactic(auto)]

pub mod laws;
