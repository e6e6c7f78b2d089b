//! The lines of a cost: what a planned term's items load and store at a launch, and how often its
//! groups are released, with no run.
#![tactic(auto)]

pub mod cost;
mod lines;
