//! The traffic of a planned term: each work-item's loads and stores, and each group's releases, at
//! an admissible launch. No run is made and no memory is taken.
#![tactic(auto)]

pub mod counting;
pub mod laws;
pub mod traffic;
