//! Marks of the cells that work-items may race for, which tell whether an access races with an
//! earlier one of the run.
//!
//! A mark has a fixed size, whatever the number of work-items and of releases: where a run is
//! without a race so far, few things matter of a cell's accesses.
#![tactic(auto)]

pub mod cells;
pub mod filled;
pub mod laws;
pub mod marks;
pub mod rows;
mod tracked;
