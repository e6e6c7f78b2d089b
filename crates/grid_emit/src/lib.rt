//! The statements of a lowered term that is a map over rows of work-groups around one over the
//! groups of a row, with the barriers between its phases.
#![tactic(auto)]

pub mod groups;
pub mod kernel;
pub mod statements;
