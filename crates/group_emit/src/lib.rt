//! The statements of a lowered term that is a map over work-groups, with the barriers between its
//! phases.
#![tactic(auto)]

pub mod counts;
pub mod groups;
pub mod kernel;
pub mod setting;
pub mod statements;
