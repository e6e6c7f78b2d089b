//! The statements of a lowered term that one work-item runs, or a map over the launch. The parts of
//! which they are made are public for maps over work-groups.
#![tactic(auto)]

pub mod accesses;
pub mod arguments;
pub mod block;
pub mod counts;
pub mod elements;
pub mod expressions;
pub mod kernel;
pub mod laws;
pub mod scope;
pub mod statements;
