//! The operators of the pattern language on unsigned words of 32 bits, and those
//! of them that may be regrouped.
#![tactic(auto)]

pub mod op;
pub mod regroup;

pub use op::{Op, Reducer, apply, choose};
pub use regroup::Regroup;
