//! Why a call ends without a result: its status, and the line that tells of it.
#![tactic(auto)]

mod failure;
mod lines;
mod names;
mod refusal;

pub use failure::Failure;
pub use refusal::Refusal;
