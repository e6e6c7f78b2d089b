//! Simplified index expressions: the same values, no more nodes, and none that undoes another.
#![tactic(auto)]

pub mod below;
pub mod cells;
pub mod factors;
pub mod law;
pub mod laws;
pub mod literals;
pub mod ranges;
pub mod same;
pub mod simplify;

pub use law::{LAWS, Law};
pub use ranges::Ranges;
pub use simplify::simplified;
