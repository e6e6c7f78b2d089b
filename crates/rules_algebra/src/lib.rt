//! Seventeen rewrite rules of Lift (ICFP 2015, CGO 2018): those that rest on the patterns' algebra
//! alone.
#![tactic(auto)]

mod fusing;
mod inlining;
pub mod laws;
mod layouts;
mod node_types;
mod padding;
mod parts;
pub mod rule;
mod steps;
mod strides;

pub use rule::{Rule, apply};
