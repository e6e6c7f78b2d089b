//! The rules that say how a term is run, after the lowered patterns of Lift IR (CGO 2017): by which
//! work-items a map is run, and in which memory an array is kept.
//!
//! None of them changes the source value: lowered maps and folds have their plain form's, and an
//! array that is kept or copied has its own.
#![tactic(auto)]

pub mod laws;
pub mod rule;
mod vectors;

pub use rule::{Rule, apply};
