//! Lowered terms: what is around a node, which nests of maps, folds and copies can be
//! printed, and what stands where.
//!
//! The patterns are those of Lift IR (CGO 2017); the rules of the nest are this project's own.
#![tactic(auto)]

pub mod aligned;
pub mod around;
pub mod copies;
pub mod forms;
pub mod kind;
pub mod laws;
pub mod lowered;
pub mod node;
pub mod rule;
pub mod typed;
pub mod words;
