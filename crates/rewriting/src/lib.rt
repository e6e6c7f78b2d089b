//! What the rewrite rules of Lift (ICFP 2015) share: what a rule answers, what stands around the
//! term that it rewrites, and what a rewrite keeps.
//!
//! A rule is a function of a term and of what stands around it (`Answer`, `Around` in
//! `specs/`). Each rule crate proves that its calls answer as their rules do, and that the
//! answer keeps the type and the value, and copies nothing but arrays where the term does.
#![tactic(auto)]

pub mod laws;
pub mod refused;

pub use refused::{Condition, Refused};
