//! Who does the work: whether a term's nest of maps, folds and copies can be printed.
#![tactic(auto)]

mod judging;
mod rules;

pub use judging::{NestNo, judge};
