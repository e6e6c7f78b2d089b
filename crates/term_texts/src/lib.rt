//! Terms written as texts, in the syntax of programs.
#![tactic(auto)]

mod names;
mod text;

pub use text::term_text;
