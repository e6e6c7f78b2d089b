//! Reads the text of a program.
#![tactic(auto)]

mod alternatives;
mod grammar;
pub mod program;
mod reader;
pub mod refusal;
pub mod token;
pub mod word;
