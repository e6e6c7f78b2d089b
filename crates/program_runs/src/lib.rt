//! Runs of compiled programs, the demo's and those of kernels in order among them, and the value of
//! a program without any kernel.
#![tactic(auto)]

mod cells;
mod command;
mod cost;
mod demo;
mod eval;
mod laws;
mod run;
mod sequence;

pub use command::{Command, command_text};
pub use laws::{
    one_end, printed_kernels_go_alike, sequences_run_alike, texts_have_costs, texts_run_alike,
};
pub use run::run_launch;
pub use sequence::run_sequence;
