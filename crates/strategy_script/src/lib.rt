//! Strategy scripts: which rule rewrites a term at which place, one step a line, and the terms that
//! the steps make.
#![tactic(auto)]

mod apply;
mod context;
pub mod faults;
mod growth;
pub mod laws;
mod lines;
mod local_size;
mod numbers;
mod places;
pub mod read;
pub mod rule;
pub mod run;
pub mod script;
mod steps;

pub use faults::{StepLimit, StepNo, Why};
pub use read::read_script;
pub use rule::Rule;
pub use run::{last_term, run_script, script_lines};
pub use script::{Script, ScriptLimit, ScriptNo, Step};
