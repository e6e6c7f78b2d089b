//! Launch files of programs of the Lift pattern language, the line that a run or an evaluation
//! prints, and the lines of a trace.
#![tactic(auto)]

mod asked;
pub mod file;
mod keys;
pub mod laws;
mod length;
pub mod line;
mod lookup;
mod numbers;
mod passing;
mod reading;
pub mod refusal;
pub mod result;
mod sizes;
pub mod stages;
pub mod trace;
mod values;
