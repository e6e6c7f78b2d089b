//! A machine that takes a kernel's events one at a time, as the device of `kernel_tree` has them.
//!
//! It holds the kernel's text as lines, each work-item with the number of its line and the turns of
//! the loops around it, and all memory. What it does is said by the relation `StandsFor` of a
//! machine and a run: where a machine stands for a run, it tells that run's enabled events, whether
//! all work-items have ended, and what is seen of an event that is added to the run.
#![tactic(auto)]

mod change;
mod four;
mod ids;
mod items;
mod line;
mod machine;
mod memory;
mod own;
mod turn;
mod value;
mod want;

pub use machine::Machine;
