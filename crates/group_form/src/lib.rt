//! The printed form of maps over work-groups: from a term to its phases, which code is printed for
//! it with which barriers, a printer, and what holds of every printed kernel (`laws`); which maps
//! need no loop (`chosen`); and what holds of the kernels of a program's term, whether its
//! work-items run it each by itself or together in groups (`kernels`).
#![tactic(auto)]

pub mod chosen;
pub mod kernels;
pub mod laws;
