//! The printed form: which kernels are printed for a term of the intermediate representation, with
//! any index expressions of the right values; a printer as a function; what holds of every printed
//! kernel (`laws`); and that what the printer makes is of the kernel grammar (`grammar`).
#![tactic(auto)]

pub mod grammar;
pub mod laws;
