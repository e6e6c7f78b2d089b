//! The intermediate representation between typed terms of the source and kernels, after Lift IR
//! (CGO 2017): terms with views and address spaces, their values by position, what they are lowered
//! from, and whose each scalar is.
#![tactic(auto)]

pub mod laws;
