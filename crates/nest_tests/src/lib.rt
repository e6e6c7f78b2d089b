//! Tests of nests: programs and scripts as texts, and whether the last term is legal, printed and
//! within its limits, and which memory it takes.
#![tactic(auto)]

#[cfg(test)]
mod buffers;
#[cfg(test)]
mod kernels;
#[cfg(test)]
mod lowering;
#[cfg(test)]
mod nests;
#[cfg(test)]
mod owners;
