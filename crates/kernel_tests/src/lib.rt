//! Tests of kernels' texts: what is read and what is printed.
#![tactic(auto)]

#[cfg(test)]
mod deep;
#[cfg(test)]
mod forms;
#[cfg(test)]
mod nests;
#[cfg(test)]
mod printing;
#[cfg(test)]
mod reading;
#[cfg(test)]
mod sequences;
