//! Tests of the command, whole calls of it on files and sinks in memory.
#![tactic(auto)]

#[cfg(test)]
mod call;
#[cfg(test)]
mod costs;
#[cfg(test)]
mod demo;
#[cfg(test)]
mod groups;
#[cfg(test)]
mod hostile;
#[cfg(test)]
mod indices;
#[cfg(test)]
mod kernels;
#[cfg(test)]
mod kernels_in_order;
#[cfg(test)]
mod limits;
#[cfg(test)]
mod local_sizes;
#[cfg(test)]
mod nests;
#[cfg(test)]
mod outside;
#[cfg(test)]
mod rare;
#[cfg(test)]
mod refusals;
#[cfg(test)]
mod terms;
#[cfg(test)]
mod traces;
#[cfg(test)]
mod two_dimensions;
#[cfg(test)]
mod values;
#[cfg(test)]
mod vectors;
