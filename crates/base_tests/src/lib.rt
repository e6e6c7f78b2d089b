//! Tests of the crates at the base: files and sinks, the scalar operators, lengths, the command
//! line, and terms.
#![tactic(auto)]

#[cfg(test)]
mod files;
#[cfg(test)]
mod lengths;
#[cfg(test)]
mod operators;
#[cfg(test)]
mod terms;
#[cfg(test)]
mod words;
