//! Tests of the readers, the types and the values of programs, and of the lines of traces.
#![tactic(auto)]

#[cfg(test)]
mod launch_files;
#[cfg(test)]
mod program_text;
#[cfg(test)]
mod stages_files;
#[cfg(test)]
mod traces;
#[cfg(test)]
mod types;
#[cfg(test)]
mod values;
