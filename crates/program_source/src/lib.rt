//! A program's text: the program with its types, and the terms that a script makes of it.
#![tactic(auto)]

pub mod laws;
mod source;
mod terms;

pub use source::typed_source;
pub use terms::{LastTerm, last_term, source_terms, steps_text};
