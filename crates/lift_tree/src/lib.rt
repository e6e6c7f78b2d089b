//! The trees of the Lift pattern language: terms with de Bruijn indices, programs, types, values
//! and places, and renumbering.
//!
//! The definitions in `specs/` say which types terms have, what their values are, and
//! what the limits on types count.
#![tactic(auto)]

pub mod asks;
pub mod input_type;
pub mod laws;
pub mod layout;
pub mod length;
pub mod local_size;
pub mod place;
pub mod program;
pub mod renumber;
pub mod term;
pub mod ty;
pub mod typed;
pub mod value;
