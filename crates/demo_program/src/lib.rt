//! The demo: a stencil by tiles, whose data a generator gives. Its program and script, which no
//! stage refuses; its launch; and its line.
#![tactic(auto)]

pub mod data;
pub mod laws;
pub mod line;
pub mod sum;
pub mod texts;
