//! What typing, a legal nest and the limits on a term give its kernel: it is of the kernel grammar,
//! and printed for the term at each admissible launch.
//!
//! `limits` says how deep indices, expressions and loops nest; `soundness` that a legal term has
//! sound parts; `terms` what its kernel is, by each printer, whose pieces are in `group_grammar`
//! for maps over work-groups; `arrays` which arrays it declares.
#![tactic(auto)]

pub mod arrays;
pub mod group_grammar;
pub mod limits;
pub mod soundness;
pub mod terms;
