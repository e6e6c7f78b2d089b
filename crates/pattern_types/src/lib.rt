//! Types of programs of the Lift pattern language: the type of each node of a term, or the first
//! rule or limit that is passed.
#![tactic(auto)]

mod arrays;
mod belonging;
mod fault;
pub mod laws;
mod lengths;
mod nodes;
mod programs;
pub mod refusal;
mod rows;

pub use belonging::{belongs_to, is_proper};
pub use programs::{input_types, type_of, typed_next};
pub use refusal::{Rule, Spot, TypeLimit, TypeRefusal};
