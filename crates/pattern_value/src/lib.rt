//! The source value of the terms of the Lift pattern language, on whole nested lists.
#![tactic(auto)]

mod evaluate;
mod lanes;
mod layout;
mod lent;
mod operator;
mod part;
mod scope;
mod value;

pub use value::value_of;
