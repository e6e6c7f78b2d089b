//! Plans of legal terms: what each is lowered to, who runs it, and over work-groups its phases,
//! their uses of local arrays, and the barriers that they need.
#![tactic(auto)]

mod component;
pub mod kind;
mod named;
mod origin;
pub mod phases;
pub mod planned;
pub mod planning;
mod scope;
mod uses;
mod walk;
mod way;
