//! Sizes by name, and lengths over them: polynomials whose operations are
//! exact at all admissible sizes.
#![tactic(auto)]

mod division;
mod insertion;
pub mod names;
mod numbers;
pub mod poly;
mod shown;

pub use names::{Name, Names, Sizes};
pub use poly::{Monomial, Poly, PolyNo, operations_are_exact, shifts_are_exact};
