//! Index expressions: their exact values, their values on words of 32 bits,
//! and the expressions of lengths.
#![tactic(auto)]

pub mod index;
pub mod laws;
pub mod length;
pub mod operation;
pub mod point;

pub use index::Index;
pub use length::length_index;
pub use operation::Operation;
pub use point::Point;
