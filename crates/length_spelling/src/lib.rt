//! How index expressions and lengths are spelled in a kernel.
#![tactic(auto)]

pub mod laws;
pub mod spelling;
pub mod turn;

pub use spelling::{operator_of, spell_index, spell_length, spelled_length};
pub use turn::Turn;
