//! Readings of a text by a grammar: an LL(1) parser with a stack of symbols and semantic actions.
//! What is still owed is the stack: a token has to come next, a form gives way to its one
//! alternative that begins with the next token, and a mark takes no token and changes the notes.
#![tactic(auto)]

mod error;
mod owed;
mod reading;

pub use error::ReadError;
pub use owed::{Owed, give, owe};
pub use reading::{Notes, read};
