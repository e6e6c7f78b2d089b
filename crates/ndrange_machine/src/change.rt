//! What an event changes in its work-item.

use crate::four::Four;
use crate::turn::Turn;

/// What an event changes in its work-item, beside the line.
#[derive(Clone, Copy)]
pub enum Change {
    /// A private variable gets a word.
    Sets(u32, u32),
    /// A private variable of four words gets these.
    SetsFour(u32, Four),
    /// A loop begins with this turn.
    Begins(Turn),
    /// The innermost loop has another turn, which is this one.
    Repeats(Turn),
    /// The innermost loop is over.
    Leaves,
    /// Nothing.
    Keeps,
}
