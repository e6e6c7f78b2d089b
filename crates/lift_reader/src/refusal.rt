//! Why a program's text is refused.

ghost use Rattle.std.specs.Prelude.{◌≡◌};
ghost use Rattle.lift_reader.specs.declared.refusal.ReadRefusal.TheVariants.{Memory};

use std::alloc::{AllocError, AllocFailed};
use thiserror::Error;

/// A quantity of a program that has a limit.
#[derive(Clone, Copy, Debug, PartialEq, Eq)]
pub enum Quantity {
    /// At most 8.
    Sizes,
    /// At most 8.
    Inputs,
    /// At most 4,096: each term form of the output is one.
    Nodes,
}

/// Why a program's text is refused.
#[derive(Debug, Drop, Error)]
pub enum ReadRefusal {
    /// The text is in the grammar up to this token, counted from 1, which begins at this byte. The
    /// end of the text counts as a token.
    #[error("no program goes on at token {token}, byte {offset}")]
    Syntax { token: usize, offset: usize },
    /// The text is in the grammar, and this quantity is the first above its limit.
    #[error("limit {which:?}: {count}")]
    Limit { which: Quantity, count: u64 },
    /// Memory ran out.
    #[error("out of memory")]
    Memory,
}

impl From<AllocError> for ReadRefusal {
    ghost from_gives = { λ _ e. e ≡ Memory };

    fn from(_e: AllocError) -> ReadRefusal {
        ReadRefusal::Memory
    }
}

impl<T: Drop> From<AllocFailed<T>> for ReadRefusal {
    ghost from_gives = { λ _ e. e ≡ Memory };

    fn from(_e: AllocFailed<T>) -> ReadRefusal {
        ReadRefusal::Memory
    }
}
