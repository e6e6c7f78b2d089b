//! Types as a program writes them.

ghost use Rattle.std.specs.Prelude.{◌≡◌, IfOk};
ghost use Rattle.lift_tree.specs.InputTypes.{written_of};

use crate::length::Length;
use std::alloc::{AllocError, Global};

/// The type of an input as written: its lengths are not worked out.
#[derive(Debug, Drop)]
pub enum InputType {
    Number,
    Pair(Box<InputType>, Box<InputType>),
    Array(Box<InputType>, Length),
}

impl InputType {
    /// An equal type in memory of its own.
    pub fn copy(&self, alloc: Global) -> Result<Self, AllocError>
        ensures { IfOk result (λ t. written_of t ≡ written_of self.now) }
    {
        match self {
            InputType::Number => Ok(InputType::Number),
            InputType::Pair(a, b) => {
                let a = Box::new(alloc, a.copy(alloc)?)?;
                Ok(InputType::Pair(a, Box::new(alloc, b.copy(alloc)?)?))
            }
            InputType::Array(element, length) => {
                let length = length.copy(alloc)?;
                Ok(InputType::Array(Box::new(alloc, element.copy(alloc)?)?, length))
            }
        }
    }
}
