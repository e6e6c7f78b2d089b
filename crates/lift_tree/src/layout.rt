//! Layouts that a term is read through and written through.

ghost use Rattle.std.specs.Prelude.{◌≡◌, IfOk};

use crate::length::Product;
use std::alloc::{AllocError, Global};

/// A layout of an array in which each scalar of it has one place. So what is stored through it has
/// one place too, and it may stand in writing position, but for `AsVector`.
#[derive(Debug, Drop)]
pub enum Layout {
    /// The rows of an array one after another.
    Join,
    /// The columns of an array of rows.
    Transpose,
    /// The consecutive pieces of this length, in elements.
    Split(Product),
    /// The elements from the last to the first.
    Reverse,
    /// The elements this far from one another, from the first on, then those
    /// from the second on, and so on.
    Stride(Product),
    /// The vectors of four consecutive numbers of an array of numbers.
    AsVector,
    /// The numbers of an array of vectors.
    AsScalar,
}

impl Layout {
    /// The same layout in memory of its own.
    pub fn copy(&self, alloc: Global) -> Result<Self, AllocError>
        ensures { IfOk result (λ l. l ≡ self.now) }
    {
        match self {
            Layout::Join => Ok(Layout::Join),
            Layout::Transpose => Ok(Layout::Transpose),
            Layout::Split(length) => Ok(Layout::Split(length.copy(alloc)?)),
            Layout::Reverse => Ok(Layout::Reverse),
            Layout::Stride(step) => Ok(Layout::Stride(step.copy(alloc)?)),
            Layout::AsVector => Ok(Layout::AsVector),
            Layout::AsScalar => Ok(Layout::AsScalar),
        }
    }
}
