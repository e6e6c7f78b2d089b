//! Why a text is no kernel's.

ghost use Rattle.std.specs.Prelude.{◌≡◌};
ghost use Rattle.kernel_reader.specs.declared.error.KernelNo.TheVariants.{Memory};

use std::alloc::{AllocError, AllocFailed};

/// Why no kernel was read.
#[derive(Drop)]
pub enum KernelNo {
    /// The text is no kernel's: the byte at which the first piece begins at which it doesn't go on;
    /// the text's length, if that is its end.
    Syntax { offset: usize },
    /// Memory ran out.
    Memory,
}

impl From<AllocError> for KernelNo {
    ghost from_gives = { λ _ e. e ≡ Memory };

    fn from(_e: AllocError) -> KernelNo {
        KernelNo::Memory
    }
}

impl<T: Drop> From<AllocFailed<T>> for KernelNo {
    ghost from_gives = { λ _ e. e ≡ Memory };

    fn from(_e: AllocFailed<T>) -> KernelNo {
        KernelNo::Memory
    }
}
