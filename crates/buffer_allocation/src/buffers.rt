//! Buffers, and why a term has none.

ghost use Rattle.std.specs.Prelude.{◌≡◌, ◌≤◌, ◌*◌};
ghost use Rattle.std.specs.List.{sum};

use std::alloc::AllocError;

/// What a term has too much of.
#[derive(Clone, Copy, PartialEq, Eq)]
pub enum AllocLimit {
    /// Layouts that stand one on another over a buffer.
    Layouts,
    /// Bytes of all local arrays.
    Local,
    /// Cells of all private arrays.
    Private,
}

/// Why a term has no buffers.
#[derive(Drop)]
pub enum AllocNo {
    /// The first limit that is passed, and what is counted, which stands still at 2^64 - 1.
    Limit { which: AllocLimit, count: u64 },
    /// Memory ran out.
    Memory,
}

impl From<AllocError> for AllocNo {
    ghost use Rattle.buffer_allocation.specs.declared.buffers.AllocNo.TheVariants.{Memory};

    ghost from_gives = { λ _ e. e ≡ Memory };

    fn from(_: AllocError) -> AllocNo {
        AllocNo::Memory
    }
}

/// The buffers of a term's copies, one for each component, each by its length in scalars: in the
/// order of the copies, a copy after those in it. They keep within the limits on memory.
#[derive(Drop)]
pub struct Buffers {
    pub local: Vec<u64>,
    pub private: Vec<u64>,
    // A scalar takes four bytes.
    ghost local_bytes: { 4 * sum local.items ≤ 32768 },
    ghost private_cells: { sum private.items ≤ 256 },
}
