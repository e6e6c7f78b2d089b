//! Why a term isn't cut into kernels.

ghost use Rattle.std.specs.Prelude.{◌≡◌};
ghost use Rattle.kernel_sequence.specs.declared.no.CutNo.TheVariants.{Memory};

use lift_tree::place::Place;
use lowered_tree::rule::NestRule;
use std::alloc::{AllocError, AllocFailed};

/// Why a term isn't cut into kernels.
#[derive(Drop)]
pub enum CutNo {
    /// The first `then` in preorder that a binder is around; the rule is `N13`.
    Nest { place: Place, rule: NestRule },
    /// There are so many kernels, more than sixteen; the count stands still at 2^64 - 1.
    Limit { count: u64 },
    /// Memory ran out.
    Memory,
}

impl From<AllocError> for CutNo {
    ghost from_gives = { λ _ no. no ≡ Memory };

    fn from(_: AllocError) -> CutNo {
        CutNo::Memory
    }
}

impl<T: Drop> From<AllocFailed<T>> for CutNo {
    ghost from_gives = { λ _ no. no ≡ Memory };

    fn from(_: AllocFailed<T>) -> CutNo {
        CutNo::Memory
    }
}
