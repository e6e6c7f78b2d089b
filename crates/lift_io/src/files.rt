//! Texts that are read by their names.
ghost use Rattle.std.specs.Prelude.{
  ◌≡◌,
  ◌≤◌,
  ◌<◌,
  ◌+◌,
  ◌∷◌,
  ℕ,
  List,
  [],
  Some,
  Option,
  IfOk,
  IfSome,
  length,
};
ghost use Rattle.lift_io.specs.Asked.{Asks};
ghost use Rattle.lift_io.specs.Causes.{Rose};

use std::alloc::{AllocError, Global};
use thiserror::Error;

/// Why a read gave no text.
#[derive(Clone, Copy, Debug, Error)]
pub enum ReadNo {
    /// The read failed, as the name's count of faults shows.
    #[error("the read failed")]
    Failed,
    /// The text is longer than was allowed: so many bytes were counted, one above the limit.
    #[error("{0} bytes or more")]
    TooLong(u64),
    /// Memory ran out.
    #[error("out of memory")]
    Memory,
}

impl From<AllocError> for ReadNo {
    ghost use Rattle.lift_io.specs.declared.files.ReadNo.TheVariants.{Memory};

    ghost from_gives = { λ _ e. e ≡ Memory };

    fn from(_: AllocError) -> ReadNo {
        ReadNo::Memory
    }
}

/// The greatest limit that a read may be given, in bytes.
pub const LONGEST: usize = 16_777_216;

/// Texts under their names.
pub trait Files {
    /// The text under a name, where it is told.
    ghost told: { Self → List ℕ → Option (List ℕ) };

    /// How often a read of that name has failed. The count stands still at its type's end.
    ghost faults: { Self → List ℕ → ℕ };

    /// The reads asked for so far, in order, where they are told: each name, and its limit.
    ghost asked: { Self → Option (List (List ℕ × ℕ)) };

    /// Reads the text under a name if it has at most `limit` bytes, and of a longer one takes a
    /// single byte more than that.
    fn read_all(&mut self, alloc: Global, name: &str, limit: usize) -> Result<Vec<u8>, ReadNo>
        requires { limit ≤ LONGEST }

        // A text that is told is given whole; one that is longer than the limit is never given.
        ensures text { IfOk result (λ bytes. IfSome (told self.old name.now)
            (λ text. bytes.items ≡ text)) }
        ensures within { IfOk result (λ bytes. length bytes.items ≤ limit) }
        ensures too_long { (n : ℕ) → result ≡ Err (ReadNo.TooLong n)
            → (n ≡ limit + 1) × IfSome (told self.old name.now) (λ text. limit < length text) }
        ensures failed { result ≡ Err ReadNo.Failed
            → Rose (faults self.old name.now) (faults self.new name.now) }

        // No count falls, and no text changes.
        ensures later { (n : List ℕ) → faults self.old n ≤ faults self.new n }
        ensures same { (n : List ℕ) → told self.new n ≡ told self.old n }

        // This name is asked for with this limit, and nothing else.
        ensures asks { Asks (asked self.old) (asked self.new) ((name.now, limit) ∷ []) };
}
