//! What takes bytes.
ghost use Rattle.std.specs.Prelude.{
  ◌≡◌,
  ◌≤◌,
  ◌<◌,
  ℕ,
  List,
  Some,
  None,
  Option,
  IfOk,
  OnOk,
  length,
  take,
};
ghost use Rattle.std.specs.Io.KnownBytes.{Appends, WriteAppends};
ghost use Rattle.lift_io.specs.Causes.{HasCause};

/// A write failed, and took nothing.
#[derive(Clone, Copy)]
pub struct WriteFailed;

/// What takes bytes.
pub trait Sink {
    /// The bytes taken so far, where they are told.
    ghost taken: { Self → Option (List ℕ) };

    /// How often a write has failed. The count stands still at its type's end.
    ghost faults: { Self → ℕ };

    /// Takes the first bytes of the piece, at least one where there is one, and answers how many.
    /// An empty piece gives 0. It takes no memory.
    fn write(&mut self, piece: &[u8]) -> Result<usize, WriteFailed>
        ensures within { IfOk result (λ k. k ≤ length piece.now) }
        ensures some { IfOk result (λ k. 0 < length piece.now → 0 < k) }
        ensures none { length piece.now ≡ 0 → result ≡ Ok 0 }
        ensures bytes { WriteAppends (taken self.old) (taken self.new) result piece.now }
        ensures cause { HasCause (faults self.old) (faults self.new) result };
}

/// Writes all the bytes, or at an error a prefix of them. It takes no memory.
pub fn write_whole<S: Sink>(sink: &mut S, bytes: &[u8]) -> Result<(), WriteFailed>
    ensures all { OnOk result (Appends (S.taken sink.old) (S.taken sink.new) bytes.now) }
    ensures prefix { (k : ℕ) × (k ≤ length bytes.now)
        × Appends (S.taken sink.old) (S.taken sink.new) (take k bytes.now) }
    ensures cause { HasCause (S.faults sink.old) (S.faults sink.new) result }
{
    let mut done = 0usize;
    while done < bytes.len() {
        let rest = &bytes[done..];
        let count = sink.write(rest)?;
        done += count;
    }
    Ok(())
}

/// A sink that takes everything, tells nothing and never fails.
#[derive(Drop)]
pub struct NeverFails;

impl Sink for NeverFails {
    ghost taken = { λ s. None };

    ghost faults = { λ s. 0 };

    fn write(&mut self, piece: &[u8]) -> Result<usize, WriteFailed> {
        Ok(piece.len())
    }
}
