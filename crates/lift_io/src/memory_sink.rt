//! A sink in memory, for tests.
ghost use Rattle.std.specs.Prelude.{
  ◌≡◌,
  ◌≤◌,
  ◌<◌,
  ◌↔◌,
  ℕ,
  [],
  Some,
  Contains,
  IfOk,
  IsErr,
  length,
  vec_len,
  vec_capacity,
};
ghost use Rattle.std.specs.Io.KnownBytes.{WriteAppends};
ghost use Rattle.lift_io.specs.Causes.{HasCause, one_more};

use crate::sinks::{Sink, WriteFailed};
use std::alloc::{AllocError, Global};

/// A sink in memory. It takes at most `most` bytes a call, and `room` bytes in all; the calls whose
/// numbers are listed fail (the first call is number 1), and so does a call without room. A call
/// with an empty piece takes nothing, and doesn't fail.
#[derive(Drop)]
pub struct MemorySink {
    bytes: Vec<u8>,
    room: usize,
    most: usize,
    failing: Vec<u64>,
    calls: u64,
    faults: u64,
    ghost takes_some: { 0 < most },
    ghost has_room: { room ≤ vec_capacity bytes },
    ghost within: { vec_len bytes ≤ room },
}

impl MemorySink {
    ghost use Rattle.lift_io.specs.MemorySink.{IsNew};

    /// An empty sink. All memory that it will need is taken here.
    pub fn new(
        alloc: Global,
        room: usize,
        most: usize,
        failing: Vec<u64>,
    ) -> Result<MemorySink, AllocError>
        requires { 0 < most }
        ensures { IfOk result (λ s. IsNew s room most failing.items) }
    {
        let bytes = Vec::with_capacity(alloc, room)?;
        Ok(MemorySink {
            bytes,
            room,
            most,
            failing,
            calls: 0,
            faults: 0,
        })
    }

    // Counts a fault.
    fn fault(&mut self) -> WriteFailed
        ensures counts { self.new ≡ record self.old { faults = one_more self.old.faults } }
        ensures later { self.old.faults ≤ self.new.faults }
    {
        self.faults = self.faults.saturating_add(1);
        WriteFailed
    }

    /// The bytes taken so far.
    pub fn bytes(&self) -> &[u8]
        ensures { result.now ≡ self.now.bytes.items }
    {
        self.bytes.as_slice()
    }
}

impl Sink for MemorySink {
    ghost use Rattle.lift_io.specs.MemorySink.{IsCounted, NextFails, next_count};

    ghost taken = { λ s. Some s.bytes.items };

    ghost faults = { λ s. s.faults };

    fn write(&mut self, piece: &[u8]) -> Result<usize, WriteFailed>
        ensures within { IfOk result (λ k. k ≤ length piece.now) }
        ensures some { IfOk result (λ k. 0 < length piece.now → 0 < k) }
        ensures none { length piece.now ≡ 0 → result ≡ Ok 0 }
        ensures bytes { WriteAppends (Some self.old.bytes.items) (Some self.new.bytes.items) result
            piece.now }
        ensures cause { HasCause self.old.faults self.new.faults result }

        // Beyond what all sinks promise: how many bytes it takes, that just the calls that were
        // asked to fail do, that just they are faults, and that nothing else changes.
        ensures count { IfOk result (λ k. k ≡ next_count self.old piece.now) }
        ensures fails { IsErr result ↔ NextFails self.old piece.now }
        ensures counted { IsCounted self.old self.new result }
    {
        self.calls = self.calls.saturating_add(1);
        if piece.is_empty() {
            return Ok(0);
        }
        let count = self.most.min(piece.len()).min(self.room - self.bytes.len());
        if count == 0 {
            return Err(self.fault());
        }
        if self.failing.contains(&self.calls) {
            return Err(self.fault());
        }
        let Ok(()) = self.bytes.extend_from_slice(&piece[..count]) else {
            unreachable!()
        };
        Ok(count)
    }
}
