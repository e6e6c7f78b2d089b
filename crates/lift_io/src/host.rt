//! The system's files and streams: the trusted edge. They tell no contents.
ghost use Rattle.std.specs.Prelude.{◌≡◌, ℕ, List, None};

use crate::files::{Files, ReadNo};
use crate::sinks::{Sink, WriteFailed};
use std::alloc::Global;
use std::io::{ErrorKind, Read, Write};
use std::{fs, io, rt};

/// The system's files. Each failed read counts for every name.
#[derive(Drop)]
pub struct HostFiles<R: rt::Files + Drop> {
    rt: R,
    faults: u64,
}

impl<R: rt::Files + Drop> HostFiles<R> {
    /// No read has failed yet.
    pub fn new(rt: R) -> HostFiles<R>
        ensures { (name : List ℕ) → ⟦<HostFiles<R> as Files>⟧.faults result name ≡ 0 }
    {
        HostFiles { rt, faults: 0 }
    }

    fn first_bytes(&self, alloc: Global, name: &str, most: u64) -> io::Result<Vec<u8>> {
        let file = fs::open(&self.rt, name)?;
        let mut bytes = Vec::new(alloc);
        file.take(most).read_to_end(&mut bytes)?;
        Ok(bytes)
    }
}

impl<R: rt::Files + Drop> Files for HostFiles<R> {
    ghost told = { λ s n. None };

    ghost faults = { λ s n. s.faults };

    ghost asked = { λ s. None };

    fn read_all(&mut self, alloc: Global, name: &str, limit: usize) -> Result<Vec<u8>, ReadNo> {
        match self.first_bytes(alloc, name, limit as u64 + 1) {
            Ok(bytes) if bytes.len() > limit => Err(ReadNo::TooLong(limit as u64 + 1)),
            Ok(bytes) => Ok(bytes),
            Err(error) if error.kind() == ErrorKind::OutOfMemory => Err(ReadNo::Memory),
            Err(_) => {
                self.faults = self.faults.saturating_add(1);
                Err(ReadNo::Failed)
            }
        }
    }
}

/// A stream of the system, as standard output.
#[derive(Drop)]
pub struct HostSink<W: Write + Drop> {
    stream: W,
    faults: u64,
}

impl<W: Write + Drop> HostSink<W> {
    /// No write has failed yet.
    pub fn new(stream: W) -> HostSink<W>
        ensures { ⟦<HostSink<W> as Sink>⟧.faults result ≡ 0 }
    {
        HostSink { stream, faults: 0 }
    }
}

impl<W: Write + Drop> Sink for HostSink<W> {
    ghost taken = { λ s. None };

    ghost faults = { λ s. s.faults };

    fn write(&mut self, piece: &[u8]) -> Result<usize, WriteFailed> {
        if piece.is_empty() {
            return Ok(0);
        }
        match self.stream.write(piece) {
            Ok(count) if count > 0 => Ok(count),
            _ => {
                self.faults = self.faults.saturating_add(1);
                Err(WriteFailed)
            }
        }
    }
}
