//! Files and sinks: all that the compiler reads and writes goes through these two traits.
//!
//! Each has a count of its faults, so that a contract can say that an error was the outside's. The
//! host's adapters tell no contents; those in memory tell all.
#![tactic(auto)]

mod files;
mod host;
mod memory_files;
mod memory_sink;
mod sinks;

pub use files::{Files, LONGEST, ReadNo};
pub use host::{HostFiles, HostSink};
pub use memory_files::{AskedText, MemoryFiles, NamedText};
pub use memory_sink::MemorySink;
pub use sinks::{NeverFails, Sink, WriteFailed, write_whole};
