//! A phase's uses of arrays.

ghost use Rattle.std.specs.Prelude.{◌↔◌, IsTrue};

/// A phase's use of an array.
#[derive(Clone, Copy)]
pub struct Touch {
    /// The phase, from 0.
    pub phase: u32,
    /// The array: local and global arrays are numbered apart.
    pub buffer: u32,
    /// Whether the phase writes the array; else it reads it.
    pub writes: bool,
    /// Whether each item uses no cell of the array but its own.
    pub aligned: bool,
    /// Whether the array is local; else it is global.
    pub local: bool,
}

impl Touch {
    ghost use Rattle.barrier_placement.specs.Conflicts.{Clash};

    /// Whether two phases with these uses conflict.
    pub fn clashes(&self, other: &Touch) -> bool
        ensures { IsTrue result ↔ Clash self.now other.now }
    {
        self.local == other.local
            && self.buffer == other.buffer
            && (self.writes || other.writes)
            && !(self.aligned && other.aligned)
    }
}
