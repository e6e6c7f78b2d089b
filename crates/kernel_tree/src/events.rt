//! Events, and what is seen of them.

use crate::tree::Array;

/// One step of the device.
#[derive(Clone, Copy, PartialEq, Eq)]
pub enum Event {
    /// A statement of the work-item of this number. Items are numbered row by row.
    Step(u32),
    /// The release of the barrier of the work-group of this number. Groups are numbered row by row.
    Release(u32),
}

/// A cell of shared memory: an array and the index in it, in elements. It is below 2^34: the offset
/// of four cells is a word and counts in fours.
#[derive(Clone, Copy, PartialEq, Eq)]
pub struct Cell {
    pub array: Array,
    pub index: u64,
}

/// An access of shared memory. Of four cells, which lie one behind another, it names the first.
#[derive(Clone, Copy, PartialEq, Eq)]
pub enum Access {
    Read(Cell),
    Write(Cell),
    ReadFour(Cell),
    WriteFour(Cell),
}

/// Why an event is a fault.
#[derive(Clone, Copy, PartialEq, Eq)]
pub enum FaultKind {
    /// Two work-items access one cell with nothing to order them, and one of them writes.
    Race,
    /// An access outside its array.
    OutOfRange,
    /// A divisor of 0.
    ZeroDivisor,
    /// All work-items of a group have stopped, and they neither all ended nor all stand at one
    /// barrier with the same turn numbers.
    Divergent,
    /// A loop's variable would reach 2^32.
    LoopWrap,
}

/// A fault, with the cell of a race; where several cells race, the least of them.
#[derive(Clone, Copy, PartialEq, Eq)]
pub struct Fault {
    pub kind: FaultKind,
    pub cell: Option<Cell>,
}

/// What is seen of an event: its access of shared memory and its fault, where it has one.
#[derive(Clone, Copy, PartialEq, Eq)]
pub struct Seen {
    pub event: Event,
    pub access: Option<Access>,
    pub fault: Option<Fault>,
}
