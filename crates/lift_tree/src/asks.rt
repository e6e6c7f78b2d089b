//! What a launch of a kernel has to meet.

use crate::local_size::LocalSize;

/// What a term and its script ask of each launch.
#[derive(Clone, Copy)]
pub struct Asks {
    /// One work-item alone runs it: it has no parallel map.
    pub alone: bool,
    /// It has a parallel map, and none along dimension 1: the launch is one row.
    pub flat: bool,
    /// The local size, where the script fixes it.
    pub local: Option<LocalSize>,
}
