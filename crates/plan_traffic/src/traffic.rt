//! The loads and stores of a work-item.

/// The loads and stores of a work-item, each held at 2^64 - 1. One of four cells is four.
#[derive(Clone, Copy)]
pub struct Traffic {
    pub global_loads: u64,
    pub global_stores: u64,
    pub local_loads: u64,
    pub local_stores: u64,
}
