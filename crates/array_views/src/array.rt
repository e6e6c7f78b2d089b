//! The arrays of a kernel.

/// Where an array lies, and whose it is.
#[derive(Clone, Copy, PartialEq, Eq)]
pub enum ArrayKind {
    /// A buffer of an input.
    Input,
    /// A buffer of the output.
    Output,
    /// In a work-group's local memory.
    Local,
    /// In a work-item's private memory.
    Private,
}
