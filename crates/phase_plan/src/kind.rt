//! Who runs a planned term.

use crate::phases::Phases;

/// Who runs a planned term, and how work-groups do.
#[derive(Drop)]
pub enum Kind {
    /// One work-item: the term has no parallel map.
    Task,
    /// All work-items: a `mapGlb` is on top.
    OverLaunch,
    /// Work-groups, in phases: a `mapWrg` is on top.
    OverGroups(Phases),
    /// Rows of work-groups, in phases: a `mapWrg1` is on top.
    OverGrid(Phases),
}
