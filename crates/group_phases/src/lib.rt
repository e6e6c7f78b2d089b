//! Maps over work-groups above what one item's code does: phases with barriers between them, also
//! where they are printed terms.
#![tactic(auto)]

pub mod laws;
