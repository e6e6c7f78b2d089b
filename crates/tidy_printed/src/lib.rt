//! Printed kernels with simplified indices and bounds: a kernel that is printed for a term is
//! printed for it when it is tidied (`terms`), and what the printers make is tidy for the term then
//! (`indices`).
#![tactic(auto)]

pub mod indices;
pub mod terms;
