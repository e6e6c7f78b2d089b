//! The buffers of a term's copies to local and private memory, and the limits on a term's layouts
//! and on these buffers.
#![tactic(auto)]

pub mod allocation;
pub mod buffers;
pub mod copies;
pub mod layouts;
