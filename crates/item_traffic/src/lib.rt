//! The loads and stores of a work-item that runs a lowered term, read off the term and the launch:
//! no run is made, no memory is taken, and
//! the time is that of the term's nodes, not of its turns.
#![tactic(auto)]

pub mod access;
pub mod alike;
pub mod counts;
pub mod region;
