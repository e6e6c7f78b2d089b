//! What the items of a kernel do in a whole run, read off its code and the launch: loads and stores
//! of any arrays, and releases. Control hangs on sizes and ids alone, so no run is looked at.
#![tactic(auto)]

pub mod laws;
