//! What a legal nest gives the printed form: a typed term whose nest is legal can be lowered, and
//! what it is lowered to stands for one work-item, over all of them, over work-groups, or over
//! rows of these, and can be printed as that.
#![tactic(auto)]

pub mod groups;
pub mod laws;
