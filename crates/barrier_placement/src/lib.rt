//! Where barriers stand between the phases of a work-group's body, so that
//! conflicting phases are kept apart.
#![tactic(auto)]

mod conflicts;
pub mod laws;
pub mod placing;
pub mod touches;

pub use placing::{Barrier, Barriers, place};
pub use touches::Touch;
