//! From typed terms to the intermediate representation, after Lift IR (CGO 2017): layouts are
//! views, maps have kinds, writing is explicit.
#![tactic(auto)]

pub mod loads;
pub mod lower;
pub mod place;
mod strides;
pub mod term;
