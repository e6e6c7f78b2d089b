//! Worked examples, on which nothing stands: small kernels with what the device makes of them, terms
//! with what they are lowered to, kernels with what every run of them leaves, and indices with what
//! is made of them. They show what the definitions say, and that the premises of the laws below can
//! be met, and by what.
#![tactic(auto)]

pub mod device;
pub mod groups;
pub mod indices;
pub mod kernels;
pub mod terms;
pub mod tiles;
