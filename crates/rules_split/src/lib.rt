//! The rewrite rules of Lift (ICFP 2015, section 4) that cut an array into pieces and work
//! piece by piece, the overlapped tiles of its stencils (CGO 2018, section 5), and the rule
//! that makes a reduction a fold.
//!
//! Each rule answers as its row in `specs/` says, and what it gives has the type and
//! the value of what it was given.
#![tactic(auto)]

mod applying;
mod building;
pub mod rule;
mod sides;

pub use applying::apply;
pub use rule::Rule;
