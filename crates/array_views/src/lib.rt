//! Views of arrays: what stands for each scalar of a value, and where each scalar of it goes, a
//! private variable or a cell of an array.
//!
//! The views are those of Lift's code generator (Steuwer, Remmelg and Dubach, CGO 2017): a layout
//! isn't carried out, it changes the indices with which what it stands on is read or written.
#![tactic(auto)]

pub mod access;
pub mod array;
pub mod count;
pub mod extent;
pub mod laws;
pub mod layout;
pub mod load_set;
pub mod node;
pub mod placed;
pub mod stack;
pub mod view;

pub use access::{Access, Cell};
pub use array::ArrayKind;
pub use count::{Count, held_count};
pub use load_set::LoadSet;
pub use stack::{IndexStack, PairStack};
pub use view::View;
