//! Places with flags, of which the flagged ones are counted in a tree: the k-th flagged place of 2
//! ^ n is found in n looks at counts, and a flag is set in as many sums.
#![tactic(auto)]

mod counts;
mod nodes;
pub mod places;
pub mod steps;
