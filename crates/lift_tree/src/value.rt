//! Values.

/// A number, a pair or a list.
#[derive(Debug, Drop)]
pub enum Val {
    Number(u32),
    Pair(Box<Val>, Box<Val>),
    List(Vec<Val>),
}
