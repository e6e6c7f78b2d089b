//! The intermediate representation as a tree.

use lift_tree::term::{Dimension, Level, UnaryForm};
use lift_tree::ty::Ty;
use scalar_ops::op::Op;
use size_arith::Poly;

/// How a map is run.
#[derive(Clone, Copy, PartialEq, Eq)]
pub enum Kind {
    /// Over the launch's work-items, its work-groups, or the work-items of a group, along a
    /// dimension.
    Over(Level, Dimension),
    /// By one work-item.
    Sequential,
}

/// Where a copy lies, after the address spaces of OpenCL C 1.2, section 6.5.
#[derive(Clone, Copy, PartialEq, Eq)]
pub enum Space {
    Local,
    Private,
}

/// Which scalars of a bound element are loaded into private variables.
#[derive(Drop)]
pub enum LoadSet {
    Skip,
    Take,
    /// The four scalars of a vector, into one variable.
    TakeFour,
    /// Of a pair, so of each part.
    Each(Box<LoadSet>, Box<LoadSet>),
}

/// A layout of an array: a form that is one, of this type over an operand of that type.
#[derive(Drop)]
pub struct Layout {
    pub form: UnaryForm,
    pub ty: Ty,
    pub operand: Ty,
}

/// A map over an array of this length, whose body stands under one binder.
#[cycle(terms)]
#[derive(Drop)]
pub struct Map {
    pub kind: Kind,
    pub length: Poly,
    pub loads: LoadSet,
    pub array: Term,
    pub body: Term,
}

/// A fold over an array of this length, with an accumulator of this type, whose body stands under
/// two binders.
#[cycle(terms)]
#[derive(Drop)]
pub struct Fold {
    pub length: Poly,
    pub loads: LoadSet,
    pub accumulator: Ty,
    pub array: Term,
    pub start: Term,
    pub body: Term,
}

/// A term. A binder is counted from the nearest, which is 0; a fold binds the
/// element, then the accumulator.
#[cycle(terms)]
#[derive(Drop)]
pub enum Term {
    Literal(u32),
    Bound(u32),
    /// The input of this number.
    Source(u32),
    Apply(Op, Box<Term>, Box<Term>),
    /// The quotient or remainder by a number.
    ApplyNumber(Op, u32, Box<Term>),
    /// The operator lane by lane; an operand that is no vector stands for four equal lanes.
    ApplyLanes {
        operator: Op,
        left_vector: bool,
        right_vector: bool,
        left: Box<Term>,
        right: Box<Term>,
    },
    /// The quotient or remainder of each lane by a number.
    DivideLanes(Op, u32, Box<Term>),
    /// The second where the first isn't 0, else the third.
    Select(Box<Term>, Box<Term>, Box<Term>),
    Pair(Box<Term>, Box<Term>),
    Zip(Box<Term>, Box<Term>),
    First(Box<Term>),
    Second(Box<Term>),
    Reshape(Layout, Box<Term>),
    /// The value, an array, and the body under one binder.
    LetArray(Box<Term>, Box<Term>),
    /// The value, an element of this type, and the body under one binder.
    LetElement(Ty, Box<Term>, Box<Term>),
    Map(Box<Map>),
    Fold(Box<Fold>),
    /// An element of this type, in writing position.
    Store(Ty, Box<Term>),
    /// A copy of a value of this type, whose lengths name no size.
    Copy(Space, Ty, Box<Term>),
}
