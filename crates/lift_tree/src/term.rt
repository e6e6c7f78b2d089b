//! Terms.

ghost use Rattle.std.specs.Prelude.{◌≡◌, IfOk, min, option_map};
ghost use Rattle.lift_tree.specs.Places.{child_at};
ghost use Rattle.lift_tree.specs.Tree as tree;
ghost use Rattle.lift_tree.specs.Tree.{tree_of, nodes, height};

use crate::layout::Layout;
use scalar_ops::op::Reducer;
use std::alloc::{AllocError, Global};

/// An operator on two numbers below 2^32. Division and remainder aren't among them, since their
/// right operand is a literal.
#[derive(Clone, Copy, Debug, PartialEq, Eq)]
pub enum Operator {
    /// One that may be regrouped.
    Regrouping(Reducer),
    Sub,
    Shl,
    Shr,
    Lt,
    Eq,
}

/// A form with one child: the patterns of Lift (ICFP 2015), its stencils' slide and pad
/// (CGO 2018), the address spaces of Lift IR (CGO 2017), and the cut between two
/// kernels, which is this project's own.
#[derive(Debug, Drop)]
pub enum UnaryForm {
    /// The whole quotient by this literal.
    Div(u32),
    /// The remainder by this literal.
    Rem(u32),
    /// A pair's left part.
    First,
    /// A pair's right part.
    Second,
    /// The elements of an array in another order, or in rows of another length.
    Layout(Layout),
    /// The pieces of the first length that begin at 0 and at each multiple of the second, while
    /// they fit, both in elements.
    Slide(u32, u32),
    /// So many copies of the first element before, and so many of the last after.
    Pad(u32, u32),
    /// The same value, kept in local memory.
    ToLocal,
    /// The same value, kept in private memory.
    ToPrivate,
    /// The same array, made by a kernel of its own, from which the kernels after it read it.
    Then,
}

/// A form with two children and no binder.
#[derive(Clone, Copy, Debug, PartialEq, Eq)]
pub enum BinaryForm {
    Operator(Operator),
    /// A pair of two values.
    Pair,
    /// The array of the pairs of two arrays' elements.
    Zip,
    /// The array of one element, the left fold. Its children are the array, then the start.
    Reduce(Reducer),
}

/// What a map spreads its turns over.
#[derive(Clone, Copy, Debug, PartialEq, Eq)]
pub enum Level {
    /// The work-items of all groups.
    Launch,
    /// The work-groups.
    Groups,
    /// The work-items of a group.
    Items,
}

/// A dimension of the index space (OpenCL C 1.2, section 6.12.1).
#[derive(Clone, Copy, Debug, PartialEq, Eq)]
pub enum Dimension {
    /// Dimension 0, along a row.
    X,
    /// Dimension 1, from row to row.
    Y,
}

/// How a map is run. All kinds have the same value.
#[derive(Clone, Copy, Debug, PartialEq, Eq)]
pub enum MapKind {
    /// Not yet decided: the map of a program.
    Plain,
    /// Over work-items or work-groups, along a dimension.
    Over(Level, Dimension),
    /// By one work-item.
    Sequential,
}

/// How a fold is run. Both kinds have the same value.
#[derive(Clone, Copy, Debug, PartialEq, Eq)]
pub enum FoldKind {
    /// Not yet decided: the fold of a program.
    Plain,
    /// By one work-item.
    Sequential,
}

/// A term. A variable is the number of binders between it and its own, 0 the nearest. Children
/// stand in the order in which places count them.
#[derive(Debug, Drop)]
pub enum Term {
    Variable(u32),
    Number(u32),
    /// The program's input of this number in the order of declaration, from 0.
    Input(u32),
    Unary(UnaryForm, Box<Term>),
    Binary(BinaryForm, Box<Term>, Box<Term>),
    /// The condition, the term where it isn't 0, and the one where it is.
    Select(Box<Term>, Box<Term>, Box<Term>),
    /// The value, and the body under one binder.
    Let(Box<Term>, Box<Term>),
    /// The array, and the body under one binder.
    Map(MapKind, Box<Term>, Box<Term>),
    /// The array, the start, and the body under two binders: the
    /// accumulator, and nearer the element.
    Fold(FoldKind, Box<Term>, Box<Term>, Box<Term>),
}

impl UnaryForm {
    /// The same form in memory of its own.
    pub fn copy(&self, alloc: Global) -> Result<Self, AllocError>
        ensures { IfOk result (λ f. f ≡ self.now) }
    {
        match self {
            UnaryForm::Div(n) => Ok(UnaryForm::Div(*n)),
            UnaryForm::Rem(n) => Ok(UnaryForm::Rem(*n)),
            UnaryForm::First => Ok(UnaryForm::First),
            UnaryForm::Second => Ok(UnaryForm::Second),
            UnaryForm::Layout(layout) => Ok(UnaryForm::Layout(layout.copy(alloc)?)),
            UnaryForm::Slide(size, step) => Ok(UnaryForm::Slide(*size, *step)),
            UnaryForm::Pad(before, after) => Ok(UnaryForm::Pad(*before, *after)),
            UnaryForm::ToLocal => Ok(UnaryForm::ToLocal),
            UnaryForm::ToPrivate => Ok(UnaryForm::ToPrivate),
            UnaryForm::Then => Ok(UnaryForm::Then),
        }
    }
}

impl Term {
    /// The form over this child.
    pub fn unary(alloc: Global, form: UnaryForm, a: Term) -> Result<Self, AllocError>
        ensures { IfOk result (λ t. tree_of t ≡ tree.Unary form (tree_of a)) }
    {
        Ok(Term::Unary(form, Box::new(alloc, a)?))
    }

    /// The form over these children.
    pub fn binary(alloc: Global, form: BinaryForm, a: Term, b: Term) -> Result<Self, AllocError>
        ensures { IfOk result (λ t. tree_of t ≡ tree.Binary form (tree_of a) (tree_of b)) }
    {
        let (a, b) = boxed_two(alloc, a, b)?;
        Ok(Term::Binary(form, a, b))
    }

    /// `yes` where the condition isn't 0, else `no`.
    pub fn select(alloc: Global, condition: Term, yes: Term, no: Term) -> Result<Self, AllocError>
        ensures { IfOk result (λ t. tree_of t
            ≡ tree.Select (tree_of condition) (tree_of yes) (tree_of no)) }
    {
        let (condition, yes) = boxed_two(alloc, condition, yes)?;
        Ok(Term::Select(condition, yes, Box::new(alloc, no)?))
    }

    /// The body, with a binder of this value.
    pub fn bind(alloc: Global, value: Term, body: Term) -> Result<Self, AllocError>
        ensures { IfOk result (λ t. tree_of t ≡ tree.Let (tree_of value) (tree_of body)) }
    {
        let (value, body) = boxed_two(alloc, value, body)?;
        Ok(Term::Let(value, body))
    }

    /// The array of the body's values, where its binder has each value of the array.
    pub fn map(alloc: Global, kind: MapKind, array: Term, body: Term) -> Result<Self, AllocError>
        ensures { IfOk result (λ t. tree_of t ≡ tree.Map kind (tree_of array) (tree_of body)) }
    {
        let (array, body) = boxed_two(alloc, array, body)?;
        Ok(Term::Map(kind, array, body))
    }

    /// The left fold of the array, from the start by the body.
    pub fn fold(
        alloc: Global,
        kind: FoldKind,
        array: Term,
        start: Term,
        body: Term,
    ) -> Result<Self, AllocError>
        ensures { IfOk result (λ t. tree_of t
            ≡ tree.Fold kind (tree_of array) (tree_of start) (tree_of body)) }
    {
        let (array, start) = boxed_two(alloc, array, start)?;
        Ok(Term::Fold(kind, array, start, Box::new(alloc, body)?))
    }

    /// An equal term in memory of its own.
    #[cycle(copying)]
    pub fn copy(&self, alloc: Global) -> Result<Self, AllocError>
        ensures { IfOk result (λ t. tree_of t ≡ tree_of self.now) }
    {
        match self {
            Term::Variable(n) => Ok(Term::Variable(*n)),
            Term::Number(n) => Ok(Term::Number(*n)),
            Term::Input(n) => Ok(Term::Input(*n)),
            Term::Unary(form, a) => copied_unary(alloc, form, a),
            Term::Binary(form, a, b) => copied_binary(alloc, *form, a, b),
            Term::Select(a, b, c) => copied_select(alloc, a, b, c),
            Term::Let(value, body) => copied_let(alloc, value, body),
            Term::Map(kind, array, body) => copied_map(alloc, *kind, array, body),
            Term::Fold(kind, array, start, body) => copied_fold(alloc, *kind, array, start, body),
        }
    }

    /// The child of this number, counted from 0. None where there is no such child.
    pub fn child(&self, number: u32) -> Option<&Term>
        ensures { option_map (λ t. tree_of t.now) result ≡ child_at (tree_of self.now) number }
    {
        match self {
            Term::Variable(_) | Term::Number(_) | Term::Input(_) => None,
            Term::Unary(_, a) => match number {
                0 => Some(a),
                _ => None,
            },
            Term::Binary(_, a, b) | Term::Let(a, b) | Term::Map(_, a, b) => match number {
                0 => Some(a),
                1 => Some(b),
                _ => None,
            },
            Term::Select(a, b, c) | Term::Fold(_, a, b, c) => match number {
                0 => Some(a),
                1 => Some(b),
                2 => Some(c),
                _ => None,
            },
        }
    }

    /// How many nodes the term has; the count stands still at 2^64 - 1.
    pub fn node_count(&self) -> u64
        ensures { result ≡ min (nodes (tree_of self.now)) u64.MAX }
    {
        match self {
            Term::Variable(_) | Term::Number(_) | Term::Input(_) => 1,
            Term::Unary(_, a) => a.node_count().saturating_add(1),
            Term::Binary(_, a, b) | Term::Let(a, b) | Term::Map(_, a, b) => {
                a.node_count()
                    .saturating_add(b.node_count())
                    .saturating_add(1)
            }
            Term::Select(a, b, c) | Term::Fold(_, a, b, c) => a
                .node_count()
                .saturating_add(b.node_count())
                .saturating_add(c.node_count())
                .saturating_add(1),
        }
    }

    /// The term's height, 1 for a leaf; it stands still at 2^64 - 1.
    pub fn depth(&self) -> u64
        ensures { result ≡ min (height (tree_of self.now)) u64.MAX }
    {
        match self {
            Term::Variable(_) | Term::Number(_) | Term::Input(_) => 1,
            Term::Unary(_, a) => a.depth().saturating_add(1),
            Term::Binary(_, a, b) | Term::Let(a, b) | Term::Map(_, a, b) => {
                a.depth().max(b.depth()).saturating_add(1)
            }
            Term::Select(a, b, c) | Term::Fold(_, a, b, c) => {
                a.depth().max(b.depth()).max(c.depth()).saturating_add(1)
            }
        }
    }
}

// Each of two terms in a box of its own.
fn boxed_two(alloc: Global, a: Term, b: Term) -> Result<(Box<Term>, Box<Term>), AllocError>
    ensures { IfOk result (λ boxes. (boxes.0.value ≡ a) × (boxes.1.value ≡ b)) }
{
    let a = Box::new(alloc, a)?;
    Ok((a, Box::new(alloc, b)?))
}

// A child, equal and in memory of its own.
#[cycle(copying)]
fn copied_child(alloc: Global, child: &Term) -> Result<Box<Term>, AllocError>
    ensures { IfOk result (λ c. tree_of c.value ≡ tree_of child.now) }
{
    Ok(Box::new(alloc, child.copy(alloc)?)?)
}

#[cycle(copying)]
fn copied_unary(alloc: Global, form: &UnaryForm, a: &Term) -> Result<Term, AllocError>
    ensures { IfOk result (λ t. tree_of t ≡ tree.Unary form.now (tree_of a.now)) }
{
    let a = copied_child(alloc, a)?;
    Ok(Term::Unary(form.copy(alloc)?, a))
}

#[cycle(copying)]
fn copied_binary(alloc: Global, form: BinaryForm, a: &Term, b: &Term) -> Result<Term, AllocError>
    ensures { IfOk result (λ t. tree_of t ≡ tree.Binary form (tree_of a.now) (tree_of b.now)) }
{
    let a = copied_child(alloc, a)?;
    Ok(Term::Binary(form, a, copied_child(alloc, b)?))
}

#[cycle(copying)]
fn copied_select(alloc: Global, a: &Term, b: &Term, c: &Term) -> Result<Term, AllocError>
    ensures { IfOk result (λ t. tree_of t
        ≡ tree.Select (tree_of a.now) (tree_of b.now) (tree_of c.now)) }
{
    let a = copied_child(alloc, a)?;
    let b = copied_child(alloc, b)?;
    Ok(Term::Select(a, b, copied_child(alloc, c)?))
}

#[cycle(copying)]
fn copied_let(alloc: Global, value: &Term, body: &Term) -> Result<Term, AllocError>
    ensures { IfOk result (λ t. tree_of t ≡ tree.Let (tree_of value.now) (tree_of body.now)) }
{
    let value = copied_child(alloc, value)?;
    Ok(Term::Let(value, copied_child(alloc, body)?))
}

#[cycle(copying)]
fn copied_map(alloc: Global, kind: MapKind, array: &Term, body: &Term) -> Result<Term, AllocError>
    ensures { IfOk result (λ t. tree_of t
        ≡ tree.Map kind (tree_of array.now) (tree_of body.now)) }
{
    let array = copied_child(alloc, array)?;
    Ok(Term::Map(kind, array, copied_child(alloc, body)?))
}

#[cycle(copying)]
fn copied_fold(
    alloc: Global,
    kind: FoldKind,
    array: &Term,
    start: &Term,
    body: &Term,
) -> Result<Term, AllocError>
    ensures { IfOk result (λ t. tree_of t
        ≡ tree.Fold kind (tree_of array.now) (tree_of start.now) (tree_of body.now)) }
{
    let array = copied_child(alloc, array)?;
    let start = copied_child(alloc, start)?;
    Ok(Term::Fold(kind, array, start, copied_child(alloc, body)?))
}
