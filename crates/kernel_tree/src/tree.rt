//! A kernel as a tree.

ghost use Rattle.std.specs.Prelude.{◌≡◌, ◌<◌, ◌^◌, IfOk, length, true};
ghost use Rattle.kernel_tree.specs.Formula as formula;
ghost use Rattle.kernel_tree.specs.Grammar.{is_kernel};
ghost use Rattle.kernel_tree.specs.Tree.{formula_of, lanes_of, comparison_of, kernel_with};

use scalar_ops::op::Op;
use std::alloc::{AllocError, Global};

/// A dimension of a launch.
#[derive(Clone, Copy, PartialEq, Eq)]
pub enum Dimension {
    /// Dimension 0, along a row of work-items.
    X,
    /// Dimension 1, from row to row.
    Y,
}

/// What a work-item can ask about itself and the launch in one dimension (OpenCL C 1.2, section
/// 6.12.1).
#[derive(Clone, Copy, PartialEq, Eq)]
pub enum IdForm {
    /// `(uint)get_global_id(..)`
    GlobalId,
    /// `(uint)get_group_id(..)`
    GroupId,
    /// `(uint)get_local_id(..)`
    LocalId,
    /// `(uint)get_global_size(..)`
    GlobalSize,
    /// `(uint)get_num_groups(..)`
    GroupCount,
    /// `(uint)get_local_size(..)`
    LocalSize,
}

/// How a conditional compares.
#[derive(Clone, Copy, PartialEq, Eq)]
pub enum Comparison {
    /// `<`
    Less,
    /// `==`
    Equal,
}

/// An expression over unsigned words of 32 bits.
#[derive(Drop)]
pub enum Expr {
    /// A literal.
    Number(u32),
    /// A private variable, by its number.
    Variable(u32),
    /// The variable of an enclosing loop, by the number of loops around that one.
    LoopVariable(u32),
    /// A size, by its number.
    Size(u32),
    /// What the work-item asks about itself and the launch, as `(uint)get_global_id(0)`.
    Id(Dimension, IdForm),
    /// An operator on two expressions. `Lt` and `Eq` are of no kernel: they stand in `Choose`.
    Binary(Op, Box<Expr>, Box<Expr>),
    /// Where the comparison holds of the first two, the third, else the fourth.
    Choose(Comparison, Box<Expr>, Box<Expr>, Box<Expr>, Box<Expr>),
}

impl Expr {
    /// The operator on these two.
    pub fn binary(alloc: Global, op: Op, a: Expr, b: Expr) -> Result<Self, AllocError>
        ensures { IfOk result
            (λ e. formula_of e ≡ formula.Binary op (formula_of a) (formula_of b)) }
    {
        let a = Box::new(alloc, a)?;
        Ok(Expr::Binary(op, a, Box::new(alloc, b)?))
    }

    /// `yes` where the comparison holds of `a` and `b`, else `no`.
    pub fn choose(
        alloc: Global,
        comparison: Comparison,
        a: Expr,
        b: Expr,
        yes: Expr,
        no: Expr,
    ) -> Result<Self, AllocError>
        ensures { IfOk result (λ e. formula_of e ≡ formula.Choose (comparison_of comparison)
            (formula_of a) (formula_of b) (formula_of yes) (formula_of no)) }
    {
        let a = Box::new(alloc, a)?;
        let b = Box::new(alloc, b)?;
        let yes = Box::new(alloc, yes)?;
        Ok(Expr::Choose(comparison, a, b, yes, Box::new(alloc, no)?))
    }
}

/// An expression over four unsigned words of 32 bits, lane by lane.
#[derive(Drop)]
pub enum Lanes {
    /// A private variable of four words, by its number.
    Vector(u32),
    /// `(uint4)(E)`: the word in each lane.
    Spread(Expr),
    /// An operator on two expressions. `Lt` and `Eq` are of no kernel.
    Each(Op, Box<Lanes>, Box<Lanes>),
}

impl Lanes {
    /// The operator on these two.
    pub fn each(alloc: Global, op: Op, a: Lanes, b: Lanes) -> Result<Self, AllocError>
        ensures { IfOk result (λ e. lanes_of e ≡ formula.Each op (lanes_of a) (lanes_of b)) }
    {
        let a = Box::new(alloc, a)?;
        Ok(Lanes::Each(op, a, Box::new(alloc, b)?))
    }
}

/// An array, by its number among the arrays of its kind. Inputs and outputs lie in global memory,
/// local arrays are of a work-group, private arrays of a work-item.
#[derive(Clone, Copy, PartialEq, Eq)]
pub enum Array {
    Input(u32),
    Output(u32),
    Local(u32),
    Private(u32),
}

/// What a loop's variable begins with, and what an `if` compares with its bound.
#[derive(Clone, Copy, PartialEq, Eq)]
pub enum Start {
    /// `0u`
    Zero,
    /// `(uint)get_global_id(..)`
    GlobalId(Dimension),
    /// `(uint)get_group_id(..)`
    GroupId(Dimension),
    /// `(uint)get_local_id(..)`
    LocalId(Dimension),
}

/// What is added to a loop's variable after each turn.
#[derive(Clone, Copy, PartialEq, Eq)]
pub enum Stride {
    /// `1u`
    One,
    /// `(uint)get_global_size(..)`
    GlobalSize(Dimension),
    /// `(uint)get_num_groups(..)`
    GroupCount(Dimension),
    /// `(uint)get_local_size(..)`
    LocalSize(Dimension),
}

/// A statement.
#[derive(Drop)]
pub enum Stmt {
    /// The variable gets the value of the expression.
    Assign(u32, Expr),
    /// The variable gets the element of the array at the index.
    Load(u32, Array, Expr),
    /// The element of the array at the index, the first expression, gets the value of the second.
    Store(Array, Expr, Expr),
    /// The variable of four words gets the value of the expression.
    AssignFour(u32, Lanes),
    /// The variable of four words gets the four elements of the array at the offset, which counts
    /// in fours.
    LoadFour(u32, Array, Expr),
    /// The four elements of the array at the offset, which counts in fours, get the words of the
    /// expression.
    StoreFour(Array, Expr, Lanes),
    /// A loop from the start, by the stride, while its variable is below the bound.
    Loop(Start, Expr, Stride, Vec<Stmt>),
    /// The statements where the start is below the bound.
    If(Start, Expr, Vec<Stmt>),
    /// A barrier of the work-group (OpenCL C 1.2, section 6.12.8), with its flags: whether it
    /// orders accesses of local and of global memory.
    Barrier { on_local: bool, on_global: bool },
}

/// A kernel of the kernel grammar: how many inputs, outputs and sizes it takes, the lengths of its
/// local and its private arrays, how many private variables of a word and of four words it
/// declares, the size of the work-groups that it is made for, where it is made for one, and its
/// statements.
#[derive(Drop)]
pub struct Kernel {
    pub inputs: u32,
    pub outputs: u32,
    pub sizes: u32,
    pub locals: Vec<u32>,
    pub privates: Vec<u32>,
    pub variables: u32,
    pub vectors: u32,
    pub local: Option<(u32, u32)>,
    pub body: Vec<Stmt>,
    pub ghost in_grammar: { is_kernel
        (kernel_with inputs outputs sizes locals.items privates.items variables
        vectors local body.items)
        ≡ true },
    /// Arrays have numbers below 2^32.
    pub ghost few_arrays: { (length locals.items < 2 ^ 32) × (length privates.items < 2 ^ 32) },
}
