//! Expressions of a kernel as index expressions.

ghost use Rattle.std.specs.Prelude.{◌≡◌, IfOk, option_map};
ghost use Rattle.index_expr.specs.Expression.{expression_of};
ghost use Rattle.kernel_tree.specs.Tree.{formula_of};
ghost use Rattle.length_spelling.specs.Turns.{number_of, as_number};
ghost use Rattle.tidy_indices.specs.Reading as spec;

use index_expr::{Index, Operation};
use kernel_tree::tree::{Expr, IdForm};
use length_spelling::Turn;
use scalar_ops::op::Op;
use std::alloc::{AllocError, Global};

// The operation that an operator is.
fn operation_of(op: Op) -> Option<Operation>
    ensures { result ≡ spec.operation_of op }
{
    match op {
        Op::Add => Some(Operation::Sum),
        Op::Sub => Some(Operation::Difference),
        Op::Mul => Some(Operation::Product),
        Op::Div => Some(Operation::Quotient),
        Op::Rem => Some(Operation::Remainder),
        Op::Min => Some(Operation::Least),
        Op::Max => Some(Operation::Greatest),
        Op::And | Op::Or | Op::Xor | Op::Shl | Op::Shr | Op::Lt | Op::Eq => None,
    }
}

// The operation on two readings, where there are both.
fn on_both(
    alloc: Global,
    operation: Operation,
    a: Option<Index>,
    b: Option<Index>,
) -> Result<Option<Index>, AllocError>
    ensures { IfOk result (λ e. option_map expression_of e
        ≡ spec.on_both (Some operation) (option_map expression_of a) (option_map expression_of b)) }
{
    match (a, b) {
        (Some(a), Some(b)) => Ok(Some(Index::binary(alloc, operation, a, b)?)),
        (_, _) => Ok(None),
    }
}

// A turn, which may be any word, where it has a number.
fn any_turn(turn: Turn) -> Option<Index>
    ensures { option_map expression_of result
        ≡ option_map spec.any_turn (as_number (number_of turn)) }
{
    Some(Index::Variable {
        number: turn.number()?,
        least: 0,
        greatest: u32::MAX,
    })
}

/// The index expression that an expression of a kernel spells, where it spells one: its variables
/// are the turns that a work-item is in, and may be any word.
pub fn reading(alloc: Global, expr: &Expr) -> Result<Option<Index>, AllocError>
    ensures { IfOk result (λ e. option_map expression_of e ≡ spec.reading (formula_of expr.now)) }
{
    match expr {
        Expr::Number(n) => Ok(Some(Index::Literal(*n))),
        Expr::LoopVariable(depth) => Ok(any_turn(Turn::Loop(*depth))),
        Expr::Id(dimension, IdForm::GroupId) => Ok(any_turn(Turn::Group(*dimension))),
        Expr::Id(dimension, IdForm::LocalId) => Ok(any_turn(Turn::Local(*dimension))),
        Expr::Size(number) => Ok(Some(Index::Size(*number))),
        Expr::Binary(op, a, b) => match operation_of(*op) {
            Some(operation) => {
                let a = reading(alloc, a)?;
                let b = reading(alloc, b)?;
                on_both(alloc, operation, a, b)
            }
            None => Ok(None),
        },
        Expr::Variable(_) | Expr::Id(_, _) | Expr::Choose(_, _, _, _, _) => Ok(None),
    }
}
