//! When two expressions are the same but for the ranges that their variables carry.

ghost use Rattle.std.specs.Prelude.{◌≡◌};
ghost use Rattle.index_expr.specs.Expression.{expression_of};
ghost use Rattle.index_simplify.specs.Tests as spec;

use index_expr::{Index, Operation};

/// Whether they are the same operation.
pub fn same_operation(a: Operation, b: Operation) -> bool
    ensures { result ≡ spec.same_operation a b }
{
    match a {
        Operation::Sum => matches!(b, Operation::Sum),
        Operation::Difference => matches!(b, Operation::Difference),
        Operation::Product => matches!(b, Operation::Product),
        Operation::Quotient => matches!(b, Operation::Quotient),
        Operation::Remainder => matches!(b, Operation::Remainder),
        Operation::Least => matches!(b, Operation::Least),
        Operation::Greatest => matches!(b, Operation::Greatest),
    }
}

fn same_variable(a: u32, b: &Index) -> bool
    ensures { result ≡ spec.same_variable a (expression_of b.now) }
{
    match b {
        Index::Variable { number, .. } => a == *number,
        Index::Literal(_) | Index::Size(_) | Index::Binary(_, _, _) => false,
    }
}

/// Whether an expression is this number.
pub fn is_number(a: u32, b: &Index) -> bool
    ensures { result ≡ spec.is_number a (expression_of b.now) }
{
    match b {
        Index::Literal(n) => a == *n,
        Index::Variable { .. } | Index::Size(_) | Index::Binary(_, _, _) => false,
    }
}

fn same_size(a: u32, b: &Index) -> bool
    ensures { result ≡ spec.same_size a (expression_of b.now) }
{
    match b {
        Index::Size(number) => a == *number,
        Index::Variable { .. } | Index::Literal(_) | Index::Binary(_, _, _) => false,
    }
}

/// Whether two expressions are the same but for the ranges that their variables carry.
pub fn same(a: &Index, b: &Index) -> bool
    ensures { result ≡ spec.same (expression_of a.now) (expression_of b.now) }
{
    match a {
        Index::Variable { number, .. } => same_variable(*number, b),
        Index::Literal(n) => is_number(*n, b),
        Index::Size(number) => same_size(*number, b),
        Index::Binary(operation, first, second) => match b {
            Index::Binary(other, third, fourth) => {
                same_operation(*operation, *other) && same(first, third) && same(second, fourth)
            }
            Index::Variable { .. } | Index::Literal(_) | Index::Size(_) => false,
        },
    }
}
