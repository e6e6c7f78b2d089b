//! Simplified index expressions.

ghost use Rattle.std.specs.Prelude.{◌≡◌, IfOk};
ghost use Rattle.index_expr.specs.Expression.{expression_of};
ghost use Rattle.index_simplify.specs.Operations as spec;
ghost use Rattle.index_simplify.specs.Simplified.{IsSimplified};
ghost use Rattle.index_simplify.specs.PlainRanges.{ranges_of};

use crate::cells::parted;
use crate::law::{LAWS, Law};
use crate::ranges::Ranges;
use index_expr::{Index, Operation};
use std::alloc::{AllocError, Global};

// The first of the laws that is of the operation on these expressions.
fn first_law(
    laws: &[Law],
    operation: Operation,
    a: &Index,
    b: &Index,
    ranges: &Ranges,
) -> Option<Law>
    ensures { result
        ≡ spec.first_law (ranges_of ranges.now) operation (expression_of a.now)
        (expression_of b.now) laws.now }
{
    match laws {
        [] => None,
        [law, rest @ ..] => {
            if law.applies(operation, a, b, ranges) {
                return Some(*law);
            }
            first_law(rest, operation, a, b, ranges)
        }
    }
}

// The operation on two simplified expressions, simplified.
fn operation_on(
    alloc: Global,
    operation: Operation,
    a: Index,
    b: Index,
    ranges: &Ranges,
) -> Result<Index, AllocError>
    ensures { IfOk result (λ e. expression_of e
        ≡ spec.operation_on (ranges_of ranges.now) operation (expression_of a) (expression_of b)) }
{
    match first_law(&LAWS, operation, &a, &b, ranges) {
        None => Index::binary(alloc, operation, a, b),
        Some(law) => Ok(law.applied(operation, a, b)),
    }
}

// Each operation by the first law of the table that is of it, from the leaves up.
fn tabled(alloc: Global, index: &Index, ranges: &Ranges) -> Result<Index, AllocError>
    ensures { IfOk result
        (λ e. expression_of e ≡ spec.tabled (ranges_of ranges.now) (expression_of index.now)) }
{
    match index {
        Index::Binary(operation, a, b) => {
            let a = tabled(alloc, a, ranges)?;
            let b = tabled(alloc, b, ranges)?;
            operation_on(alloc, *operation, a, b, ranges)
        }
        Index::Variable { .. } | Index::Literal(_) | Index::Size(_) => index.copy(alloc),
    }
}

// Cut into parts, and simplified by the table again.
fn recut(alloc: Global, index: &Index, ranges: &Ranges) -> Result<Index, AllocError>
    ensures { IfOk result
        (λ e. expression_of e ≡ spec.recut (ranges_of ranges.now) (expression_of index.now)) }
{
    let index = parted(alloc, index, ranges)?;
    tabled(alloc, &index, ranges)
}

// By the table, and three times cut into parts: each time lays open what the next can take apart.
fn simple(alloc: Global, index: &Index, ranges: &Ranges) -> Result<Index, AllocError>
    ensures { IfOk result
        (λ e. expression_of e ≡ spec.simple (ranges_of ranges.now) (expression_of index.now)) }
{
    let index = tabled(alloc, index, ranges)?;
    let index = recut(alloc, &index, ranges)?;
    let index = recut(alloc, &index, ranges)?;
    recut(alloc, &index, ranges)
}

/// An expression with the value of this one at every point of the ranges, ranged wherever it is; it
/// has no more nodes, and none of a shape that something simpler has the value of.
///
/// It is found in a fixed number of passes from the leaves up, and in memory of its own.
pub fn simplified(alloc: Global, index: &Index, ranges: &Ranges) -> Result<Index, AllocError>
    ensures function { IfOk result
        (λ e. expression_of e ≡ spec.simple (ranges_of ranges.now) (expression_of index.now)) }
    ensures simplified { IfOk result
        (λ e. IsSimplified (ranges_of ranges.now) (expression_of index.now) (expression_of e)) }
{
    simple(alloc, index, ranges)
}
