//! Between which words the value of an index expression lies.

ghost use Rattle.std.specs.Prelude.{◌≡◌, IfOk};
ghost use Rattle.index_expr.specs.declared.operation.Operation.TheVariants as operation;
ghost use Rattle.index_expr.specs.Expression.{expression_of};
ghost use Rattle.tidy_indices.specs.Spans as spec;

use index_expr::{Index, Operation};
use size_arith::Name;
use std::alloc::{AllocError, Global};

/// From the least to the greatest.
#[derive(Clone, Copy, PartialEq, Eq)]
pub struct Span {
    pub least: u32,
    pub greatest: u32,
}

// From the one to the other, where both are known.
fn between(least: Option<u32>, greatest: Option<u32>) -> Option<Span>
    ensures { result ≡ spec.between least greatest }
{
    match (least, greatest) {
        (Some(least), Some(greatest)) => Some(Span { least, greatest }),
        (_, _) => None,
    }
}

// The quotient, where the divisor isn't 0.
fn quotient(dividend: u32, divisor: u32) -> Option<u32>
    ensures { result ≡ spec.quotient dividend divisor }
{
    dividend.checked_div(divisor)
}

fn remainder(a: Span, b: Span) -> Option<Span>
    ensures { result ≡ spec.operated operation.Remainder a b }
{
    if b.least == 0 {
        return None;
    }
    Some(Span {
        least: 0,
        greatest: a.greatest.min(b.greatest.saturating_sub(1)),
    })
}

// Between which words the result on words of these spans lies. None where it may wrap, and where a
// divisor may be 0.
fn operated(operation: Operation, a: Span, b: Span) -> Option<Span>
    ensures { result ≡ spec.operated operation a b }
{
    match operation {
        Operation::Sum => between(
            a.least.checked_add(b.least),
            a.greatest.checked_add(b.greatest),
        ),
        Operation::Difference => between(
            a.least.checked_sub(b.greatest),
            a.greatest.checked_sub(b.least),
        ),
        Operation::Product => between(
            a.least.checked_mul(b.least),
            a.greatest.checked_mul(b.greatest),
        ),
        Operation::Quotient => between(
            quotient(a.least, b.greatest),
            quotient(a.greatest, b.least),
        ),
        Operation::Remainder => remainder(a, b),
        Operation::Least => Some(Span {
            least: a.least.min(b.least),
            greatest: a.greatest.min(b.greatest),
        }),
        Operation::Greatest => Some(Span {
            least: a.least.max(b.least),
            greatest: a.greatest.max(b.greatest),
        }),
    }
}

fn operated_on(operation: Operation, a: Option<Span>, b: Option<Span>) -> Option<Span>
    ensures { result ≡ spec.operated_on operation a b }
{
    match (a, b) {
        (Some(a), Some(b)) => operated(operation, a, b),
        (_, _) => None,
    }
}

/// Between which words the value of an index expression lies with these sizes, in loops whose
/// variables are at most so great. None where intervals don't show that nothing in it wraps.
pub fn span_of(names: &[Name], lasts: &[u32], index: &Index) -> Option<Span>
    ensures { result ≡ spec.span_of names.now lasts.now (expression_of index.now) }
{
    match index {
        Index::Variable { number, .. } => match lasts.get(*number as usize) {
            Some(last) => Some(Span {
                least: 0,
                greatest: *last,
            }),
            None => None,
        },
        Index::Literal(n) => Some(Span {
            least: *n,
            greatest: *n,
        }),
        Index::Size(number) => match names.get(*number as usize) {
            Some(name) => Some(Span {
                least: name.from,
                greatest: name.to,
            }),
            None => None,
        },
        Index::Binary(operation, a, b) => {
            let a = span_of(names, lasts, a);
            let b = span_of(names, lasts, b);
            operated_on(*operation, a, b)
        }
    }
}

// How many turns are ids: a group's, and an item's in its group, in two dimensions. Those behind them
// are loops'.
const IDS: u32 = 4;

// Where the range of a turn's variable ends: an id's where its turn does, as far as that is known.
fn narrowed_end(lasts: &[u32], turn: u32, end: u32) -> u32
    ensures { result ≡ spec.narrowed_end lasts.now turn end }
{
    if turn < IDS {
        lasts.get(turn as usize).copied().unwrap_or(end)
    } else {
        end
    }
}

/// The same index expression, where the range of each id ends where its turn does. A
/// loop's variable keeps its range, so a kernel for groups of any size is what its
/// loops' lengths alone make of it.
pub fn narrowed(alloc: Global, index: &Index, lasts: &[u32]) -> Result<Index, AllocError>
    ensures { IfOk result (λ e. expression_of e
        ≡ spec.narrowed lasts.now (expression_of index.now)) }
{
    match index {
        Index::Variable {
            number,
            least,
            greatest,
        } => Ok(Index::Variable {
            number: *number,
            least: *least,
            greatest: narrowed_end(lasts, *number, *greatest),
        }),
        Index::Literal(n) => Ok(Index::Literal(*n)),
        Index::Size(number) => Ok(Index::Size(*number)),
        Index::Binary(operation, a, b) => {
            let a = narrowed(alloc, a, lasts)?;
            Index::binary(alloc, *operation, a, narrowed(alloc, b, lasts)?)
        }
    }
}
