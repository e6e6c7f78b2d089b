//! What is left of a length without one of its factors.

ghost use Rattle.std.specs.Prelude.{◌≡◌, IfOk, Some, option_map};
ghost use Rattle.index_expr.specs.Expression.{expression_of};
ghost use Rattle.index_simplify.specs.Tests as tests;
ghost use Rattle.index_simplify.specs.Factors as spec;

use crate::same::{is_number, same};
use index_expr::{Index, Operation};
use std::alloc::{AllocError, Global};

// The product, without a factor 1.
fn times(alloc: Global, a: Index, b: Index) -> Result<Index, AllocError>
    ensures { IfOk result
        (λ e. expression_of e ≡ spec.times (expression_of a) (expression_of b)) }
{
    if is_number(1, &a) {
        return Ok(b);
    }
    if is_number(1, &b) {
        return Ok(a);
    }
    Index::binary(alloc, Operation::Product, a, b)
}

// The number over a number that divides it.
fn number_over(number: u32, divisor: &Index) -> Option<Index>
    ensures { option_map expression_of result
        ≡ spec.number_over number (expression_of divisor.now) }
{
    match divisor {
        Index::Literal(d) => {
            if 0 < *d && number % *d == 0 {
                return Some(Index::Literal(number / *d));
            }
            None
        }
        _ => None,
    }
}

// 1, where it is the factor itself.
fn one_of(e: &Index, factor: &Index) -> Option<Index>
    ensures { option_map expression_of result
        ≡ spec.one_where (tests.same (expression_of e.now) (expression_of factor.now)) }
{
    if same(e, factor) {
        return Some(Index::Literal(1));
    }
    None
}

// The product of what is left of the first and a copy of the second.
fn rest_times(alloc: Global, rest: Index, b: &Index) -> Result<Option<Index>, AllocError>
    ensures { IfOk result (λ q. option_map expression_of q
        ≡ Some (spec.times (expression_of rest) (expression_of b.now))) }
{
    let b = b.copy(alloc)?;
    Ok(Some(times(alloc, rest, b)?))
}

// And of a copy of the first and what is left of the second.
fn times_rest(alloc: Global, a: &Index, rest: Index) -> Result<Option<Index>, AllocError>
    ensures { IfOk result (λ q. option_map expression_of q
        ≡ Some (spec.times (expression_of a.now) (expression_of rest))) }
{
    let a = a.copy(alloc)?;
    Ok(Some(times(alloc, a, rest)?))
}

// What is left of a product without this factor, where it has it.
fn without(alloc: Global, e: &Index, factor: &Index) -> Result<Option<Index>, AllocError>
    ensures { IfOk result (λ q. option_map expression_of q
        ≡ spec.without (expression_of e.now) (expression_of factor.now)) }
{
    match e {
        Index::Literal(number) => Ok(number_over(*number, factor)),
        Index::Binary(Operation::Product, a, b) => match without(alloc, a, factor)? {
            Some(rest) => rest_times(alloc, rest, b),
            None => match without(alloc, b, factor)? {
                Some(rest) => times_rest(alloc, a, rest),
                None => Ok(None),
            },
        },
        _ => Ok(one_of(e, factor)),
    }
}

/// What a length is over another, all of whose factors it has.
pub fn over(alloc: Global, length: &Index, divisor: &Index) -> Result<Option<Index>, AllocError>
    ensures { IfOk result (λ q. option_map expression_of q
        ≡ spec.over (expression_of length.now) (expression_of divisor.now)) }
{
    match divisor {
        Index::Binary(Operation::Product, a, b) => match over(alloc, length, a)? {
            Some(rest) => over(alloc, &rest, b),
            None => Ok(None),
        },
        _ => without(alloc, length, divisor),
    }
}
