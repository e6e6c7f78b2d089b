//! Which expressions stay below a length.

ghost use Rattle.std.specs.Prelude.{◌≡◌, IfOk, Some, option_map};
ghost use Rattle.index_expr.specs.declared.operation.Operation.TheVariants as operation;
ghost use Rattle.index_expr.specs.Expression.{Binary, expression_of};
ghost use Rattle.index_simplify.specs.Below as spec;
ghost use Rattle.index_simplify.specs.PlainRanges.{ranges_of};

use crate::factors::over;
use crate::law::is_natural;
use crate::ranges::{Ranges, is_above, is_at_least, is_no_longer};
use crate::same::is_number;
use index_expr::{Index, Operation};
use std::alloc::{AllocError, Global};

// Whether so many divisors are no longer than a length is divisors long.
fn is_part_within(part: &Index, divisor: &Index, length: &Index) -> bool
    ensures { result
        ≡ spec.is_part_within (expression_of divisor.now) (expression_of length.now)
        (expression_of part.now) }
{
    is_natural(part) && is_natural(divisor) && is_no_longer(part, length)
}

// Whether the greatest of some numbers, over a literal, is below this length.
fn is_greatest_below(greatest: u32, divisor: &Index, length: &Index) -> bool
    ensures { result
        ≡ spec.is_greatest_below greatest (expression_of divisor.now) (expression_of length.now) }
{
    match divisor {
        Index::Literal(d) => 0 < *d && is_above(length, greatest / *d),
        _ => false,
    }
}

// Whether the variable of a loop of a known length, over a divisor, stays below this length: by its
// own range, or by that length. It is asked in loops alone, as of a remainder.
#[tactic(auto, using(crate::proofs::Known::known_length))]
fn is_quotient_below(
    alloc: Global,
    dividend: &Index,
    divisor: &Index,
    length: &Index,
    ranges: &Ranges,
) -> Result<bool, AllocError>
    ensures { IfOk result (λ b. b
        ≡ spec.is_quotient_below (ranges_of ranges.now) (expression_of dividend.now)
        (expression_of divisor.now) (expression_of length.now)) }
{
    match dividend {
        Index::Variable {
            number,
            greatest,
            ..
        } => match ranges.lengths.get(*number as usize) {
            None => Ok(false),
            Some(_) if is_greatest_below(*greatest, divisor, length) => Ok(true),
            Some(known) => match over(alloc, known, divisor)? {
                Some(part) => Ok(is_part_within(&part, divisor, length)),
                None => Ok(false),
            },
        },
        _ => Ok(false),
    }
}

// Whether the remainder by a literal stays below this length. It is asked in loops alone: without
// them the values may be of words that wrap.
fn is_remainder_below(dividend: &Index, divisor: &Index, length: &Index, ranges: &Ranges) -> bool
    ensures { result
        ≡ spec.is_remainder_below (ranges_of ranges.now) (expression_of dividend.now)
        (expression_of divisor.now) (expression_of length.now) }
{
    match divisor {
        Index::Literal(d) => {
            0 < *d && !ranges.lengths.is_empty() && is_natural(dividend) && is_at_least(length, *d)
        }
        _ => false,
    }
}

// Whether a variable, one over a divisor, or a remainder stays below this length.
fn is_digit_below(
    alloc: Global,
    e: &Index,
    length: &Index,
    ranges: &Ranges,
) -> Result<bool, AllocError>
    ensures { IfOk result (λ b. b
        ≡ spec.is_digit_below (ranges_of ranges.now) (expression_of e.now)
        (expression_of length.now)) }
{
    match e {
        Index::Variable { .. } => Ok(ranges.is_below(e, length)),
        Index::Binary(Operation::Quotient, a, b) => {
            is_quotient_below(alloc, a, b, length, ranges)
        }
        Index::Binary(Operation::Remainder, a, b) => Ok(is_remainder_below(a, b, length, ranges)),
        _ => Ok(false),
    }
}

// How many rows a length is, where the column stays below their width.
fn rows_within(
    alloc: Global,
    width: &Index,
    column: &Index,
    length: &Index,
    ranges: &Ranges,
) -> Result<Option<Index>, AllocError>
    ensures { IfOk result (λ e. option_map expression_of e
        ≡ spec.rows_within (ranges_of ranges.now) (expression_of width.now)
        (expression_of column.now) (expression_of length.now)) }
{
    if !is_digit_below(alloc, column, width, ranges)? {
        return Ok(None);
    }
    over(alloc, length, width)
}

// Whether the sum of a row times the width of rows and of a column in it stays below this length.
fn is_sum_below(
    alloc: Global,
    begin: &Index,
    column: &Index,
    length: &Index,
    ranges: &Ranges,
) -> Result<bool, AllocError>
    ensures { IfOk result (λ b. b
        ≡ spec.is_sum_below (ranges_of ranges.now) (expression_of begin.now)
        (expression_of column.now) (expression_of length.now)) }
{
    match begin {
        Index::Binary(Operation::Product, row, width) => {
            match rows_within(alloc, width, column, length, ranges)? {
                Some(rows) => is_digit_below(alloc, row, &rows, ranges),
                None => Ok(false),
            }
        }
        _ => Ok(false),
    }
}

// The sum of two numbers, where it is a word.
fn literal_sum(m: u32, n: u32) -> Option<Index>
    ensures { option_map expression_of result ≡ spec.literal_sum m n }
{
    match m.checked_add(n) {
        Some(sum) => Some(Index::Literal(sum)),
        None => None,
    }
}

// A copy of an expression behind what stands first in the sum.
fn behind(alloc: Global, first: Index, rest: &Index) -> Result<Option<Index>, AllocError>
    ensures { IfOk result (λ e. option_map expression_of e
        ≡ Some (Binary operation.Sum (expression_of first) (expression_of rest.now))) }
{
    let rest = rest.copy(alloc)?;
    Ok(Some(Index::binary(alloc, Operation::Sum, first, rest)?))
}

// So many more than a length, as lengths are spelled: with their number first.
fn longer(alloc: Global, length: &Index, more: u32) -> Result<Option<Index>, AllocError>
    ensures { IfOk result (λ e. option_map expression_of e
        ≡ spec.longer (expression_of length.now) more) }
{
    match length {
        Index::Literal(number) => Ok(literal_sum(*number, more)),
        Index::Binary(Operation::Sum, first, rest) => match &**first {
            Index::Literal(number) => match literal_sum(*number, more) {
                Some(first) => behind(alloc, first, rest),
                None => Ok(None),
            },
            _ => behind(alloc, Index::Literal(more), length),
        },
        _ => behind(alloc, Index::Literal(more), length),
    }
}

// What `e` is to stay below for `max(e, m) - m` to stay below this length: `m` more than it. The
// least value is 0, so the length has to be at least 1.
fn length_before(
    alloc: Global,
    least: &Index,
    taken: &Index,
    length: &Index,
    ranges: &Ranges,
) -> Result<Option<Index>, AllocError>
    ensures { IfOk result (λ e. option_map expression_of e
        ≡ spec.length_before (ranges_of ranges.now) (expression_of least.now)
        (expression_of taken.now) (expression_of length.now)) }
{
    match least {
        Index::Literal(number) => {
            if is_number(*number, taken) && ranges.is_positive(length) {
                return longer(alloc, length, *number);
            }
            Ok(None)
        }
        _ => Ok(None),
    }
}

/// Whether an expression stays below a length: a variable, one over a divisor, a remainder, the
/// cell of a row and a column each of which is one of these, or `max(e, m) - m` where `e` stays
/// below `m` more.
pub fn stays_below(
    alloc: Global,
    e: &Index,
    length: &Index,
    ranges: &Ranges,
) -> Result<bool, AllocError>
    ensures { IfOk result (λ b. b
        ≡ spec.stays_below (ranges_of ranges.now) (expression_of e.now)
        (expression_of length.now)) }
{
    match e {
        Index::Binary(Operation::Sum, begin, column) => {
            is_sum_below(alloc, begin, column, length, ranges)
        }
        Index::Binary(Operation::Difference, past, taken) => match &**past {
            Index::Binary(Operation::Greatest, e, least) => {
                match length_before(alloc, least, taken, length, ranges)? {
                    Some(before) => stays_below(alloc, e, &before, ranges),
                    None => Ok(false),
                }
            }
            _ => Ok(false),
        },
        _ => is_digit_below(alloc, e, length, ranges),
    }
}

/// Whether an expression stays below the length whose last number this is: a literal, or the length
/// less 1.
pub fn is_at_most(
    alloc: Global,
    e: &Index,
    last: &Index,
    ranges: &Ranges,
) -> Result<bool, AllocError>
    ensures { IfOk result (λ b. b
        ≡ spec.is_at_most (ranges_of ranges.now) (expression_of e.now) (expression_of last.now)) }
{
    match last {
        Index::Literal(number) => match literal_sum(*number, 1) {
            Some(length) => stays_below(alloc, e, &length, ranges),
            None => Ok(false),
        },
        Index::Binary(Operation::Difference, length, one) => {
            if !is_number(1, one) {
                return Ok(false);
            }
            stays_below(alloc, e, length, ranges)
        }
        _ => Ok(false),
    }
}
