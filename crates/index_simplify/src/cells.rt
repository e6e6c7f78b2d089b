//! The laws of what stays below a length, and of cells whose rows are cut into parts.

ghost use Rattle.std.specs.Prelude.{◌≡◌, IfOk, Some, option_map};
ghost use Rattle.index_expr.specs.declared.operation.Operation.TheVariants as operation;
ghost use Rattle.index_expr.specs.Expression.{Binary, expression_of};
ghost use Rattle.index_simplify.specs.Laws as laws;
ghost use Rattle.index_simplify.specs.Cells as spec;
ghost use Rattle.index_simplify.specs.PlainRanges.{ranges_of};

use crate::below::{is_at_most, stays_below};
use crate::factors::over;
use crate::law::is_natural;
use crate::ranges::Ranges;
use crate::same::same;
use index_expr::{Index, Operation};
use std::alloc::{AllocError, Global};

// Whether the one is no higher than the other, as far as their parts in turn tell.
fn is_no_higher(a: &Index, b: &Index) -> bool
    ensures { result ≡ spec.is_no_higher (expression_of a.now) (expression_of b.now) }
{
    match a {
        Index::Binary(_, first, second) => match b {
            Index::Binary(_, third, fourth) => {
                (is_no_higher(first, third) || is_no_higher(first, fourth))
                    && (is_no_higher(second, third) || is_no_higher(second, fourth))
            }
            _ => false,
        },
        _ => true,
    }
}

// Whether it is a row that is never below 0, and a column below the width of rows.
fn is_cell(
    alloc: Global,
    row: &Index,
    width: &Index,
    column: &Index,
    ranges: &Ranges,
) -> Result<bool, AllocError>
    ensures { IfOk result (λ b. b
        ≡ spec.is_cell (ranges_of ranges.now) (expression_of row.now) (expression_of width.now)
        (expression_of column.now)) }
{
    if !is_natural(row) {
        return Ok(false);
    }
    stays_below(alloc, column, width, ranges)
}

// The quotient of two lengths, where it tells that it is never below 0.
fn natural_over(alloc: Global, length: &Index, divisor: &Index) -> Result<Option<Index>, AllocError>
    ensures { IfOk result (λ q. option_map expression_of q
        ≡ spec.natural_over (expression_of length.now) (expression_of divisor.now)) }
{
    match over(alloc, length, divisor)? {
        Some(part) => {
            if is_natural(&part) {
                return Ok(Some(part));
            }
            Ok(None)
        }
        None => Ok(None),
    }
}

// The operation on a copy of the one, and the other.
fn on_copy(alloc: Global, of: Operation, a: &Index, b: Index) -> Result<Option<Index>, AllocError>
    ensures { IfOk result (λ e. option_map expression_of e
        ≡ Some (Binary of (expression_of a.now) (expression_of b))) }
{
    let a = a.copy(alloc)?;
    Ok(Some(Index::binary(alloc, of, a, b)?))
}

// The operation on copies of both.
fn on_copies(alloc: Global, of: Operation, a: &Index, b: &Index) -> Result<Index, AllocError>
    ensures { IfOk result (λ e. expression_of e
        ≡ Binary of (expression_of a.now) (expression_of b.now)) }
{
    let a = a.copy(alloc)?;
    Index::binary(alloc, of, a, b.copy(alloc)?)
}

// `row * part + column / n`.
fn split_by(
    alloc: Global,
    row: &Index,
    part: Index,
    column: &Index,
    n: &Index,
) -> Result<Option<Index>, AllocError>
    ensures { IfOk result (λ e. option_map expression_of e
        ≡ Some (Binary operation.Sum
        (Binary operation.Product (expression_of row.now) (expression_of part))
        (Binary operation.Quotient (expression_of column.now) (expression_of n.now)))) }
{
    let begin = Index::binary(alloc, Operation::Product, row.copy(alloc)?, part)?;
    let within = on_copies(alloc, Operation::Quotient, column, n)?;
    Ok(Some(Index::binary(alloc, Operation::Sum, begin, within)?))
}

// The same, where the width is so many times `n`.
fn split_row(
    alloc: Global,
    row: &Index,
    width: &Index,
    column: &Index,
    n: &Index,
) -> Result<Option<Index>, AllocError>
    ensures { IfOk result (λ e. option_map expression_of e
        ≡ spec.split_row (expression_of row.now) (expression_of width.now)
        (expression_of column.now) (expression_of n.now)) }
{
    if !(is_natural(n) && is_no_higher(n, width)) {
        return Ok(None);
    }
    match natural_over(alloc, width, n)? {
        Some(part) => split_by(alloc, row, part, column, n),
        None => Ok(None),
    }
}

// What stands first in an operation.
fn first_of(e: &Index) -> &Index
    ensures { expression_of result.now ≡ laws.first_part (expression_of e.now) }
{
    match e {
        Index::Binary(_, a, _) => a,
        _ => e,
    }
}

// What has the value of a cell over a length, where one of the lengths is so many times the other.
fn cell_over(
    alloc: Global,
    row: &Index,
    width: &Index,
    column: &Index,
    n: &Index,
) -> Result<Option<Index>, AllocError>
    ensures { IfOk result (λ e. option_map expression_of e
        ≡ spec.cell_over (expression_of row.now) (expression_of width.now)
        (expression_of column.now) (expression_of n.now)) }
{
    match natural_over(alloc, n, width)? {
        Some(rows) => on_copy(alloc, Operation::Quotient, row, rows),
        None => split_row(alloc, row, width, column, n),
    }
}

// What has the value of a sum over a length.
fn sum_over(
    alloc: Global,
    begin: &Index,
    column: &Index,
    n: &Index,
    ranges: &Ranges,
) -> Result<Option<Index>, AllocError>
    ensures { IfOk result (λ e. option_map expression_of e
        ≡ spec.sum_over (ranges_of ranges.now) (expression_of begin.now)
        (expression_of column.now) (expression_of n.now)) }
{
    match begin {
        Index::Binary(Operation::Product, row, width) => {
            if !is_cell(alloc, row, width, column, ranges)? {
                return Ok(None);
            }
            cell_over(alloc, row, width, column, n)
        }
        _ => Ok(None),
    }
}

// What has the value of a cell modulo a length of which its width is so many times.
fn column_modulo(
    alloc: Global,
    width: &Index,
    column: &Index,
    n: &Index,
) -> Result<Option<Index>, AllocError>
    ensures { IfOk result (λ e. option_map expression_of e
        ≡ spec.column_modulo (expression_of width.now) (expression_of column.now)
        (expression_of n.now)) }
{
    if !is_natural(n) {
        return Ok(None);
    }
    match natural_over(alloc, width, n)? {
        Some(_) => Ok(Some(on_copies(alloc, Operation::Remainder, column, n)?)),
        None => Ok(None),
    }
}

// `(row mod rows) * width + column`.
fn cell_around(
    alloc: Global,
    rows: Index,
    row: &Index,
    width: &Index,
    column: &Index,
) -> Result<Index, AllocError>
    ensures { IfOk result (λ e. expression_of e
        ≡ Binary operation.Sum
        (Binary operation.Product
        (Binary operation.Remainder (expression_of row.now) (expression_of rows))
        (expression_of width.now)) (expression_of column.now)) }
{
    let within = Index::binary(alloc, Operation::Remainder, row.copy(alloc)?, rows)?;
    let begin = Index::binary(alloc, Operation::Product, within, width.copy(alloc)?)?;
    Index::binary(alloc, Operation::Sum, begin, column.copy(alloc)?)
}

// The same, where it stands no deeper than what it has the value of.
fn row_modulo(
    alloc: Global,
    rows: Index,
    row: &Index,
    width: &Index,
    column: &Index,
) -> Result<Option<Index>, AllocError>
    ensures { IfOk result (λ e. option_map expression_of e
        ≡ spec.row_modulo (expression_of rows) (expression_of row.now) (expression_of width.now)
        (expression_of column.now)) }
{
    if is_no_higher(&rows, row) || is_no_higher(&rows, width) {
        return Ok(Some(cell_around(alloc, rows, row, width, column)?));
    }
    Ok(None)
}

// What has the value of a cell modulo a length, where one of the lengths is so many times the other.
fn cell_modulo(
    alloc: Global,
    row: &Index,
    width: &Index,
    column: &Index,
    n: &Index,
) -> Result<Option<Index>, AllocError>
    ensures { IfOk result (λ e. option_map expression_of e
        ≡ spec.cell_modulo (expression_of row.now) (expression_of width.now)
        (expression_of column.now) (expression_of n.now)) }
{
    if let Some(e) = column_modulo(alloc, width, column, n)? {
        return Ok(Some(e));
    }
    match natural_over(alloc, n, width)? {
        Some(rows) => row_modulo(alloc, rows, row, width, column),
        None => Ok(None),
    }
}

// What has the value of a sum modulo a length.
fn sum_modulo(
    alloc: Global,
    begin: &Index,
    column: &Index,
    n: &Index,
    ranges: &Ranges,
) -> Result<Option<Index>, AllocError>
    ensures { IfOk result (λ e. option_map expression_of e
        ≡ spec.sum_modulo (ranges_of ranges.now) (expression_of begin.now)
        (expression_of column.now) (expression_of n.now)) }
{
    match begin {
        Index::Binary(Operation::Product, row, width) => {
            if !is_cell(alloc, row, width, column, ranges)? {
                return Ok(None);
            }
            cell_modulo(alloc, row, width, column, n)
        }
        _ => Ok(None),
    }
}

// How many rows a cell's number is counted modulo, where its row is of this length.
fn rows_around(
    alloc: Global,
    begin: &Index,
    column: &Index,
    modulus: &Index,
    n: &Index,
    ranges: &Ranges,
) -> Result<Option<Index>, AllocError>
    ensures { IfOk result (λ e. option_map expression_of e
        ≡ spec.rows_around (ranges_of ranges.now) (expression_of begin.now)
        (expression_of column.now) (expression_of modulus.now) (expression_of n.now)) }
{
    match begin {
        Index::Binary(Operation::Product, row, width) => {
            if !(same(width, n) && is_cell(alloc, row, width, column, ranges)?) {
                return Ok(None);
            }
            natural_over(alloc, modulus, width)
        }
        _ => Ok(None),
    }
}

// What has the value of a remainder over a length.
fn remainder_over(
    alloc: Global,
    cell: &Index,
    modulus: &Index,
    n: &Index,
    ranges: &Ranges,
) -> Result<Option<Index>, AllocError>
    ensures { IfOk result (λ e. option_map expression_of e
        ≡ spec.remainder_over (ranges_of ranges.now) (expression_of cell.now)
        (expression_of modulus.now) (expression_of n.now)) }
{
    match cell {
        Index::Binary(Operation::Sum, begin, column) => {
            match rows_around(alloc, begin, column, modulus, n, ranges)? {
                Some(rows) => on_copy(alloc, Operation::Remainder, first_of(begin), rows),
                None => Ok(None),
            }
        }
        _ => Ok(None),
    }
}

// What has the value of a remainder modulo a length.
fn remainder_modulo(
    alloc: Global,
    cell: &Index,
    modulus: &Index,
    n: &Index,
    ranges: &Ranges,
) -> Result<Option<Index>, AllocError>
    ensures { IfOk result (λ e. option_map expression_of e
        ≡ spec.remainder_modulo (ranges_of ranges.now) (expression_of cell.now)
        (expression_of modulus.now) (expression_of n.now)) }
{
    match cell {
        Index::Binary(Operation::Sum, begin, column) => {
            match rows_around(alloc, begin, column, modulus, n, ranges)? {
                Some(_) => Ok(Some(column.copy(alloc)?)),
                None => Ok(None),
            }
        }
        _ => Ok(None),
    }
}

// What has the value of a sum, where nothing is added.
fn sum(alloc: Global, a: &Index, b: &Index, ranges: &Ranges) -> Result<Option<Index>, AllocError>
    ensures { IfOk result (λ e. option_map expression_of e
        ≡ spec.sum (ranges_of ranges.now) (expression_of a.now) (expression_of b.now)) }
{
    if stays_below(alloc, b, &Index::Literal(1), ranges)? {
        return Ok(Some(a.copy(alloc)?));
    }
    Ok(None)
}

// What has the value of a product, where one of its factors is 0.
fn product(
    alloc: Global,
    a: &Index,
    b: &Index,
    ranges: &Ranges,
) -> Result<Option<Index>, AllocError>
    ensures { IfOk result (λ e. option_map expression_of e
        ≡ spec.product (ranges_of ranges.now) (expression_of a.now) (expression_of b.now)) }
{
    let one = Index::Literal(1);
    if stays_below(alloc, a, &one, ranges)? || stays_below(alloc, b, &one, ranges)? {
        return Ok(Some(Index::Literal(0)));
    }
    Ok(None)
}

// What has the value of a quotient, by one of the laws.
fn quotient(
    alloc: Global,
    a: &Index,
    b: &Index,
    ranges: &Ranges,
) -> Result<Option<Index>, AllocError>
    ensures { IfOk result (λ e. option_map expression_of e
        ≡ spec.quotient (ranges_of ranges.now) (expression_of a.now) (expression_of b.now)) }
{
    if stays_below(alloc, a, b, ranges)? {
        return Ok(Some(Index::Literal(0)));
    }
    match a {
        Index::Binary(Operation::Sum, begin, column) => sum_over(alloc, begin, column, b, ranges),
        Index::Binary(Operation::Remainder, cell, modulus) => {
            remainder_over(alloc, cell, modulus, b, ranges)
        }
        _ => Ok(None),
    }
}

// What has the value of a remainder, by one of the laws.
fn remainder(
    alloc: Global,
    a: &Index,
    b: &Index,
    ranges: &Ranges,
) -> Result<Option<Index>, AllocError>
    ensures { IfOk result (λ e. option_map expression_of e
        ≡ spec.remainder (ranges_of ranges.now) (expression_of a.now) (expression_of b.now)) }
{
    if stays_below(alloc, a, b, ranges)? {
        return Ok(Some(a.copy(alloc)?));
    }
    match a {
        Index::Binary(Operation::Sum, begin, column) => {
            sum_modulo(alloc, begin, column, b, ranges)
        }
        Index::Binary(Operation::Remainder, cell, modulus) => {
            remainder_modulo(alloc, cell, modulus, b, ranges)
        }
        _ => Ok(None),
    }
}

// What has the value of the lesser of two, where one stays below the length whose last number the
// other is.
fn least(alloc: Global, a: &Index, b: &Index, ranges: &Ranges) -> Result<Option<Index>, AllocError>
    ensures { IfOk result (λ e. option_map expression_of e
        ≡ spec.least (ranges_of ranges.now) (expression_of a.now) (expression_of b.now)) }
{
    if is_at_most(alloc, a, b, ranges)? {
        return Ok(Some(a.copy(alloc)?));
    }
    if is_at_most(alloc, b, a, ranges)? {
        return Ok(Some(b.copy(alloc)?));
    }
    Ok(None)
}

// The operation on two expressions, by the first of the laws that is of it.
fn parted_operation(
    alloc: Global,
    operation: Operation,
    a: Index,
    b: Index,
    ranges: &Ranges,
) -> Result<Index, AllocError>
    ensures { IfOk result (λ e. expression_of e
        ≡ spec.parted_operation (ranges_of ranges.now) operation (expression_of a)
        (expression_of b)) }
{
    let found = match operation {
        Operation::Sum => sum(alloc, &a, &b, ranges)?,
        Operation::Product => product(alloc, &a, &b, ranges)?,
        Operation::Quotient => quotient(alloc, &a, &b, ranges)?,
        Operation::Remainder => remainder(alloc, &a, &b, ranges)?,
        Operation::Least => least(alloc, &a, &b, ranges)?,
        _ => None,
    };
    match found {
        Some(e) => Ok(e),
        None => Index::binary(alloc, operation, a, b),
    }
}

/// An expression with the value of this one, each operation by one of the laws of what stays below
/// a length, from the leaves up.
pub fn parted(alloc: Global, index: &Index, ranges: &Ranges) -> Result<Index, AllocError>
    ensures { IfOk result
        (λ e. expression_of e ≡ spec.parted (ranges_of ranges.now) (expression_of index.now)) }
{
    match index {
        Index::Binary(operation, a, b) => {
            let a = parted(alloc, a, ranges)?;
            let b = parted(alloc, b, ranges)?;
            parted_operation(alloc, *operation, a, b, ranges)
        }
        Index::Variable { .. } | Index::Literal(_) | Index::Size(_) => index.copy(alloc),
    }
}
