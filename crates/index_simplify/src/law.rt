//! The table of laws.

ghost use Rattle.std.specs.Prelude.{◌≡◌};
ghost use Rattle.index_expr.specs.Expression.{expression_of};
ghost use Rattle.index_simplify.specs.Tests as tests;
ghost use Rattle.index_simplify.specs.Laws as spec;
ghost use Rattle.index_simplify.specs.PlainRanges.{ranges_of};

use crate::literals::computed;
use crate::ranges::Ranges;
use crate::same::{is_number, same, same_operation};
use index_expr::{Index, Operation};

/// A law of the whole numbers: an operation on two expressions of a certain shape has the value of
/// a part of them, or of a number.
#[derive(Clone, Copy)]
pub enum Law {
    /// An operation on two literals, where its result is a word.
    Computed,
    /// `e + 0` is `e`.
    PlusZero,
    /// `0 + e` is `e`.
    ZeroPlus,
    /// `e - 0` is `e`.
    MinusZero,
    /// `e - e` is 0.
    MinusItself,
    /// `e * 1` is `e`.
    TimesOne,
    /// `1 * e` is `e`.
    OneTimes,
    /// `e * 0` is 0.
    TimesZero,
    /// `0 * e` is 0.
    ZeroTimes,
    /// `e / 1` is `e`.
    OverOne,
    /// `e mod 1` is 0.
    ModuloOne,
    /// `d * (s / d)` is `s`, a size that is a multiple of `d`.
    WholeSize,
    /// `c * (s / d)` is `(c / d) * s`, where the size `s` and the greater `c` are multiples of `d`.
    ScaledSize,
    /// `(e * n + j) / n` is `e`, where `j` is below `n` and nothing is taken away in `e`.
    RowOfCell,
    /// `(e * n + j) mod n` is `j`, where `j` is below `n` and nothing is taken away in `e`.
    ColumnOfCell,
    /// `(e / n) * n + e mod n` is `e`.
    CellOfParts,
    /// The greater of `e` and 0 is `e`, where nothing is taken away in `e`.
    GreatestZero,
    /// The greater of 0 and `e` is `e`, where nothing is taken away in `e`.
    ZeroGreatest,
    /// The lesser of `e` and 0 is 0, where nothing is taken away in `e`.
    LeastZero,
    /// The lesser of 0 and `e` is 0, where nothing is taken away in `e`.
    ZeroLeast,
}

/// The laws that are tried, in this order.
pub const LAWS: [Law; 20] = [
    Law::Computed,
    Law::PlusZero,
    Law::ZeroPlus,
    Law::MinusZero,
    Law::MinusItself,
    Law::TimesOne,
    Law::OneTimes,
    Law::TimesZero,
    Law::ZeroTimes,
    Law::OverOne,
    Law::ModuloOne,
    Law::WholeSize,
    Law::ScaledSize,
    Law::RowOfCell,
    Law::ColumnOfCell,
    Law::CellOfParts,
    Law::GreatestZero,
    Law::ZeroGreatest,
    Law::LeastZero,
    Law::ZeroLeast,
];

// How many operations deep a row is looked into, so that the work at
// each node stays within a bound.
const DEEPEST: u32 = 3;

// Whether nothing is taken away in it, as far as so many operations deep
// tell. Then it is never below 0.
fn is_count(e: &Index, depth: u32) -> bool
    ensures { result ≡ tests.is_count depth (expression_of e.now) }
{
    match e {
        Index::Variable { .. } | Index::Literal(_) | Index::Size(_) => true,
        Index::Binary(Operation::Difference, _, _) => false,
        Index::Binary(_, a, b) => depth > 0 && is_count(a, depth - 1) && is_count(b, depth - 1),
    }
}

/// Whether nothing is taken away in it, as far as three operations deep
/// tell: then it is never below 0.
pub fn is_natural(e: &Index) -> bool
    ensures { result ≡ tests.is_count 3 (expression_of e.now) }
{
    is_count(e, DEEPEST)
}

// Whether it is a row that is never below 0, times this length.
fn is_begin(e: &Index, length: &Index) -> bool
    ensures { result ≡ tests.is_begin (expression_of e.now) (expression_of length.now) }
{
    match e {
        Index::Binary(Operation::Product, row, n) => same(n, length) && is_natural(row),
        _ => false,
    }
}

// Whether it is the cell of a row of this length and of a column in it.
fn is_cell(e: &Index, length: &Index, ranges: &Ranges) -> bool
    ensures { result
        ≡ tests.is_cell (ranges_of ranges.now) (expression_of e.now) (expression_of length.now) }
{
    match e {
        Index::Binary(Operation::Sum, begin, column) => {
            is_begin(begin, length) && ranges.is_below(column, length)
        }
        _ => false,
    }
}

// Whether it is this dividend over this divisor.
fn is_quotient(e: &Index, dividend: &Index, divisor: &Index) -> bool
    ensures { result
        ≡ tests.is_quotient (expression_of e.now) (expression_of dividend.now)
        (expression_of divisor.now) }
{
    match e {
        Index::Binary(Operation::Quotient, d, n) => same(n, divisor) && same(d, dividend),
        _ => false,
    }
}

// Whether it is this dividend over this divisor, times the divisor.
fn is_rounded(e: &Index, dividend: &Index, divisor: &Index) -> bool
    ensures { result
        ≡ tests.is_rounded (expression_of e.now) (expression_of dividend.now)
        (expression_of divisor.now) }
{
    match e {
        Index::Binary(Operation::Product, quotient, n) => {
            same(n, divisor) && is_quotient(quotient, dividend, divisor)
        }
        _ => false,
    }
}

// Whether they are an expression rounded down to a multiple, and what this leaves of it.
fn are_parts(a: &Index, b: &Index) -> bool
    ensures { result ≡ tests.are_parts (expression_of a.now) (expression_of b.now) }
{
    match b {
        Index::Binary(Operation::Remainder, dividend, divisor) => is_rounded(a, dividend, divisor),
        _ => false,
    }
}

// Whether the one is 0, and the other is never below it.
fn is_zero_beside(zero: &Index, other: &Index) -> bool
    ensures { result ≡ tests.is_zero_beside (expression_of zero.now) (expression_of other.now) }
{
    is_number(0, zero) && is_natural(other)
}

// Whether it is a divisor of this number, and below it.
fn is_part_of(number: u32, divisor: &Index) -> bool
    ensures { result ≡ tests.is_part_of number (expression_of divisor.now) }
{
    match divisor {
        Index::Literal(d) => 0 < *d && *d < number && number % *d == 0,
        Index::Variable { .. } | Index::Size(_) | Index::Binary(_, _, _) => false,
    }
}

// Whether it is a size over this number, of which it is a multiple.
fn is_base(e: &Index, divisor: u32, ranges: &Ranges) -> bool
    ensures { result ≡ tests.is_base (ranges_of ranges.now) divisor (expression_of e.now) }
{
    match e {
        Index::Binary(Operation::Quotient, size, d) => {
            is_number(divisor, d) && ranges.is_multiple(size, d)
        }
        _ => false,
    }
}

// Whether it is a size over a part of this number, of which it is a multiple.
fn is_part_base(e: &Index, number: u32, ranges: &Ranges) -> bool
    ensures { result ≡ tests.is_part_base (ranges_of ranges.now) number (expression_of e.now) }
{
    match e {
        Index::Binary(Operation::Quotient, size, d) => {
            is_part_of(number, d) && ranges.is_multiple(size, d)
        }
        _ => false,
    }
}

// Whether they are a literal and a size over it.
fn is_whole_size(a: &Index, b: &Index, ranges: &Ranges) -> bool
    ensures { result
        ≡ tests.is_whole_size (ranges_of ranges.now) (expression_of a.now) (expression_of b.now) }
{
    match a {
        Index::Literal(number) => is_base(b, *number, ranges),
        Index::Variable { .. } | Index::Size(_) | Index::Binary(_, _, _) => false,
    }
}

// Whether they are a literal and a size over a part of it.
fn is_scaled_size(a: &Index, b: &Index, ranges: &Ranges) -> bool
    ensures { result
        ≡ tests.is_scaled_size (ranges_of ranges.now) (expression_of a.now) (expression_of b.now) }
{
    match a {
        Index::Literal(number) => is_part_base(b, *number, ranges),
        Index::Variable { .. } | Index::Size(_) | Index::Binary(_, _, _) => false,
    }
}

// How often one number is in another; 0 for any other expressions.
fn ratio(a: &Index, b: &Index) -> u32
    ensures { result ≡ spec.ratio (expression_of a.now) (expression_of b.now) }
{
    computed(Operation::Quotient, a, b).unwrap_or(0)
}

// A number times a quotient, the quotient's divisor divided out of the number.
fn scaled(number: Index, quotient: Index) -> Index
    ensures { expression_of result
        ≡ spec.scaled (expression_of number) (expression_of quotient) }
{
    match quotient {
        Index::Binary(_, size, mut divisor) => {
            *divisor = Index::Literal(ratio(&number, &divisor));
            Index::Binary(Operation::Product, divisor, size)
        }
        leaf => leaf,
    }
}

// What stands first in an operation.
fn first_part(e: Index) -> Index
    ensures { expression_of result ≡ spec.first_part (expression_of e) }
{
    match e {
        Index::Binary(_, a, _) => Box::into_inner(a),
        leaf => leaf,
    }
}

// What stands second in an operation.
fn second_part(e: Index) -> Index
    ensures { expression_of result ≡ spec.second_part (expression_of e) }
{
    match e {
        Index::Binary(_, _, b) => Box::into_inner(b),
        leaf => leaf,
    }
}

impl Law {
    /// Whether the law is of the operation on these expressions.
    pub fn applies(self, operation: Operation, a: &Index, b: &Index, ranges: &Ranges) -> bool
        ensures { result
            ≡ spec.applies (ranges_of ranges.now) self operation (expression_of a.now)
            (expression_of b.now) }
    {
        match self {
            Law::Computed => computed(operation, a, b).is_some(),
            Law::PlusZero => same_operation(operation, Operation::Sum) && is_number(0, b),
            Law::ZeroPlus => same_operation(operation, Operation::Sum) && is_number(0, a),
            Law::MinusZero => same_operation(operation, Operation::Difference) && is_number(0, b),
            Law::MinusItself => same_operation(operation, Operation::Difference) && same(a, b),
            Law::TimesOne => same_operation(operation, Operation::Product) && is_number(1, b),
            Law::OneTimes => same_operation(operation, Operation::Product) && is_number(1, a),
            Law::TimesZero => same_operation(operation, Operation::Product) && is_number(0, b),
            Law::ZeroTimes => same_operation(operation, Operation::Product) && is_number(0, a),
            Law::OverOne => same_operation(operation, Operation::Quotient) && is_number(1, b),
            Law::ModuloOne => same_operation(operation, Operation::Remainder) && is_number(1, b),
            Law::WholeSize => {
                same_operation(operation, Operation::Product) && is_whole_size(a, b, ranges)
            }
            Law::ScaledSize => {
                same_operation(operation, Operation::Product) && is_scaled_size(a, b, ranges)
            }
            Law::RowOfCell => {
                same_operation(operation, Operation::Quotient) && is_cell(a, b, ranges)
            }
            Law::ColumnOfCell => {
                same_operation(operation, Operation::Remainder) && is_cell(a, b, ranges)
            }
            Law::CellOfParts => same_operation(operation, Operation::Sum) && are_parts(a, b),
            Law::GreatestZero => {
                same_operation(operation, Operation::Greatest) && is_zero_beside(b, a)
            }
            Law::ZeroGreatest => {
                same_operation(operation, Operation::Greatest) && is_zero_beside(a, b)
            }
            Law::LeastZero => same_operation(operation, Operation::Least) && is_zero_beside(b, a),
            Law::ZeroLeast => same_operation(operation, Operation::Least) && is_zero_beside(a, b),
        }
    }

    /// What has the value of the operation on these expressions, where the law is of it.
    pub fn applied(self, operation: Operation, a: Index, b: Index) -> Index
        ensures { expression_of result
            ≡ spec.applied self operation (expression_of a) (expression_of b) }
    {
        match self {
            Law::Computed => Index::Literal(computed(operation, &a, &b).unwrap_or(0)),
            Law::PlusZero | Law::MinusZero | Law::TimesOne | Law::OverOne | Law::GreatestZero => a,
            Law::ZeroPlus | Law::OneTimes | Law::ZeroGreatest => b,
            Law::MinusItself
            | Law::TimesZero
            | Law::ZeroTimes
            | Law::ModuloOne
            | Law::LeastZero
            | Law::ZeroLeast => Index::Literal(0),
            Law::WholeSize => first_part(b),
            Law::ScaledSize => scaled(a, b),
            Law::RowOfCell | Law::CellOfParts => first_part(first_part(a)),
            Law::ColumnOfCell => second_part(a),
        }
    }
}
