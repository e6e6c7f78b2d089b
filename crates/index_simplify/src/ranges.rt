//! What is known at a place in a kernel.

ghost use Rattle.std.specs.Prelude.{◌≡◌};
ghost use Rattle.index_expr.specs.Expression.{expression_of};
ghost use Rattle.index_simplify.specs.Tests as spec;
ghost use Rattle.index_simplify.specs.PlainRanges.{ranges_of};

use crate::same::{is_number, same};
use index_expr::{Index, Operation};

/// What is known of loops and sizes at a place, besides the ranges that variables carry.
#[derive(Drop)]
pub struct Ranges {
    /// The length of each loop around, the outermost first: its variable stays below it.
    pub lengths: Vec<Index>,
    /// For each size a number that it is a multiple of, in the order of their declarations.
    pub multiples: Vec<u32>,
}

impl Ranges {
    // Whether the loop of this variable is no longer than this.
    #[tactic(auto, using(crate::proofs::Known::known_length))]
    fn is_loop_within(&self, variable: u32, length: &Index) -> bool
        ensures { result
            ≡ spec.is_loop_within (ranges_of self.now) variable (expression_of length.now) }
    {
        match self.lengths.get(variable as usize) {
            None => false,
            Some(known) => is_no_longer(known, length),
        }
    }

    /// Whether an expression is a variable that stays below a length: by its own range below a
    /// number, or because its loop is no longer.
    pub fn is_below(&self, column: &Index, length: &Index) -> bool
        ensures { result
            ≡ spec.is_below (ranges_of self.now) (expression_of column.now)
            (expression_of length.now) }
    {
        match column {
            Index::Variable {
                number,
                greatest,
                ..
            } => is_above(length, *greatest) || self.is_loop_within(*number, length),
            Index::Literal(_) | Index::Size(_) | Index::Binary(_, _, _) => false,
        }
    }

    // Whether this is the number that the size is a multiple of.
    fn is_multiple_at(&self, size: u32, divisor: &Index) -> bool
        ensures { result
            ≡ spec.is_multiple_at (ranges_of self.now) size (expression_of divisor.now) }
    {
        match self.multiples.get(size as usize) {
            None => false,
            Some(multiple) => is_number(*multiple, divisor),
        }
    }

    /// Whether an expression is a size, and the other the number that it is a multiple of.
    pub fn is_multiple(&self, size: &Index, divisor: &Index) -> bool
        ensures { result
            ≡ spec.is_multiple (ranges_of self.now) (expression_of size.now)
            (expression_of divisor.now) }
    {
        match size {
            Index::Size(number) => self.is_multiple_at(*number, divisor),
            Index::Variable { .. } | Index::Literal(_) | Index::Binary(_, _, _) => false,
        }
    }

    /// Whether an expression is at least 1: a number above 0, a declared size, one over the number
    /// that it is a multiple of, or a sum or a product of two of these.
    pub fn is_positive(&self, e: &Index) -> bool
        ensures { result ≡ spec.is_positive (ranges_of self.now) (expression_of e.now) }
    {
        match e {
            Index::Literal(n) => 0 < *n,
            Index::Size(number) => self.multiples.get(*number as usize).is_some(),
            Index::Binary(Operation::Quotient, size, divisor) => self.is_multiple(size, divisor),
            Index::Binary(Operation::Sum | Operation::Product, a, b) => {
                self.is_positive(a) && self.is_positive(b)
            }
            _ => false,
        }
    }
}

/// Whether it is a number above this one.
pub fn is_above(length: &Index, greatest: u32) -> bool
    ensures { result ≡ spec.is_above (expression_of length.now) greatest }
{
    match length {
        Index::Literal(n) => greatest < *n,
        Index::Variable { .. } | Index::Size(_) | Index::Binary(_, _, _) => false,
    }
}

/// Whether it is a number, and at least this one.
pub fn is_at_least(length: &Index, least: u32) -> bool
    ensures { result ≡ spec.is_at_least (expression_of length.now) least }
{
    match length {
        Index::Literal(n) => least <= *n,
        Index::Variable { .. } | Index::Size(_) | Index::Binary(_, _, _) => false,
    }
}

/// Whether a length is the other, or both are numbers and it is no greater.
pub fn is_no_longer(known: &Index, length: &Index) -> bool
    ensures { result ≡ spec.is_no_longer (expression_of known.now) (expression_of length.now) }
{
    match known {
        Index::Literal(n) => is_at_least(length, *n),
        Index::Variable { .. } | Index::Size(_) | Index::Binary(_, _, _) => same(known, length),
    }
}
