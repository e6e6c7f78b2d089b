//! Index expressions as a tree.

ghost use Rattle.std.specs.Prelude.{◌≡◌, ◌<◌, ◌^◌, ◌↔◌, min, unsigned_abs, IsTrue, IfOk, MatchOption};

use crate::operation::Operation;
use crate::point::Point;
use std::alloc::{AllocError, Global};

/// An index expression over the variables of loops and the sizes.
#[derive(Drop)]
pub enum Index {
    /// A variable with the least and the greatest of its values.
    Variable {
        number: u32,
        least: u32,
        greatest: u32,
    },
    Literal(u32),
    /// A size, by its number.
    Size(u32),
    Binary(Operation, Box<Index>, Box<Index>),
}

impl Index {
    ghost use Rattle.index_expr.specs.Expression.{Binary, expression_of, nodes};
    ghost use Rattle.index_expr.specs.Values.{exact_at, wrapped_at, HasNoZeroDivisor, HasNoZeroDivisorInWords, HasBoundedParts, HasWordArguments, IsRanged, IsWord};

    /// The operation on two expressions.
    pub fn binary(
        alloc: Global,
        operation: Operation,
        a: Index,
        b: Index,
    ) -> Result<Self, AllocError>
        ensures { IfOk result
            (λ e. expression_of e ≡ Binary operation (expression_of a) (expression_of b)) }
    {
        let a = Box::new(alloc, a)?;
        Ok(Index::Binary(operation, a, Box::new(alloc, b)?))
    }

    /// An equal expression in memory of its own.
    pub fn copy(&self, alloc: Global) -> Result<Self, AllocError>
        ensures { IfOk result (λ e. expression_of e ≡ expression_of self.now) }
    {
        match self {
            Index::Variable {
                number,
                least,
                greatest,
            } => Ok(Index::Variable {
                number: *number,
                least: *least,
                greatest: *greatest,
            }),
            Index::Literal(n) => Ok(Index::Literal(*n)),
            Index::Size(number) => Ok(Index::Size(*number)),
            Index::Binary(operation, a, b) => {
                let a = Box::new(alloc, a.copy(alloc)?)?;
                Ok(Index::Binary(*operation, a, Box::new(alloc, b.copy(alloc)?)?))
            }
        }
    }

    /// How many nodes the expression has; the count stands still at 2^64 - 1.
    pub fn node_count(&self) -> u64
        ensures { result ≡ min (nodes (expression_of self.now)) u64.MAX }
    {
        match self {
            Index::Variable { .. } | Index::Literal(_) | Index::Size(_) => 1,
            Index::Binary(_, a, b) => a
                .node_count()
                .saturating_add(b.node_count())
                .saturating_add(1),
        }
    }

    /// The value over the whole numbers.
    pub fn exact(&self, point: &Point) -> i128
        requires divisors { HasNoZeroDivisor point.now (expression_of self.now) }
        requires parts { HasBoundedParts point.now (expression_of self.now) }
        ensures value { result ≡ exact_at point.now (expression_of self.now) }
        ensures bounded { unsigned_abs result < 2 ^ 120 }
    {
        match self {
            Index::Variable { number, .. } => point.variable(*number) as i128,
            Index::Literal(n) => *n as i128,
            Index::Size(number) => point.size(*number) as i128,
            Index::Binary(operation, a, b) => operation.exact(a.exact(point), b.exact(point)),
        }
    }

    /// The value on words of 32 bits: sums, differences and products wrap. Where the expression is
    /// ranged it is the exact value.
    pub fn wrapped(&self, point: &Point) -> u32
        requires { HasNoZeroDivisorInWords point.now (expression_of self.now) }
        ensures { result ≡ wrapped_at point.now (expression_of self.now) }
    {
        match self {
            Index::Variable { number, .. } => point.variable(*number),
            Index::Literal(n) => *n,
            Index::Size(number) => point.size(*number),
            Index::Binary(operation, a, b) => operation.wrapped(a.wrapped(point), b.wrapped(point)),
        }
    }

    // The exact value, where each quotient, remainder, least and greatest number is of words.
    fn exact_of_words(&self, point: &Point) -> Option<i128>
        requires divisors { HasNoZeroDivisor point.now (expression_of self.now) }
        requires parts { HasBoundedParts point.now (expression_of self.now) }
        ensures { MatchOption result (HasWordArguments point.now (expression_of self.now) → ⊥)
            (λ z. HasWordArguments point.now (expression_of self.now)
            × (z ≡ exact_at point.now (expression_of self.now)) × (unsigned_abs z < 2 ^ 120)) }
    {
        match self {
            Index::Variable { number, .. } => Some(point.variable(*number) as i128),
            Index::Literal(n) => Some(*n as i128),
            Index::Size(number) => Some(point.size(*number) as i128),
            Index::Binary(operation, a, b) => {
                let a = a.exact_of_words(point)?;
                let b = b.exact_of_words(point)?;
                if operation.wants_words() && !(is_word(a) && is_word(b)) {
                    return None;
                }
                Some(operation.exact(a, b))
            }
        }
    }

    /// Whether the arguments of each quotient, remainder, least and greatest number have exact
    /// values from 0 to 4,294,967,295, and so has the whole.
    ///
    /// Where this is so the value on words is the exact value.
    pub fn is_ranged(&self, point: &Point) -> bool
        requires divisors { HasNoZeroDivisor point.now (expression_of self.now) }
        requires parts { HasBoundedParts point.now (expression_of self.now) }
        ensures { IsTrue result ↔ IsRanged point.now (expression_of self.now) }
    {
        match self.exact_of_words(point) {
            None => false,
            Some(value) => is_word(value),
        }
    }
}

ghost use Rattle.index_expr.specs.Values.{IsWord};

fn is_word(value: i128) -> bool
    ensures { IsTrue result ↔ IsWord value }
{
    0 <= value && value <= 4294967295
}

impl Default for Index {
    ghost use Rattle.index_expr.specs.Expression.{Literal, expression_of};

    ghost is_default = { λ e. expression_of e ≡ Literal 0 };

    fn default() -> Self {
        Index::Literal(0)
    }
}
